ghost use Rattle.std.specs.Prelude.{◌≤◌, length, IsTrue};
ghost use Rattle.std.specs.List.{list_all};
ghost use Rattle.max_flow.specs.Flows.{is_small};
ghost use Rattle.measuring.specs.CutRuns.{points_of};
ghost use Rattle.measuring.specs.Measured.{are_points_in, has_slot};

use cut_file::Cut;
use flow_base::Output;
use flow_graph::Graph;
use max_flow::{Flow, Side};

/// What is measured of a run that exits.
///
/// By its type the graph has at most 65,536 points, at slots that turns pass, at most 1,048,576 links and capacities
/// below 2^48, and each point of the cut is a point of the graph.
#[derive(Drop)]
pub struct Measured {
    /// The maximum flow, in bits: so many bits of the secret at most can have flowed to what is seen of the run.
    pub value: u64,
    /// The number of turns of the run; the exit is the last.
    pub turns: u32,
    /// What the run has written, and its status.
    pub output: Output,
    /// The graph of its events.
    pub graph: Graph,
    /// A flow of that value.
    pub flow: Flow,
    /// The least minimum side.
    pub side: Side,
    /// The cut of the run and that side.
    pub cut: Cut,
    ghost few_points: { length graph.points ≤ 65536 },
    ghost few_links: { length graph.links ≤ 1048576 },
    ghost small: { IsTrue (list_all is_small graph.points) },
    ghost slots: { IsTrue (list_all has_slot graph.points) },
    ghost known: { IsTrue (are_points_in graph.points (points_of cut.points)) },
}
