ghost use Rattle.std.specs.Prelude.{◌≤◌, length, IsTrue};
ghost use Rattle.std.specs.List.{list_all};
ghost use Rattle.max_flow.specs.Flows.{is_small};
ghost use Rattle.measuring.specs.CutRuns.{points_of};
ghost use Rattle.measuring.specs.Measured.{are_points_in, has_slot};

use cut_file::Cut;
use flow_graph::Graph;
use max_flow::{Flow, Side};

/// What is measured of several runs together.
///
/// By its type the graph has at most 65,536 points, at slots that turns pass, at most 1,048,576 links and capacities
/// below 2^48, and each point of the cut, which has at most 65,536, is a point of the graph.
#[derive(Drop)]
pub struct Many {
    /// The maximum flow, in bits: so many bits of the secret at most can have flowed to what is seen of any of the runs.
    pub value: u64,
    /// The graph of all runs together.
    pub graph: Graph,
    /// A flow of that value.
    pub flow: Flow,
    /// The least minimum side.
    pub side: Side,
    /// The cut of all runs and that side.
    pub cut: Cut,
    ghost few_points: { length graph.points ≤ 65536 },
    ghost few_links: { length graph.links ≤ 1048576 },
    ghost small: { IsTrue (list_all is_small graph.points) },
    ghost slots: { IsTrue (list_all has_slot graph.points) },
    ghost few_cut_points: { length cut.points ≤ 65536 },
    ghost known: { IsTrue (are_points_in graph.points (points_of cut.points)) },
}
