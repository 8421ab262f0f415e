ghost use Rattle.std.specs.Prelude.{◌≡◌, ◌≤◌, ◌<◌, ◌^◌, IfOk, IsTrue, true};
ghost use Rattle.std.specs.List.{AllByRecursion, list_all};
ghost use Rattle.cut_file.specs.Cuts.{are_regions};
ghost use Rattle.measuring.specs.Cutting.{CutsGraph, FitsCut};
ghost use Rattle.measuring.specs.Splits.{skipped, split_points};

use crate::cut_points::cut_points;
use crate::kept_visits::KeptVisits;
use crate::splitting::{points_of_cut, skipped_regions};
use cut_file::Cut;
use flow_base::NoMemory;
use flow_graph::Graph;
use max_flow::Side;
use std::alloc::Global;

/// The cut of a run by the graph of its events, the visits of its points and a side with this capacity.
/// `NoMemory` where there is not enough.
pub fn cut_of(
    alloc: Global,
    secret_len: u32,
    graph: &Graph,
    side: &Side,
    value: u64,
    visits: &KeptVisits,
) -> Result<Cut, NoMemory>
    requires short { secret_len ≤ 65536 }
    requires bits { value < 2 ^ 32 }
    requires fits { AllByRecursion (FitsCut visits.now)
        (split_points (skipped graph.now.relays side.now.relays) graph.now.points side.now.points) }
    ensures { IfOk result (λ cut. CutsGraph visits.now graph.now side.now.points side.now.relays secret_len value cut) }
{
    let skip = skipped_regions(alloc, graph.relays.as_slice(), side.relays.as_slice())?;
    let split = points_of_cut(
        alloc,
        skip.as_slice(),
        graph.points.as_slice(),
        side.points.as_slice(),
    )?;
    let points = cut_points(alloc, visits, split.as_slice())?;
    Ok(Cut {
        version: 1,
        secret_len,
        bits: value as u32,
        skip,
        points,
    })
}
