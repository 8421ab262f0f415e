ghost use Rattle.std.specs.Prelude.{length, ◌≡◌};

use crate::counter_rows::Row;
use flow_base::Point;
use hinted_map::HintedMap;
use std::alloc::Global;

/// Counters of points, a row for each slot of each page that was run, and all 0 where there is no row. A counter goes up
/// to 2^32 - 1. Outputs of regions have no counter: a run passes no mask 0 there.
///
/// The row of a slot is first looked for where the latest one of that slot stands.
#[derive(Drop)]
pub struct VisitCounts {
    /// The rows, each by its slot at the start of its page.
    pub rows: HintedMap<Point, Row>,
    /// Where the latest row of each slot stands.
    pub latest: [usize; 16],
    pub alloc: Global,
}
