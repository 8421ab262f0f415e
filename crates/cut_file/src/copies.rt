ghost use Rattle.std.specs.Prelude.{◌≡◌, IfOk};

use crate::points::CutPoint;
use flow_base::{List, NoMemory};
use std::alloc::Global;

/// A copy of a point with its masks.
pub(crate) fn copy_point(alloc: Global, cut_point: &CutPoint) -> Result<CutPoint, NoMemory>
    ensures { IfOk result (λ copy. copy ≡ cut_point.now) }
{
    Ok(CutPoint {
        point: cut_point.point,
        runs: List::from_slice(alloc, cut_point.runs.as_slice())?,
        rest: List::from_slice(alloc, cut_point.rest.as_slice())?,
    })
}

/// A copy of points with their masks.
pub(crate) fn copy_points(
    alloc: Global,
    points: &List<CutPoint>,
) -> Result<List<CutPoint>, NoMemory>
    ensures { IfOk result (λ copies. copies ≡ points.now) }
{
    let mut copies = List::new(alloc);
    for cut_point in points.as_slice() {
        let copy = copy_point(alloc, cut_point)?;
        copies.push(copy)?;
    }
    Ok(copies)
}
