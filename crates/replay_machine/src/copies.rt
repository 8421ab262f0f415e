ghost use Rattle.std.specs.Prelude.{◌≡◌, IfOk, IsTrue, map, replicate};
ghost use Rattle.cut_file.specs.Cuts.{are_points};
ghost use Rattle.replay_machine.specs.Tables.{first_cursor};
ghost use Rattle.replay_machine.specs.Private.Copies.{trimmed, without_last as front_of};
ghost use Rattle.replay_machine.specs.Visits.{SameAhead};

use crate::cursors::Cursor;
use cut_file::{Cut, CutPoint, Run};
use flow_base::{List, NoMemory};
use std::alloc::Global;

fn without_last(runs: &[Run], mask: u32) -> &[Run]
    ensures { result.now ≡ front_of mask runs.now }
{
    let [front @ .., last] = runs else {
        return runs;
    };
    if last.mask == mask { front } else { runs }
}

fn trimmed_point(alloc: Global, cut_point: &CutPoint) -> Result<CutPoint, NoMemory>
    ensures { IfOk result (λ copy. copy ≡ trimmed cut_point.now) }
{
    match cut_point.rest.as_slice() {
        [only] => {
            let once = [Run {
                count: 1,
                mask: only.mask,
            }];
            Ok(CutPoint {
                point: cut_point.point,
                runs: List::from_slice(alloc, without_last(cut_point.runs.as_slice(), only.mask))?,
                rest: List::from_slice(alloc, &once)?,
            })
        }
        rest => Ok(CutPoint {
            point: cut_point.point,
            runs: List::from_slice(alloc, cut_point.runs.as_slice())?,
            rest: List::from_slice(alloc, rest)?,
        }),
    }
}

fn trimmed_points(alloc: Global, points: &[CutPoint]) -> Result<Vec<CutPoint>, NoMemory>
    ensures { IfOk result (λ copies. copies.items ≡ map trimmed points.now) }
{
    let mut copies = Vec::new(alloc);
    for cut_point in points {
        let copy = trimmed_point(alloc, cut_point)?;
        copies.push(copy).map_err(|_| NoMemory)?;
    }
    Ok(copies)
}

/// The points of a cut without masks that say nothing.
pub(crate) fn cut_points(alloc: Global, cut: &Cut) -> Result<Vec<CutPoint>, NoMemory>
    ensures same { IfOk result (λ points. SameAhead points.items cut.now.points) }
    ensures known { IfOk result (λ points. IsTrue (are_points points.items)) }
{
    let points = trimmed_points(alloc, cut.points.as_slice())?;
    Ok(points)
}

/// So many points at their start.
pub(crate) fn first_cursors(alloc: Global, count: usize) -> Result<Vec<Cursor>, NoMemory>
    ensures { IfOk result (λ cursors. cursors.items ≡ replicate count first_cursor) }
{
    let first = Cursor {
        repeats: false,
        run: 0,
        left: 0,
        mask: 0,
    };
    let cursors = vec![in alloc; first; count]?;
    Ok(cursors)
}
