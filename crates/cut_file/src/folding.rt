ghost use Rattle.std.specs.Prelude.{◌≡◌, ◌≤◌, ◌++◌, length, nat_le, replicate, IfOk, IfSome, IsTrue, None, OnOk};
ghost use Rattle.cut_file.specs.Cuts.{are_points, are_points_of, is_cut_point};
ghost use Rattle.cut_file.specs.Folds.{begins_with as begins, first_runs as first_of_runs, AreFolded, HasNoPeriod};
ghost use Rattle.cut_file.specs.Folds.{is_period as is_period_of, IsFold, IsFolded, IsLeastPeriod};
ghost use Rattle.cut_file.specs.Masks.{listed_masks};
ghost use Rattle.cut_file.specs.Pictures.{cut_picture};

use crate::copies::copy_point;
use crate::cuts::Cut;
use crate::points::{CutPoint, Run};
use flow_base::{List, NoMemory};
use std::alloc::Global;

/// How many masks a list that is folded may have at most.
const MOST_MASKS: u32 = 65_536;

// Whether runs list at most so many masks.
fn are_few(runs: &[Run], most: u32) -> bool
    ensures { result ≡ nat_le (length (listed_masks runs.now)) most }
{
    let mut left = most;
    for run in runs {
        if left < run.count {
            return false;
        }
        left -= run.count;
    }
    true
}

// Puts the masks of a run after others.
fn put_masks(alloc: Global, masks: &mut Vec<u32>, run: &Run) -> Result<(), NoMemory>
    ensures { OnOk result (masks.new.items ≡ masks.old.items ++ replicate run.now.count run.now.mask) }
{
    let part = vec![in alloc; run.mask; run.count as usize]?;
    masks.extend_from_slice(part.as_slice())?;
    Ok(())
}

// The masks of runs, one for each visit.
fn masks_of(alloc: Global, runs: &[Run]) -> Result<Vec<u32>, NoMemory>
    ensures { IfOk result (λ masks. masks.items ≡ listed_masks runs.now) }
{
    let mut masks = Vec::new(alloc);
    for run in runs {
        put_masks(alloc, &mut masks, run)?;
    }
    Ok(masks)
}

// Whether a list begins with these masks.
fn begins_with(masks: &[u32], wanted: &[u32]) -> bool
    ensures { result ≡ begins masks.now wanted.now }
{
    masks.starts_with(wanted)
}

// Whether masks repeat by this many.
fn is_period(masks: &[u32], count: usize) -> bool
    requires few { length masks.now ≤ 65536 }
    requires short { count ≤ 64 }
    ensures { result ≡ is_period_of masks.now count }
{
    1 <= count && 2 * count <= masks.len() && begins_with(masks, &masks[count..])
}

// The least number by which masks repeat.
fn least_period(masks: &[u32]) -> Option<usize>
    requires { length masks.now ≤ 65536 }
    ensures some { IfSome result (λ count. IsLeastPeriod masks.now count) }
    ensures none { result ≡ None → HasNoPeriod masks.now }
{
    for count in 1..65 {
        if is_period(masks, count) {
            return Some(count);
        }
    }
    None
}

// The least number by which the masks of runs repeat.
fn period_of(alloc: Global, runs: &[Run]) -> Result<Option<usize>, NoMemory>
    ensures some { IfOk result (λ period. IfSome period (λ count. IsLeastPeriod (listed_masks runs.now) count)) }
    ensures none { IfOk result (λ period. period ≡ None → HasNoPeriod (listed_masks runs.now)) }
{
    if !are_few(runs, MOST_MASKS) {
        return Ok(None);
    }
    let masks = masks_of(alloc, runs)?;
    Ok(least_period(masks.as_slice()))
}

// The runs of the first masks.
fn first_runs(alloc: Global, runs: &[Run], count: usize) -> Result<List<Run>, NoMemory>
    ensures { IfOk result (λ first. first ≡ first_of_runs count runs.now) }
{
    let mut first: List<Run> = List::new(alloc);
    let mut left = count;
    let mut rest = runs;
    while let [run, more @ ..] = rest {
        if left <= run.count as usize {
            first.push(Run {
                count: left as u32,
                mask: run.mask,
            })?;
            return Ok(first);
        }
        first.push(*run)?;
        left -= run.count as usize;
        rest = more;
    }
    Ok(first)
}

// The folded point.
fn folded_point(alloc: Global, cut_point: &CutPoint) -> Result<CutPoint, NoMemory>
    requires { IsTrue (is_cut_point cut_point.now) }
    ensures folded { IfOk result (λ folded. IsFolded cut_point.now folded) }
    ensures known { IfOk result (λ folded. IsTrue (is_cut_point folded)) }
{
    let Some(count) = period_of(alloc, cut_point.runs.as_slice())? else {
        return copy_point(alloc, cut_point);
    };
    let rest = first_runs(alloc, cut_point.runs.as_slice(), count)?;
    Ok(CutPoint {
        point: cut_point.point,
        runs: List::new(alloc),
        rest,
    })
}

// The folded points.
fn folded_points(alloc: Global, points: &[CutPoint]) -> Result<List<CutPoint>, NoMemory>
    requires { IsTrue (are_points points.now) }
    ensures folded { IfOk result (λ folded. AreFolded points.now folded) }
    ensures known { IfOk result (λ folded. IsTrue (are_points_of 2 folded)) }
{
    let mut folded = List::new(alloc);
    for cut_point in points {
        let point = folded_point(alloc, cut_point)?;
        folded.push(point)?;
    }
    Ok(folded)
}

// The folded points of a cut.
fn points_of(alloc: Global, cut: &Cut) -> Result<List<CutPoint>, NoMemory>
    ensures folded { IfOk result (λ folded. AreFolded cut.now.points folded) }
    ensures known { IfOk result (λ folded. IsTrue (are_points_of 2 folded)) }
{
    let folded = folded_points(alloc, cut.points.as_slice())?;
    Ok(folded)
}

/// The cut in version 2, of one in version 1, in which each list of masks that repeats is a pattern instead: where a
/// point lists at most 65,536 masks, and each is equal to the one that stands so many places later, for some number
/// from 1 to 64 and at most half of theirs, it lists none and its pattern is the first so many, for the least such
/// number. All other points stay. At each visit that the cut lists, its masks are the same. It takes time in 64 times
/// the number of masks that are listed. Its error is lack of memory.
pub fn fold(alloc: Global, cut: &Cut) -> Result<Cut, NoMemory>
    requires { cut.now.version ≡ 1 }
    ensures { IfOk result (λ folded. IsFold (cut_picture cut.now) (cut_picture folded)) }
{
    let skip = List::from_slice(alloc, cut.skip.as_slice())?;
    let points = points_of(alloc, cut)?;
    Ok(Cut {
        version: 2,
        secret_len: cut.secret_len,
        bits: cut.bits,
        skip,
        points,
    })
}
