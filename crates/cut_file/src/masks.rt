ghost use Rattle.std.specs.Prelude.{◌≡◌, ◌≤◌, ◌+◌, ◌-◌, ◌%◌, length, slice_index_or, IfErr, IfOk};
ghost use Rattle.cut_file.specs.Masks.{listed_masks, mask_of};

use crate::points::{CutPoint, Run};

// The mask that runs list for a visit, counted from 1; and where they list fewer, how many visits it is after them.
fn listed_mask(runs: &[Run], visit: u64) -> Result<u32, u64>
    requires { 1 ≤ visit }
    ensures mask { IfOk result (λ mask. mask ≡ slice_index_or (listed_masks runs.now) (visit - 1) 0) }
    ensures within { IfOk result (λ _. visit ≤ length (listed_masks runs.now)) }
    ensures behind { IfErr result (λ left. visit ≡ length (listed_masks runs.now) + left) }
    ensures later { IfErr result (λ left. 1 ≤ left) }
{
    let mut left = visit;
    for run in runs {
        let count = u64::from(run.count);
        if left <= count {
            return Ok(run.mask);
        }
        left -= count;
    }
    Err(left)
}

// The mask of a pattern that repeats, at a visit counted from its first; 0 where it has none.
fn pattern_mask(rest: &[Run], visit: u64) -> u32
    requires { 1 ≤ visit }
    ensures { result ≡ slice_index_or (listed_masks rest.now) ((visit - 1) % length (listed_masks rest.now)) 0 }
{
    match listed_mask(rest, visit) {
        Ok(mask) => mask,
        Err(left) if left == visit => 0,
        Err(left) => listed_mask(rest, (visit - 1) % (visit - left) + 1).unwrap_or(0),
    }
}

/// The mask of the bits that cross at a visit of the point, counted from 1: the mask that the runs list for it, and
/// after those that of `rest`, which repeats, within the width of the point's slot. It takes time in the number of
/// the point's runs.
pub fn mask_at(point: &CutPoint, visit: u64) -> u32
    requires { 1 ≤ visit }
    ensures { result ≡ mask_of point.now visit }
{
    let mask = match listed_mask(point.runs.as_slice(), visit) {
        Ok(mask) => mask,
        Err(later) => pattern_mask(point.rest.as_slice(), later),
    };
    mask & point.point.slot.width()
}
