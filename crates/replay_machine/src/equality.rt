ghost use Rattle.std.specs.Prelude.{◌≡◌, true};

use crate::cursors::Cursor;
use cut_file::{CutPoint, Run};

fn is_same_run(left: Run, right: Run) -> bool
    ensures { result ≡ true → left ≡ right }
{
    left.count == right.count && left.mask == right.mask
}

fn are_same_runs(left: &[Run], right: &[Run]) -> bool
    ensures { result ≡ true → left.now ≡ right.now }
{
    if left.len() != right.len() {
        return false;
    }
    for index in 0..left.len() {
        if !is_same_run(left[index], right[index]) {
            return false;
        }
    }
    true
}

fn is_same_point(left: &CutPoint, right: &CutPoint) -> bool
    ensures { result ≡ true → left.now ≡ right.now }
{
    left.point.is_same(right.point)
        && are_same_runs(left.runs.as_slice(), right.runs.as_slice())
        && are_same_runs(left.rest.as_slice(), right.rest.as_slice())
}

/// Whether the points have the same places and the same lists of masks.
pub(crate) fn are_same_points(left: &[CutPoint], right: &[CutPoint]) -> bool
    ensures { result ≡ true → left.now ≡ right.now }
{
    if left.len() != right.len() {
        return false;
    }
    for index in 0..left.len() {
        if !is_same_point(&left[index], &right[index]) {
            return false;
        }
    }
    true
}

fn is_same_cursor(left: Cursor, right: Cursor) -> bool
    ensures { result ≡ true → left ≡ right }
{
    left.repeats == right.repeats
        && left.run == right.run
        && left.left == right.left
        && left.mask == right.mask
}

/// Whether the cursors stand at the same places.
pub(crate) fn are_same_cursors(left: &[Cursor], right: &[Cursor]) -> bool
    ensures { result ≡ true → left.now ≡ right.now }
{
    if left.len() != right.len() {
        return false;
    }
    for index in 0..left.len() {
        if !is_same_cursor(left[index], right[index]) {
            return false;
        }
    }
    true
}
