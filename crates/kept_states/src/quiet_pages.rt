//! Pages in which there is nothing, which are skipped many at once.

ghost use Rattle.std.specs.Prelude.{◌≡◌, ◌+◌, ◌*◌, ◌<◌, ◌≤◌, ℕ, false};
ghost use Rattle.kept_states.specs.Keeping.{mask_byte, memory_byte};
ghost use Rattle.kept_states.specs.Laids.{AreZeros};

use rv32im_machine::Machine;
use shadow_masks::Shadow;

/// How many pages memory has.
pub(crate) const PAGES: usize = 4096;

/// Whether one of so many pages from a page on was touched.
#[inline(always)]
fn is_one_touched(machine: &Machine, page: usize, count: usize) -> bool
    requires { page + count ≤ 4096 }
    ensures { result ≡ false → AreZeros (memory_byte machine.now) page (page + count) }
{
    let mut touched = false;
    for place in 0..count {
        touched = touched | machine.is_touched(page + place);
    }
    touched
}

/// The first page from a page on that was touched, or 4,096.
pub(crate) fn next_touched(machine: &Machine, from: usize) -> usize
    requires { from ≤ 4096 }
    ensures from { from ≤ result }
    ensures most { result ≤ 4096 }
    ensures zeros { AreZeros (memory_byte machine.now) from result }
{
    let mut page = from;
    while page < PAGES {
        if page % 256 == 0 && !is_one_touched(machine, page, 256) {
            page += 256;
        } else if page % 16 == 0 && !is_one_touched(machine, page, 16) {
            page += 16;
        } else if machine.is_touched(page) {
            return page;
        } else {
            page += 1;
        }
    }
    page
}

/// Whether a mask was set in one of so many pages from a page on.
#[inline(always)]
fn is_one_set(shadow: &Shadow, page: usize, count: usize) -> bool
    requires { page + count ≤ 4096 }
    ensures { result ≡ false → AreZeros (mask_byte shadow.now) page (page + count) }
{
    let mut set = false;
    for place in 0..count {
        set = set | shadow.is_set(page + place);
    }
    set
}

/// The first page from a page on in which a mask was set, or 4,096.
pub(crate) fn next_set(shadow: &Shadow, from: usize) -> usize
    requires { from ≤ 4096 }
    ensures from { from ≤ result }
    ensures most { result ≤ 4096 }
    ensures zeros { AreZeros (mask_byte shadow.now) from result }
{
    let mut page = from;
    while page < PAGES {
        if page % 256 == 0 && !is_one_set(shadow, page, 256) {
            page += 256;
        } else if page % 16 == 0 && !is_one_set(shadow, page, 16) {
            page += 16;
        } else if shadow.is_set(page) {
            return page;
        } else {
            page += 1;
        }
    }
    page
}
