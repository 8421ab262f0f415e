ghost use Rattle.std.specs.Prelude.{◌≡◌, ◌≤◌, Some, IfOk, IsTrue, OnErr};
ghost use Rattle.flow_base.specs.Points.{is_slot};
ghost use Rattle.rv32im_machine.specs.Playing.{IsAim, AreSources, FitsAim, FitsSlot, joins_bytes};
ghost use Rattle.tracked_run.specs.Labels.{goes_to_byte, labels_of};
ghost use Rattle.masked_turns.specs.Clearing.{aimed_mask as mask_aimed, uncrossed as mask_uncrossed};
ghost use Rattle.masked_turns.specs.Deciding.{first_left, left_at};
ghost use Rattle.masked_turns.specs.Notes.{Clears};

use crate::uses::LeftBits;
use flow_base::{NoMemory, Point, Slot};
use rv32im_machine::{Aim, Passing};
use shadow_masks::Shadow;
use tracked_run::{Held, answer_of, labelled, masks_of_sources, put_aimed, work_mask};
use transfer_rules::RuleBook;

/// The point of each label: none.
const NOWHERE: Point = Point {
    region: 0,
    address: 0,
    slot: Slot::First,
};

/// The mask of a passing, of what is made for it: an output of a skipped region has every bit of its slot.
#[inline(always)]
pub fn aimed_mask(aim: Aim, slot: Slot, skipped: bool, mask: u32) -> u32
    requires { IsTrue (is_slot slot) }
    ensures { result ≡ mask_aimed skipped aim slot mask }
{
    match aim {
        Aim::Give(_) if skipped => slot.width(),
        _ => mask,
    }
}

/// Of a mask the bits that do not cross.
#[inline(always)]
pub fn uncrossed(mask: u32, crossing: u32) -> u32
    ensures uncrossed { result ≡ mask_uncrossed mask crossing }
    ensures below { result ≤ mask }
{
    mask & !crossing
}

/// A value passes at a visit at which these bits cross, in a turn that may be the leave, or the skip, of a skipped
/// region: its mask is found by the book's rules, and what it goes to gets the bits that are left of it, which are the
/// answer. `NoMemory` if there is not enough for the mask of a byte; nothing else takes any.
#[inline(always)]
pub fn note_cleared(
    shadow: &mut Shadow,
    held: &mut Held,
    book: &RuleBook,
    passing: Passing,
    crossing: u32,
    skipped: bool,
) -> Result<u32, NoMemory>
    requires slot { IsTrue (is_slot passing.point.slot) }
    requires aim { IsAim (Some shadow.old.base) passing.aim }
    requires sources { AreSources (Some shadow.old.base) passing.sources }
    requires joins { IsTrue (joins_bytes passing.work passing.sources) }
    requires byte { FitsSlot passing.point.slot passing.work passing.sources }
    requires fits { FitsAim passing.aim passing.point.slot }
    ensures base { shadow.new.base ≡ shadow.old.base }
    ensures notes { IfOk result (λ mask. Clears book.now.table skipped crossing (labels_of shadow.old held.old) passing
        (labels_of shadow.new held.new) mask) }
    ensures byte { OnErr result (IsTrue (goes_to_byte passing.aim)) }
{
    let masks = masks_of_sources(shadow, *held, passing.sources);
    let answer = answer_of(book, passing.work, masks);
    let made = work_mask(passing.work, masks, answer);
    let mask = uncrossed(
        aimed_mask(passing.aim, passing.point.slot, skipped, made),
        crossing,
    );
    put_aimed(shadow, held, passing.aim, labelled(mask, NOWHERE))?;
    Ok(mask)
}

/// What a passing of this mask decides by bits that are left.
#[inline(always)]
pub fn left_bits(aim: Aim, point: Point, mask: u32) -> Option<LeftBits>
    ensures { result ≡ left_at aim point mask }
{
    match aim {
        Aim::Decide if mask != 0 => Some(LeftBits { point, mask }),
        _ => None,
    }
}

/// The first of two decisions.
#[inline(always)]
pub fn earlier_left(first: Option<LeftBits>, second: Option<LeftBits>) -> Option<LeftBits>
    ensures { result ≡ first_left first second }
{
    match first {
        Some(left) => Some(left),
        None => second,
    }
}
