//! One visit of a walk: its mask, and what becomes of the bits that cross.

ghost use Rattle.std.specs.Prelude.{◌≡◌, ◌≤◌, ◌<◌, ◌+◌, ℕ, [], ◌++◌, length, replicate, drop, take, false, Some};
ghost use Rattle.std.specs.Prelude.{IfOk, OnOk, OnErr, IsTrue};
ghost use Rattle.flow_base.specs.Points.{is_slot, width_of};
ghost use Rattle.flow_base.specs.Words.{bit_count as count_of, patched};
ghost use Rattle.rv32im_machine.specs.Playing.{AreSources, FitsSlot, joins_bytes};
ghost use Rattle.run_labels.specs.Masks.{masks_of};
ghost use Rattle.tracked_run.specs.Labels.{labels_of};
ghost use Rattle.masked_turns.specs.Clearing.{passing_mask as mask_passing};
ghost use Rattle.every_secret.specs.Rules.{AnswerAs, Rules, answer_to};
ghost use Rattle.every_secret.specs.Shown.{asked_for, byte_masks_after, shown_at, status_mask_after};
ghost use Rattle.every_secret.specs.Private.Tapes.{Takes};
ghost use Rattle.every_secret.specs.Private.Visited.{FitsShown};

use crate::shown::Shown;
use crossing_bits::{Bits, bit_count};
use flow_base::NoMemory;
use masked_turns::aimed_mask;
use rv32im_machine::Passing;
use shadow_masks::Shadow;
use tracked_run::{Held, answer_of, masks_of_sources, work_mask};
use transfer_rules::RuleBook;

/// The mask of a passing before bits cross there, by the book's rules, in a turn that may be the skip of a region. At a
/// slot of 8 bits it is that of a byte.
#[inline(always)]
pub(crate) fn passing_mask(
    shadow: &Shadow,
    held: Held,
    book: &RuleBook,
    passing: Passing,
    skipped: bool,
) -> u32
    requires slot { IsTrue (is_slot passing.point.slot) }
    requires sources { AreSources (Some shadow.now.base) passing.sources }
    requires joins { IsTrue (joins_bytes passing.work passing.sources) }
    requires byte { FitsSlot passing.point.slot passing.work passing.sources }
    ensures mask { (rules : Rules) → AnswerAs book.now.table rules → result ≡ mask_passing skipped
        (labels_of shadow.now held)
        (answer_to rules passing.work (masks_of (labels_of shadow.now held) passing.sources)) passing }
    ensures byte { width_of passing.point.slot ≡ 255 → result ≤ 255 }
{
    let masks = masks_of_sources(shadow, held, passing.sources);
    let answer = answer_of(book, passing.work, masks);
    let made = work_mask(passing.work, masks, answer);
    aimed_mask(passing.aim, passing.point.slot, skipped, made)
}

/// The value with 0 in place of the bits under the mask.
fn cleared(value: u32, mask: u32) -> u32
    ensures { result ≡ patched value mask [] }
{
    if mask == 0 {
        return value;
    }
    let rest = cleared(value / 2, mask / 2);
    if mask % 2 == 0 {
        return value % 2 + 2 * rest;
    }
    2 * rest
}

/// A string gets zeros after its end until so many of its bits are left.
/// `NoMemory` only where the string is too short: it has to grow then, by bits that there is no memory for or that it
/// can't have, since it has at most 2^32 - 1.
fn lengthen(bits: &mut Bits, count: u32) -> Result<(), NoMemory>
    ensures grown { OnOk result ((more : ℕ) × ((bits.new.bits ≡ bits.old.bits ++ replicate more false)
        × (0 < more → bits.new.taken + count ≡ length bits.new.bits))) }
    ensures enough { OnOk result (bits.new.taken + count ≤ length bits.new.bits) }
    ensures taken { OnOk result (bits.new.taken ≡ bits.old.taken) }
    ensures memory { OnErr result (length bits.old.bits < bits.old.taken + count) }
{
    let left = bits.left();
    for _ in left..count {
        if bits.count() == u32::MAX {
            return Err(NoMemory);
        }
        bits.push_masked(0, 1)?;
    }
    Ok(())
}

/// The value with the next bits of a string in place of those under the mask; where too few are left the string gets
/// zeros after its end.
/// `NoMemory` only where the string is too short: it has to grow then, by bits that there is no memory for or that it
/// can't have, since it has at most 2^32 - 1.
fn choose(bits: &mut Bits, value: u32, mask: u32) -> Result<u32, NoMemory>
    ensures takes { OnOk result (Takes (count_of mask) bits.old bits.new) }
    ensures value { IfOk result (λ word.
        word ≡ patched value mask (take (count_of mask) (drop bits.old.taken bits.new.bits))) }
    ensures memory { OnErr result (length bits.old.bits < bits.old.taken + count_of mask) }
{
    lengthen(bits, bit_count(mask))?;
    match bits.patch(value, mask) {
        Some(word) => Ok(word),
        None => unreachable!(),
    }
}

/// What goes on from a visit at which these bits cross and may differ: where nothing is shown the next bits of the
/// string stand in their place, and else zeros.
/// `NoMemory` only where the string is too short: it has to grow then, by bits that there is no memory for or that it
/// can't have, since it has at most 2^32 - 1.
#[inline(always)]
pub(crate) fn put_in(
    bits: &mut Bits,
    shown: Shown,
    value: u32,
    differing: u32,
) -> Result<u32, NoMemory>
    ensures takes { OnOk result (Takes (asked_for shown differing) bits.old bits.new) }
    ensures value { IfOk result (λ word.
        word ≡ patched value differing (take (asked_for shown differing) (drop bits.old.taken bits.new.bits))) }
    ensures memory { OnErr result (length bits.old.bits < bits.old.taken + asked_for shown differing) }
{
    let _ = bits.left();
    if differing == 0 {
        return Ok(value);
    }
    match shown {
        Shown::Nothing => choose(bits, value, differing),
        Shown::WrittenByte => Ok(cleared(value, differing)),
        Shown::ExitStatus => Ok(cleared(value, differing)),
    }
}

/// The free bits of a byte that is written are noted after those of the bytes before it. The answer is the free bits of
/// the exit status, which were these so far.
/// `NoMemory` where there is not enough.
#[inline(always)]
pub(crate) fn note_free(
    byte_masks: &mut Vec<u8>,
    status_mask: u8,
    shown: Shown,
    free: u32,
) -> Result<u8, NoMemory>
    requires { FitsShown shown free }
    ensures bytes { OnOk result (byte_masks.new.items ≡ byte_masks_after shown free byte_masks.old.items) }
    ensures status { IfOk result (λ mask. mask ≡ status_mask_after shown free status_mask) }
{
    match shown {
        Shown::Nothing => Ok(status_mask),
        Shown::WrittenByte => {
            byte_masks.push(free as u8).map_err(|_| NoMemory)?;
            Ok(status_mask)
        }
        Shown::ExitStatus => Ok(free as u8),
    }
}
