//! Visits of which nothing comes: no bit crosses, nothing is shown, and no bit of the value may differ.

ghost use Rattle.std.specs.Prelude.{◌≡◌, ◌<◌, ◌^◌, IsTrue, Some};
ghost use Rattle.rv32im_machine.specs.Playing.{AreSources, IsAim, IsPlace, IsSource};
ghost use Rattle.shadow_masks.specs.Labels.{clean};
ghost use Rattle.shadow_masks.specs.Shades.{Shades};
ghost use Rattle.run_labels.specs.Masks.{masks_of, source_mask};
ghost use Rattle.run_labels.specs.TurnLabels.{aim_label, label_at, put_label};
ghost use Rattle.tracked_run.specs.Labels.{labels_of};
ghost use Rattle.tracked_run.specs.declared.held.Held.{Held as TheHeld};
ghost use Rattle.every_secret.specs.declared.shown.Shown.TheVariants.{Nothing as NothingShown};
ghost use Rattle.every_secret.specs.Shown.{shown_at};
ghost use Rattle.every_secret.specs.Private.Idle.{AreOfWords, AreZero, IsIdle, IsSettled, IsSettledAim};

use crate::shown::{Shown, shown_of};
use flow_base::Slot;
use replay_machine::LentVisits;
use rv32im_machine::{Aim, Passing, Place, Source, Sources, Work};
use shadow_masks::{Label, Shadow};
use tracked_run::Held;

/// Whether the mask of a place is 0.
#[inline(always)]
fn is_clean_place(shadow: &Shadow, held: Held, place: Place) -> bool
    requires { IsPlace (Some shadow.now.base) place }
    ensures { IsTrue result → (label_at (labels_of shadow.now held) place).mask ≡ 0 }
{
    match place {
        Place::Register(register) => shadow.reg(register).mask == 0,
        Place::Byte(address) => shadow.byte(address).mask == 0,
        Place::First => held.first.mask == 0,
        Place::Second => held.second.mask == 0,
    }
}

/// Whether the mask of a source is 0.
#[inline(always)]
fn is_clean_source(shadow: &Shadow, held: Held, source: Source) -> bool
    requires { IsSource (Some shadow.now.base) source }
    ensures { IsTrue result → source_mask (labels_of shadow.now held) source ≡ 0 }
{
    match source {
        Source::At(place) => is_clean_place(shadow, held, place),
        Source::Constant(_) => true,
        Source::Secret(_) => false,
    }
}

/// Whether the masks of all sources are 0.
#[inline(always)]
fn are_clean(shadow: &Shadow, held: Held, sources: Sources) -> bool
    requires { AreSources (Some shadow.now.base) sources }
    ensures { IsTrue result → AreZero (masks_of (labels_of shadow.now held) sources) }
{
    match sources {
        Sources::One(source) => is_clean_source(shadow, held, source),
        Sources::Two(first, second) => {
            is_clean_source(shadow, held, first) && is_clean_source(shadow, held, second)
        }
        Sources::Byte(address) => shadow.is_clean(address, 1),
        Sources::Half(address) => shadow.is_clean(address, 2),
        Sources::Word(address) => shadow.is_clean(address, 4),
    }
}

/// Whether a place has the clean label, or is an operand of the turn.
#[inline(always)]
fn is_settled(shadow: &Shadow, place: Place) -> bool
    requires { IsPlace (Some shadow.now.base) place }
    ensures { (held : TheHeld) → IsTrue result → IsSettled (labels_of shadow.now held) place }
{
    match place {
        Place::Register(register) => shadow.reg(register).mask == 0,
        Place::Byte(address) => shadow.byte(address).mask == 0,
        Place::First => true,
        Place::Second => true,
    }
}

/// The same of what a value goes to. Nothing that a skipped region gives out is.
#[inline(always)]
fn is_settled_aim(shadow: &Shadow, aim: Aim, skipped: bool) -> bool
    requires { IsAim (Some shadow.now.base) aim }
    ensures { (held : TheHeld) → IsTrue result → IsSettledAim skipped (labels_of shadow.now held) aim }
{
    match aim {
        Aim::Put(place) => is_settled(shadow, place),
        Aim::Decide => true,
        Aim::Give(place) => {
            if skipped {
                return false;
            }
            is_settled(shadow, place)
        }
    }
}

/// Whether nothing is shown of what passes at a slot.
#[inline(always)]
pub(crate) fn is_unseen(slot: Slot) -> bool
    ensures { IsTrue result → shown_at slot ≡ NothingShown }
{
    match shown_of(slot) {
        Shown::Nothing => true,
        Shown::WrittenByte => false,
        Shown::ExitStatus => false,
    }
}

/// Whether nothing comes of a visit, in a turn that may be the skip of a region: what its value goes to has the clean
/// label then, or is an operand of the turn, which gets that label.
#[inline(always)]
pub(crate) fn is_idle(
    masks: &LentVisits<'_>,
    shadow: &Shadow,
    held: Held,
    passing: &Passing,
    skipped: bool,
) -> bool
    requires aim { IsAim (Some shadow.now.base) passing.now.aim }
    requires sources { AreSources (Some shadow.now.base) passing.now.sources }
    ensures { IsTrue result → IsIdle masks.now skipped (labels_of shadow.now held) passing.now }
{
    if !is_unseen(passing.point.slot) {
        return false;
    }
    if !is_settled_aim(shadow, passing.aim, skipped) {
        return false;
    }
    if masks.is_marked(passing.point.address) {
        return false;
    }
    are_clean(shadow, held, passing.sources)
}

/// A number of 32 bits is a word.
#[inline(always)]
fn is_word(number: u32)
    ensures { number < 2 ^ 32 }
{
    let _ = number;
}

/// The numbers of a passing, and how many bits have crossed, are words.
#[inline(always)]
pub(crate) fn are_words(passing: &Passing, crossed: u32)
    ensures operands { AreOfWords passing.now.work }
    ensures value { passing.now.value < 2 ^ 32 }
    ensures crossed { crossed < 2 ^ 32 }
{
    let _value = passing.value;
    match passing.work {
        Work::Shaped(_) => {}
        Work::Computed(_, first, second) => {
            is_word(first);
            is_word(second);
        }
    }
}

/// An operand of the turn gets the clean label; another place has it.
#[inline(always)]
fn settle_place(held: &mut Held, place: Place)
    ensures { (shades : Shades) → IsSettled (labels_of shades held.old) place →
        labels_of shades held.new ≡ put_label place clean (labels_of shades held.old) }
{
    match place {
        Place::Register(_) => {}
        Place::Byte(_) => {}
        Place::First => held.first = Label::clean(),
        Place::Second => held.second = Label::clean(),
    }
}

/// What the value of a visit of which nothing comes goes to gets the clean label.
#[inline(always)]
pub(crate) fn settle_aim(held: &mut Held, aim: Aim, _skipped: bool)
    ensures { (shades : Shades) → IsSettledAim _skipped (labels_of shades held.old) aim →
        labels_of shades held.new ≡ aim_label aim clean (labels_of shades held.old) }
{
    match aim {
        Aim::Put(place) => settle_place(held, place),
        Aim::Decide => {}
        Aim::Give(place) => settle_place(held, place),
    }
}
