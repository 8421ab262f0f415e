ghost use Rattle.std.specs.Prelude.{◌≡◌, ◌≤◌, ℕ, Some, OnOk, IsTrue};
ghost use Rattle.flow_base.specs.Points.{is_slot, width_of};
ghost use Rattle.rv32im_machine.specs.Playing.{IsAim, AreSources, FitsAim, FitsSlot, joins_bytes};
ghost use Rattle.run_labels.specs.Masks.{labels_after, mask_of};
ghost use Rattle.tracked_run.specs.Labels.{IsMaskFor, labels_of};
ghost use Rattle.tracked_run.specs.Linking.{Appends, masked_events};
ghost use Rattle.tracked_run.specs.Private.Noting.{IsMask, Notes};

use crate::again::{gives_again, note_again};
use crate::held::Held;
use crate::linking::add_passing;
use crate::passing_masks::{aimed_mask, work_mask};
use crate::placing::{labelled, put_aimed};
use crate::rule_answers::answer_of;
use crate::source_masks::masks_of_sources;
use flow_base::NoMemory;
use flow_graph::{Event, Events};
use rv32im_machine::Passing;
use shadow_masks::{Label, Shadow};
use transfer_rules::RuleBook;

/// The mask of a passing, by the book's rules. At a slot of 8 bits it is that of a byte.
#[inline(always)]
fn passing_mask(shadow: &Shadow, held: Held, book: &RuleBook, passing: &Passing) -> u32
    requires slot { IsTrue (is_slot passing.now.point.slot) }
    requires sources { AreSources (Some shadow.now.base) passing.now.sources }
    requires joins { IsTrue (joins_bytes passing.now.work passing.now.sources) }
    requires byte { FitsSlot passing.now.point.slot passing.now.work passing.now.sources }
    ensures mask { IsMask book.now.table (labels_of shadow.now held) passing.now result }
    ensures byte { width_of passing.now.point.slot ≡ 255 → result ≤ 255 }
{
    let masks = masks_of_sources(shadow, held, passing.sources);
    let answer = answer_of(book, passing.work, masks);
    let mask = work_mask(passing.work, masks, answer);
    aimed_mask(passing.aim, passing.point.slot, mask)
}

/// The event of a passing of mask 0 is added, and what its value goes to gets the clean label.
/// `NoMemory` where there is not enough.
#[inline(always)]
fn note_clean<E: Events>(
    events: &mut E,
    shadow: &mut Shadow,
    held: &mut Held,
    passing: &Passing,
) -> Result<(), NoMemory>
    requires aim { IsAim (Some shadow.old.base) passing.now.aim }
    ensures base { shadow.new.base ≡ shadow.old.base }
    ensures labels { OnOk result ((answer : ℕ) → 0 ≡ mask_of (labels_of shadow.old held.old) answer passing.now →
        labels_of shadow.new held.new ≡ labels_after (labels_of shadow.old held.old) answer passing.now) }
    ensures events { OnOk result (Appends (E.stands_for events.old) (E.stands_for events.new)
        (masked_events (labels_of shadow.old held.old) 0 passing.now)) }
{
    events.add(Event::Pass {
        point: passing.point,
        mask: 0,
    })?;
    put_aimed(shadow, held, passing.aim, Label::clean())
}

/// The events of a passing of this mask are added, and what its value goes to gets the label. It is a call of its own, so
/// that what is put in at each place of a turn stays small.
/// `NoMemory` where there is not enough.
#[inline(never)]
fn note_mask<E: Events>(
    events: &mut E,
    shadow: &mut Shadow,
    held: &mut Held,
    passing: Passing,
    mask: u32,
) -> Result<(), NoMemory>
    requires aim { IsAim (Some shadow.old.base) passing.aim }
    requires sources { AreSources (Some shadow.old.base) passing.sources }
    requires fits { IsMaskFor passing.aim mask }
    ensures base { shadow.new.base ≡ shadow.old.base }
    ensures labels { OnOk result ((answer : ℕ) → mask ≡ mask_of (labels_of shadow.old held.old) answer passing →
        labels_of shadow.new held.new ≡ labels_after (labels_of shadow.old held.old) answer passing) }
    ensures events { OnOk result (Appends (E.stands_for events.old) (E.stands_for events.new)
        (masked_events (labels_of shadow.old held.old) mask passing)) }
{
    add_passing(events, shadow, *held, passing, mask)?;
    put_aimed(shadow, held, passing.aim, labelled(mask, passing.point))
}

/// A value passes: its mask is found by the book's rules, its events are added, and what it goes to gets its label.
/// `NoMemory` where there is not enough.
#[inline(always)]
pub(crate) fn note_passing<E: Events>(
    events: &mut E,
    shadow: &mut Shadow,
    held: &mut Held,
    book: &RuleBook,
    passing: Passing,
) -> Result<(), NoMemory>
    requires slot { IsTrue (is_slot passing.point.slot) }
    requires aim { IsAim (Some shadow.old.base) passing.aim }
    requires sources { AreSources (Some shadow.old.base) passing.sources }
    requires joins { IsTrue (joins_bytes passing.work passing.sources) }
    requires byte { FitsSlot passing.point.slot passing.work passing.sources }
    requires fits { FitsAim passing.aim passing.point.slot }
    ensures base { shadow.new.base ≡ shadow.old.base }
    ensures notes { OnOk result (Notes book.now.table (labels_of shadow.old held.old) (E.stands_for events.old) passing
        (labels_of shadow.new held.new) (E.stands_for events.new)) }
{
    let mask = passing_mask(shadow, *held, book, &passing);
    if mask == 0 {
        note_clean(events, shadow, held, &passing)
    } else if gives_again(shadow, *held, &passing, mask) {
        note_again(events, passing.point, mask)
    } else {
        note_mask(events, shadow, held, passing, mask)
    }
}
