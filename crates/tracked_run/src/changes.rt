ghost use Rattle.std.specs.Prelude.{◌≡◌, ◌<◌, ◌≤◌, ◌∷◌, [], ℕ, Some, All, OnErr, OnOk, IsTrue};
ghost use Rattle.rv32im_machine.specs.Language.{shaped};
ghost use Rattle.shadow_masks.specs.Pages.{label_of};
ghost use Rattle.rv32im_machine.specs.Playing.{IsPlace, IsSeen, IsSource, fits_place, moves_bits, shapes_byte};
ghost use Rattle.shadow_masks.specs.Labels.{IsLabel};
ghost use Rattle.run_labels.specs.Looking.{look_fault as fault_of_look};
ghost use Rattle.run_labels.specs.Masks.{moved_label as label_moved};
ghost use Rattle.run_labels.specs.TurnLabels.{put_label as label_put, save_labels, restore_labels};
ghost use Rattle.tracked_run.specs.Labels.{is_byte, labels_of};
ghost use Rattle.tracked_run.specs.declared.held.Held.{Held as TheHeld};
ghost use Rattle.std.specs.Option.{option_or};

use crate::held::Held;
use crate::placing::{label_at, labelled, put_label};
use crate::source_masks::{SourceMasks, shaped_mask};
use flow_base::NoMemory;
use run_labels::MeasureFault;
use rv32im_machine::{Place, Seen, Shape, Source};
use shadow_masks::{Label, Shadow};

/// A look at the word at an address.
#[inline(always)]
fn code_fault(shadow: &Shadow, address: u32) -> Option<MeasureFault>
    requires { IsSeen (Some shadow.now.base) (Seen.Word address) }
    ensures { (region : ℕ) (held : TheHeld) →
        result ≡ fault_of_look region (labels_of shadow.now held) (Seen.Word address) }
{
    if shadow.is_clean(address, 4) {
        None
    } else {
        Some(MeasureFault::SecretCode { pc: address })
    }
}

/// A look at a base register, at the entry of the region with this number.
fn base_fault(shadow: &Shadow, region: u16, register: u8) -> Option<MeasureFault>
    requires { register < 32 }
    ensures { (held : TheHeld) →
        result ≡ fault_of_look region (labels_of shadow.now held) (Seen.Base register) }
{
    if shadow.reg(register).mask == 0 {
        None
    } else {
        Some(MeasureFault::BaseSecret { region, register })
    }
}

/// Whether a run may look there: at the word at an address, or at a base register in the entry of the region with this
/// number.
#[inline(always)]
pub(crate) fn look_fault(shadow: &Shadow, region: u16, seen: Seen) -> Option<MeasureFault>
    requires { IsSeen (Some shadow.now.base) seen }
    ensures { (held : TheHeld) → result ≡ fault_of_look region (labels_of shadow.now held) seen }
{
    match seen {
        Seen::Word(address) => code_fault(shadow, address),
        Seen::Base(register) => base_fault(shadow, region, register),
    }
}

/// The first of two refusals.
pub(crate) fn earlier(
    first: Option<MeasureFault>,
    second: Option<MeasureFault>,
) -> Option<MeasureFault>
    ensures { result ≡ option_or first second }
{
    first.or(second)
}

/// The first refusal stays. Where there is no other, nothing is written.
#[inline(always)]
pub(crate) fn note_fault(refused: &mut Option<MeasureFault>, fault: Option<MeasureFault>)
    ensures { refused.new ≡ option_or refused.old fault }
{
    match (*refused, fault) {
        (None, Some(_)) => *refused = fault,
        (None, None) => {}
        (Some(_), _) => {}
    }
}

/// The label of what moves from a place with this label.
fn shaped_label(shape: Shape, label: Label) -> Label
    requires { IsTrue (moves_bits shape) }
    ensures label { result ≡ label_of (shaped shape (label.mask ∷ [])) label.point }
    ensures is_label { IsLabel result }
    ensures mask { result.mask ≡ shaped shape (label.mask ∷ []) }
{
    let masks = SourceMasks {
        first: label.mask,
        second: 0,
        third: 0,
        fourth: 0,
    };
    labelled(shaped_mask(shape, masks), label.point)
}

/// The label of what moves without a passing.
fn moved_label(shadow: &Shadow, held: Held, shape: Shape, source: Source) -> Label
    requires source { IsSource (Some shadow.now.base) source }
    requires moves { IsTrue (moves_bits shape) }
    ensures label { result ≡ label_moved (labels_of shadow.now held) shape source }
    ensures is_label { IsLabel result }
    ensures byte { IsTrue (shapes_byte shape source) → result.mask ≤ 255 }
{
    match source {
        Source::At(place) => shaped_label(shape, label_at(shadow, held, place)),
        Source::Constant(_) => Label::clean(),
        Source::Secret(_) => Label::clean(),
    }
}

/// A value moves to a place, which gets the label of what moves there.
/// `NoMemory` if there is not enough for the label of a byte; nothing else takes any.
pub fn note_move(
    shadow: &mut Shadow,
    held: &mut Held,
    place: Place,
    shape: Shape,
    source: Source,
) -> Result<(), NoMemory>
    requires place { IsPlace (Some shadow.old.base) place }
    requires source { IsSource (Some shadow.old.base) source }
    requires moves { IsTrue (moves_bits shape) }
    requires fits { IsTrue (fits_place place shape source) }
    ensures base { shadow.new.base ≡ shadow.old.base }
    ensures labels { OnOk result (labels_of shadow.new held.new ≡
        label_put place (label_moved (labels_of shadow.old held.old) shape source) (labels_of shadow.old held.old)) }
    ensures byte { OnErr result (IsTrue (is_byte place)) }
{
    let label = moved_label(shadow, *held, shape, source);
    put_label(shadow, held, place, label)
}

/// At the entry of a region the labels of all registers are kept.
pub fn note_save(shadow: &mut Shadow)
    ensures base { shadow.new.base ≡ shadow.old.base }
    ensures labels { (held : TheHeld) → labels_of shadow.new held ≡ save_labels (labels_of shadow.old held) }
{
    shadow.save();
}

/// At its leave these registers get back the labels that were kept.
pub fn note_restore(shadow: &mut Shadow, registers: &[u8])
    requires { All (λ register. register < 32) registers.now }
    ensures base { shadow.new.base ≡ shadow.old.base }
    ensures labels { (held : TheHeld) →
        labels_of shadow.new held ≡ restore_labels registers.now (labels_of shadow.old held) }
{
    shadow.restore_each(registers);
}
