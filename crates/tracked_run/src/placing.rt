ghost use Rattle.std.specs.Prelude.{◌≡◌, ◌<◌, ◌≤◌, ◌≢◌, ◌^◌, Some, OnOk, OnErr, IsTrue};
ghost use Rattle.flow_base.specs.Guests.{is_inside};
ghost use Rattle.rv32im_machine.specs.Playing.{IsAim, IsPlace};
ghost use Rattle.shadow_masks.specs.Labels.{IsLabel};
ghost use Rattle.shadow_masks.specs.Pages.{label_of};
ghost use Rattle.run_labels.specs.TurnLabels.{label_at as label_of_place, put_label as label_put, aim_label};
ghost use Rattle.tracked_run.specs.Labels.{IsMaskAt, IsMaskFor, goes_to_byte, is_byte, labels_of};

use crate::held::Held;
use flow_base::{NoMemory, Point};
use rv32im_machine::{Aim, Place};
use shadow_masks::{Label, Shadow};

/// The label of a place.
#[inline(always)]
pub(crate) fn label_at(shadow: &Shadow, held: Held, place: Place) -> Label
    requires { IsPlace (Some shadow.now.base) place }
    ensures label { result ≡ label_of_place (labels_of shadow.now held) place }
    ensures fits { IsMaskAt place result.mask }
{
    match place {
        Place::Register(register) => shadow.reg(register),
        Place::Byte(address) => shadow.byte(address),
        Place::First => held.first,
        Place::Second => held.second,
    }
}

/// The label of a mask and a point: the clean one where the mask is 0.
#[inline(always)]
pub fn labelled(mask: u32, point: Point) -> Label
    ensures label { result ≡ label_of mask point }
    ensures is_label { IsLabel result }
    ensures mask { result.mask ≡ mask }
{
    if mask == 0 {
        Label::clean()
    } else {
        Label { mask, point }
    }
}

/// A register gets a label; that of x0 stays clean.
#[inline(always)]
fn put_register(shadow: &mut Shadow, held: Held, register: u8, label: Label)
    requires register { register < 32 }
    requires label { IsLabel label }
    ensures base { shadow.new.base ≡ shadow.old.base }
    ensures put { labels_of shadow.new held ≡ label_put (Place.Register register) label (labels_of shadow.old held) }
{
    shadow.set_reg(register, label);
}

/// A byte gets a label, whose mask has at most 8 bits.
/// `NoMemory` where there is not enough; a label that the byte has takes none.
#[inline(always)]
fn put_byte(shadow: &mut Shadow, held: Held, address: u32, label: Label) -> Result<(), NoMemory>
    requires inside { IsTrue (is_inside shadow.old.base address 1) }
    requires label { IsLabel label }
    requires mask { label.mask ≤ 255 }
    ensures base { shadow.new.base ≡ shadow.old.base }
    ensures put { OnOk result
        (labels_of shadow.new held ≡ label_put (Place.Byte address) label (labels_of shadow.old held)) }
    ensures other { OnErr result (label_of_place (labels_of shadow.old held) (Place.Byte address) ≢ label) }
{
    shadow.set_byte(address, label)
}

/// A place gets a label.
/// `NoMemory` where there is not enough; a label that the place has takes none.
#[inline(always)]
pub(crate) fn put_label(
    shadow: &mut Shadow,
    held: &mut Held,
    place: Place,
    label: Label,
) -> Result<(), NoMemory>
    requires place { IsPlace (Some shadow.old.base) place }
    requires label { IsLabel label }
    requires fits { IsMaskAt place label.mask }
    ensures base { shadow.new.base ≡ shadow.old.base }
    ensures put { OnOk result
        (labels_of shadow.new held.new ≡ label_put place label (labels_of shadow.old held.old)) }
    ensures other { OnErr result (label_of_place (labels_of shadow.old held.old) place ≢ label) }
    ensures byte { OnErr result (IsTrue (is_byte place)) }
{
    match place {
        Place::Register(register) => {
            put_register(shadow, *held, register, label);
            Ok(())
        }
        Place::Byte(address) => put_byte(shadow, *held, address, label),
        Place::First => {
            held.first = label;
            Ok(())
        }
        Place::Second => {
            held.second = label;
            Ok(())
        }
    }
}

/// What a value goes to gets its label; a decision goes to no place.
/// `NoMemory` if there is not enough for the label of a byte; nothing else takes any.
#[inline(always)]
pub fn put_aimed(
    shadow: &mut Shadow,
    held: &mut Held,
    aim: Aim,
    label: Label,
) -> Result<(), NoMemory>
    requires aim { IsAim (Some shadow.old.base) aim }
    requires label { IsLabel label }
    requires fits { IsMaskFor aim label.mask }
    ensures base { shadow.new.base ≡ shadow.old.base }
    ensures put { OnOk result
        (labels_of shadow.new held.new ≡ aim_label aim label (labels_of shadow.old held.old)) }
    ensures byte { OnErr result (IsTrue (goes_to_byte aim)) }
{
    match aim {
        Aim::Put(place) => put_label(shadow, held, place, label),
        Aim::Decide => Ok(()),
        Aim::Give(place) => put_label(shadow, held, place, label),
    }
}
