ghost use Rattle.std.specs.Prelude.{◌≡◌, slice_index, true, OnOk};
ghost use Rattle.rv32im_machine.specs.Standing.{with_memory};
ghost use Rattle.shadow_masks.specs.Labels.{IsLabel};
ghost use Rattle.shadow_masks.specs.Shades.{IsNew, kept_label, register_label};
ghost use Rattle.kept_states.specs.Keeping.{AreLaid, AreLaidMasks, AreMasksOf, KeepsLabels, KeepsPages};
ghost use Rattle.kept_states.specs.Laids.{LieWithin};

use crate::laids::Laid;
use crate::pieces::Pieces;
use crate::settling::{settle_masks, settle_memory};
use flow_base::{NoMemory, Point, Slot};
use rv32im_machine::Machine;
use shadow_masks::{Label, Shadow};

/// Lays pieces as guest memory in place of all that it has; all else stays. Of two that stand for the same bytes the
/// first is laid.
fn lay_anew(machine: &mut Machine, pieces: &Pieces, laids: &[Laid])
    requires { LieWithin pieces.now laids.now }
    ensures memory { AreLaid pieces.now laids.now machine.new.store.memory }
    ensures same { machine.new ≡ with_memory machine.new.store.memory machine.old }
{
    machine.zero_memory();
    let mut index = laids.len();
    while index > 0 {
        index -= 1;
        let laid = laids[index];
        machine.lay_piece(laid.number as usize, pieces.piece(laid.piece));
    }
}

/// The same, where few pieces are others than those that memory has.
pub(crate) fn put_memory(machine: &mut Machine, pieces: &Pieces, laids: &[Laid])
    requires { LieWithin pieces.now laids.now }
    ensures memory { AreLaid pieces.now laids.now machine.new.store.memory }
    ensures same { machine.new ≡ with_memory machine.new.store.memory machine.old }
{
    if !settle_memory(machine, pieces, laids) {
        lay_anew(machine, pieces, laids);
    }
}

/// Lays pieces as the masks of the bytes of a new shadow. The labels of registers stay.
fn put_masks(shadow: &mut Shadow, pieces: &Pieces, laids: &[Laid]) -> Result<(), NoMemory>
    requires within { LieWithin pieces.now laids.now }
    requires empty { IsNew shadow.old.base shadow.old }
    ensures masks { OnOk result (AreLaidMasks pieces.now laids.now shadow.new) }
    ensures same { KeepsLabels shadow.old shadow.new }
{
    let mut index = laids.len();
    while index > 0 {
        index -= 1;
        let laid = laids[index];
        shadow.set_piece(laid.number as usize, pieces.piece(laid.piece))?;
    }
    Ok(())
}

/// The label of a mask, with no point of the program.
fn label_of(mask: u32) -> Label
    ensures mask { result.mask ≡ mask }
    ensures is_label { IsLabel result }
{
    if mask == 0 {
        return Label::clean();
    }
    Label {
        mask,
        point: Point {
            region: 0,
            address: 0,
            slot: Slot::First,
        },
    }
}

/// Gives the registers labels of these masks. All else stays.
fn put_registers(shadow: &mut Shadow, masks: &[u32; 32])
    requires { slice_index masks.now 0 ≡ 0 }
    ensures masks { AreMasksOf (register_label shadow.new) masks.now }
    ensures same { KeepsPages shadow.old shadow.new }
{
    for register in 0..32 {
        let mask = masks[register as usize];
        if shadow.reg(register).mask != mask {
            shadow.set_reg(register, label_of(mask));
        }
    }
}

/// Whether these are the masks of the registers that were kept.
fn are_kept(shadow: &Shadow, masks: &[u32; 32]) -> bool
    ensures { result ≡ true → AreMasksOf (kept_label shadow.now) masks.now }
{
    for number in 0..32 {
        if shadow.kept_reg(number).mask != masks[number as usize] {
            return false;
        }
    }
    true
}

/// Gives the registers that were kept labels of these masks. The labels of bytes stay.
fn put_kept(shadow: &mut Shadow, masks: &[u32; 32])
    requires { slice_index masks.now 0 ≡ 0 }
    ensures masks { AreMasksOf (kept_label shadow.new) masks.now }
    ensures pages { shadow.new.pages ≡ shadow.old.pages }
    ensures begins { shadow.new.base ≡ shadow.old.base }
{
    if are_kept(shadow, masks) {
        return;
    }
    put_registers(shadow, masks);
    shadow.save();
}

/// Puts masks into a shadow in place of those of its bytes.
fn put_bytes(shadow: &mut Shadow, pieces: &Pieces, laids: &[Laid]) -> Result<(), NoMemory>
    requires within { LieWithin pieces.now laids.now }
    ensures masks { OnOk result (AreLaidMasks pieces.now laids.now shadow.new) }
    ensures begins { shadow.new.base ≡ shadow.old.base }
{
    if settle_masks(shadow, pieces, laids)? {
        return Ok(());
    }
    shadow.clear();
    put_masks(shadow, pieces, laids)
}

/// Puts masks into a shadow in place of all that it has.
pub(crate) fn put_shadow(
    shadow: &mut Shadow,
    pieces: &Pieces,
    laids: &[Laid],
    registers: &[u32; 32],
    kept: &[u32; 32],
) -> Result<(), NoMemory>
    requires within { LieWithin pieces.now laids.now }
    requires zero { slice_index registers.now 0 ≡ 0 }
    requires kept_zero { slice_index kept.now 0 ≡ 0 }
    ensures masks { OnOk result (AreLaidMasks pieces.now laids.now shadow.new) }
    ensures registers { OnOk result (AreMasksOf (register_label shadow.new) registers.now) }
    ensures kept { OnOk result (AreMasksOf (kept_label shadow.new) kept.now) }
    ensures begins { shadow.new.base ≡ shadow.old.base }
{
    put_bytes(shadow, pieces, laids)?;
    put_kept(shadow, kept);
    put_registers(shadow, registers);
    Ok(())
}
