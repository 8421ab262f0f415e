ghost use Rattle.std.specs.Prelude.{◌≡◌, ◌+◌, ◌*◌, ◌<◌, slice_index, IfOk, OnOk};
ghost use Rattle.shadow_masks.specs.Shades.{kept_label, register_label};
ghost use Rattle.kept_states.specs.Keeping.{AreMasksOf, mask_byte, memory_byte};
ghost use Rattle.kept_states.specs.Laids.{LaidBelow};
ghost use Rattle.kept_states.specs.Pieces.{Grows};

use crate::laids::{Laid, lay};
use crate::pieces::Pieces;
use crate::quiet_pages::{PAGES, next_set, next_touched};
use flow_base::NoMemory;
use rv32im_machine::Machine;
use shadow_masks::Shadow;
use std::alloc::Global;

/// How many pieces a page has.
pub(crate) const IN_PAGE: usize = 16;

/// How many pieces memory has.
const PIECES: usize = 65_536;

/// Keeps the pieces of a page of guest memory.
fn lay_page(
    pieces: &mut Pieces,
    laids: &mut Vec<Laid>,
    machine: &Machine,
    page: usize,
) -> Result<(), NoMemory>
    requires page { page < 4096 }
    requires below { LaidBelow pieces.old laids.old.items (page * 16) (memory_byte machine.now) }
    ensures laid { OnOk result (LaidBelow pieces.new laids.new.items ((page + 1) * 16) (memory_byte machine.now)) }
    ensures grows { Grows pieces.old pieces.new }
{
    for place in 0..IN_PAGE {
        let number = page * IN_PAGE + place;
        lay(pieces, laids, number, number as u16, machine.piece(number))?;
    }
    Ok(())
}

/// Keeps the pieces of guest memory. Nothing in a page that was not touched is looked at.
pub(crate) fn lay_memory(
    alloc: Global,
    pieces: &mut Pieces,
    machine: &Machine,
) -> Result<Vec<Laid>, NoMemory>
    ensures laid { IfOk result (λ laids. LaidBelow pieces.new laids.items 65536 (memory_byte machine.now)) }
    ensures grows { Grows pieces.old pieces.new }
{
    let mut laids = Vec::new(alloc);
    let mut page = next_touched(machine, 0);
    while page < PAGES {
        lay_page(pieces, &mut laids, machine, page)?;
        page = next_touched(machine, page + 1);
    }
    Ok(laids)
}

/// Keeps a piece of masks, if it was made.
fn lay_masks_at(
    pieces: &mut Pieces,
    laids: &mut Vec<Laid>,
    shadow: &Shadow,
    number: usize,
) -> Result<(), NoMemory>
    requires number { number < 65536 }
    requires below { LaidBelow pieces.old laids.old.items number (mask_byte shadow.now) }
    ensures laid { OnOk result (LaidBelow pieces.new laids.new.items (number + 1) (mask_byte shadow.now)) }
    ensures grows { Grows pieces.old pieces.new }
{
    match shadow.piece_masks(number) {
        Some(masks) => lay(pieces, laids, PIECES + number, number as u16, masks),
        None => Ok(()),
    }
}

/// Keeps the masks of a page of guest memory. Nothing in one that was not made is looked at.
fn lay_mask_page(
    pieces: &mut Pieces,
    laids: &mut Vec<Laid>,
    shadow: &Shadow,
    page: usize,
) -> Result<(), NoMemory>
    requires page { page < 4096 }
    requires below { LaidBelow pieces.old laids.old.items (page * 16) (mask_byte shadow.now) }
    ensures laid { OnOk result (LaidBelow pieces.new laids.new.items ((page + 1) * 16) (mask_byte shadow.now)) }
    ensures grows { Grows pieces.old pieces.new }
{
    if !shadow.is_made(page) {
        return Ok(());
    }
    for place in 0..IN_PAGE {
        lay_masks_at(pieces, laids, shadow, page * IN_PAGE + place)?;
    }
    Ok(())
}

/// Keeps the masks of guest memory in pieces.
pub(crate) fn lay_masks(
    alloc: Global,
    pieces: &mut Pieces,
    shadow: &Shadow,
) -> Result<Vec<Laid>, NoMemory>
    ensures laid { IfOk result (λ laids. LaidBelow pieces.new laids.items 65536 (mask_byte shadow.now)) }
    ensures grows { Grows pieces.old pieces.new }
{
    let mut laids = Vec::new(alloc);
    let mut page = next_set(shadow, 0);
    while page < PAGES {
        lay_mask_page(pieces, &mut laids, shadow, page)?;
        page = next_set(shadow, page + 1);
    }
    Ok(laids)
}

/// The masks of the registers.
pub(crate) fn register_masks(shadow: &Shadow) -> [u32; 32]
    ensures masks { AreMasksOf (register_label shadow.now) result }
    ensures zero { slice_index result 0 ≡ 0 }
{
    let mut masks = [0; 32];
    for register in 0..32 {
        masks[register as usize] = shadow.reg(register).mask;
    }
    masks
}

/// The masks of the registers that were kept.
pub(crate) fn kept_masks(shadow: &Shadow) -> [u32; 32]
    ensures masks { AreMasksOf (kept_label shadow.now) result }
    ensures zero { slice_index result 0 ≡ 0 }
{
    let mut masks = [0; 32];
    for register in 0..32 {
        masks[register as usize] = shadow.kept_reg(register).mask;
    }
    masks
}
