ghost use Rattle.std.specs.Prelude.{◌≡◌, ◌≢◌, None, IsTrue};
ghost use Rattle.transfer_rules.specs.Classes.{takes_address};
ghost use Rattle.transfer_rules.specs.Tables.{IsByTable};
ghost use Rattle.label_rows.specs.Rows.{agreement, is_wanted as is_wanted_of, table_mask as table_mask_of};

use rv32im_decode::Instr;
use transfer_rules::{Operands, RuleBook, address_mask, class_of, mask_of};

/// Whether an instruction computes an address.
fn has_address(instr: &Instr) -> bool
    ensures { result ≡ takes_address instr.now }
{
    match instr {
        Instr::Load { .. } | Instr::Store { .. } | Instr::Jalr { .. } => true,
        _ => false,
    }
}

/// The mask by a book of what an instruction computes from its operands; None where it computes nothing from them.
fn table_mask(book: &RuleBook, instr: &Instr, operands: Operands) -> Option<u32>
    ensures { IsByTable book.now.table (table_mask_of instr.now operands) result }
{
    match class_of(instr) {
        Some(_) => Some(mask_of(book, instr, operands)),
        None if has_address(instr) => Some(address_mask(book, instr, operands.v1, operands.m1)),
        None => None,
    }
}

/// Whether a mask is the wanted one, and has each bit that was seen to change.
fn is_wanted(changed: u32, wanted: u32, mask: u32) -> bool
    ensures { result ≡ is_wanted_of changed wanted mask }
{
    mask == wanted && changed & mask == changed
}

/// Whether the mask by a book of what an instruction computes is the wanted one, and has each bit that was seen to
/// change; None where the instruction computes nothing from its operands.
pub fn agrees(
    book: &RuleBook,
    instr: &Instr,
    operands: Operands,
    changed: u32,
    wanted: u32,
) -> Option<bool>
    ensures { IsByTable book.now.table (agreement instr.now operands changed wanted) result }
{
    match table_mask(book, instr, operands) {
        Some(mask) => Some(is_wanted(changed, wanted, mask)),
        None => None,
    }
}
