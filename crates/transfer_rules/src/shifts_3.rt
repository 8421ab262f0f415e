//! The shifts of table 3: masks from the least and the greatest word that the first operand may be, over all amounts
//! that the second may be. Each mask is that of the table, and each is sound: whatever the secret bits of the operands
//! are, the shift gives the same bits outside the mask.

ghost use Rattle.std.specs.Prelude.{◌≡◌, IsTrue};
ghost use Rattle.transfer_rules.specs.Shifts3.{is_shift, may_shift_by, shift_range};
ghost use Rattle.transfer_rules.specs.Soundness.{IsSound};
ghost use Rattle.transfer_rules.specs.Table3.{mask_by_table_3};
ghost use Rattle.transfer_rules.specs.declared.classes.Class.TheVariants.{Sll, Srl, Sra};

use crate::operands::Operands;
use rv32im_decode::OpKind;

/// The mask of a shift to the left: of all amounts that the second operand may be, the bits that are 1 in some greatest
/// word shifted and 0 in some least word shifted.
pub fn sll_3(operands: Operands) -> u32
    ensures table { result ≡ mask_by_table_3 Sll operands }
    ensures sound { IsSound Sll operands result }
{
    range_of_shift(operands, OpKind::Sll)
}

/// The mask of a shift to the right: of all amounts that the second operand may be, the bits that are 1 in some greatest
/// word shifted and 0 in some least word shifted.
pub fn srl_3(operands: Operands) -> u32
    ensures table { result ≡ mask_by_table_3 Srl operands }
    ensures sound { IsSound Srl operands result }
{
    range_of_shift(operands, OpKind::Srl)
}

/// The mask of a shift to the right with the sign: of all amounts that the second operand may be, the bits that are 1 in
/// some greatest word shifted and 0 in some least word shifted, each with its own top bit repeated.
pub fn sra_3(operands: Operands) -> u32
    ensures table { result ≡ mask_by_table_3 Sra operands }
    ensures sound { IsSound Sra operands result }
{
    range_of_shift(operands, OpKind::Sra)
}

/// The mask of a shift. Where the amount is known it is the first mask shifted likewise.
fn range_of_shift(operands: Operands, shift: OpKind) -> u32
    requires { IsTrue (is_shift shift) }
    ensures { result ≡ shift_range operands shift }
{
    let Operands { v1, m1, v2, m2 } = operands;
    if m2 % 32 == 0 {
        return shift.result(m1, v2);
    }
    let mut ones = 0;
    let mut zeros = 0;
    for amount in 0..32 {
        if may_shift_by(operands, amount) {
            ones |= shift.result(v1 | m1, amount);
            zeros |= !shift.result(v1 & !m1, amount);
        }
    }
    ones & zeros
}

/// Whether the second operand may be a shift by an amount, of which the low five bits count.
fn may_shift_by(operands: Operands, amount: u32) -> bool
    ensures { result ≡ may_shift_by operands amount }
{
    ((amount ^ operands.v2) & !operands.m2) % 32 == 0
}
