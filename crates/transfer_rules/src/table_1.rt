//! Table 1: for each class of operations the mask of the result, from the operands and their masks. A bit of an operand
//! is secret where its mask has a 1. Each mask is that of the table, and each is sound: whatever the secret bits of the
//! operands are, every operation of the class gives the same bits outside the mask.

ghost use Rattle.std.specs.Prelude.{◌≡◌};
ghost use Rattle.transfer_rules.specs.Soundness.{IsSound};
ghost use Rattle.transfer_rules.specs.Table1.{mask_by_table_1, either, sum_mask, all_mask, one_mask, shift_mask};
ghost use Rattle.transfer_rules.specs.declared.classes.Class.{Class as AnyClass};
ghost use Rattle.transfer_rules.specs.declared.classes.Class.TheVariants.{Add, Sub, And, Or, Xor, Sll, Srl, Sra, Slt};
ghost use Rattle.transfer_rules.specs.declared.classes.Class.TheVariants.{Sltu, Equal, Mul};

use crate::operands::Operands;
use rv32im_decode::OpKind;

/// The mask of a sum: every bit from the lowest secret bit of the operands upwards.
pub fn add_1(operands: Operands) -> u32
    ensures table { result ≡ mask_by_table_1 Add operands }
    ensures sound { IsSound Add operands result }
{
    from_lowest(secret(operands))
}

/// The mask of a difference: every bit from the lowest secret bit of the operands upwards.
pub fn sub_1(operands: Operands) -> u32
    ensures table { result ≡ mask_by_table_1 Sub operands }
    ensures sound { IsSound Sub operands result }
{
    from_lowest(secret(operands))
}

/// The mask of AND: the bits secret in one operand, but for those that are a known zero in the other.
pub fn and_1(operands: Operands) -> u32
    ensures table { result ≡ mask_by_table_1 And operands }
    ensures sound { IsSound And operands result }
{
    secret(operands) & (operands.m1 | operands.v1) & (operands.m2 | operands.v2)
}

/// The mask of OR: the bits secret in one operand, but for those that are a known one in the other.
pub fn or_1(operands: Operands) -> u32
    ensures table { result ≡ mask_by_table_1 Or operands }
    ensures sound { IsSound Or operands result }
{
    secret(operands) & (operands.m1 | !operands.v1) & (operands.m2 | !operands.v2)
}

/// The mask of XOR: the bits secret in one operand.
pub fn xor_1(operands: Operands) -> u32
    ensures table { result ≡ mask_by_table_1 Xor operands }
    ensures sound { IsSound Xor operands result }
{
    secret(operands)
}

/// The mask of a shift to the left: the first mask shifted likewise; all bits where the number of places is secret.
pub fn sll_1(operands: Operands) -> u32
    ensures table { result ≡ mask_by_table_1 Sll operands }
    ensures sound { IsSound Sll operands result }
{
    shifted(operands, OpKind::Sll)
}

/// The mask of a shift to the right: the first mask shifted likewise; all bits where the number of places is secret.
pub fn srl_1(operands: Operands) -> u32
    ensures table { result ≡ mask_by_table_1 Srl operands }
    ensures sound { IsSound Srl operands result }
{
    shifted(operands, OpKind::Srl)
}

/// The mask of a shift to the right with the sign: the first mask shifted likewise, its top bit repeated; all bits
/// where the number of places is secret.
pub fn sra_1(operands: Operands) -> u32
    ensures table { result ≡ mask_by_table_1 Sra operands }
    ensures sound { IsSound Sra operands result }
{
    shifted(operands, OpKind::Sra)
}

/// The mask of a signed comparison: its one bit, where any bit of the operands is secret.
pub fn slt_1(operands: Operands) -> u32
    ensures table { result ≡ mask_by_table_1 Slt operands }
    ensures sound { IsSound Slt operands result }
{
    one_bit(secret(operands))
}

/// The mask of an unsigned comparison: its one bit, where any bit of the operands is secret.
pub fn sltu_1(operands: Operands) -> u32
    ensures table { result ≡ mask_by_table_1 Sltu operands }
    ensures sound { IsSound Sltu operands result }
{
    one_bit(secret(operands))
}

/// The mask of a test for equality: its one bit, where any bit of the operands is secret.
pub fn equal_1(operands: Operands) -> u32
    ensures table { result ≡ mask_by_table_1 Equal operands }
    ensures sound { IsSound Equal operands result }
{
    one_bit(secret(operands))
}

/// The mask of the lower word of a product: every bit from the lowest secret bit of the operands upwards.
pub fn mul_1(operands: Operands) -> u32
    ensures table { result ≡ mask_by_table_1 Mul operands }
    ensures sound { IsSound Mul operands result }
{
    from_lowest(secret(operands))
}

/// The mask of the upper word of a product, signed or not: all bits, where any bit of the operands is secret. That is
/// sound for every class.
#[tactic(auto, using(crate::proofs::Masks::all_is_sound))]
pub fn high_1(operands: Operands) -> u32
    ensures table { result ≡ all_mask (either operands) }
    ensures sound { (class : AnyClass) → IsSound class operands result }
{
    all_bits(secret(operands))
}

/// The mask of a quotient or remainder, signed or not: all bits, where any bit of the operands is secret. That is sound
/// for every class.
#[tactic(auto, using(crate::proofs::Masks::all_is_sound))]
pub fn div_1(operands: Operands) -> u32
    ensures table { result ≡ all_mask (either operands) }
    ensures sound { (class : AnyClass) → IsSound class operands result }
{
    all_bits(secret(operands))
}

pub(crate) fn secret(operands: Operands) -> u32
    ensures { result ≡ either operands }
{
    operands.m1 | operands.m2
}

pub(crate) fn from_lowest(secret: u32) -> u32
    ensures { result ≡ sum_mask secret }
{
    secret | 0_u32.wrapping_sub(secret)
}

fn all_bits(secret: u32) -> u32
    ensures { result ≡ all_mask secret }
{
    if secret == 0 { 0 } else { u32::MAX }
}

fn one_bit(secret: u32) -> u32
    ensures { result ≡ one_mask secret }
{
    if secret == 0 { 0 } else { 1 }
}

fn shifted(operands: Operands, shift: OpKind) -> u32
    ensures { result ≡ shift_mask operands shift }
{
    if operands.m2 % 32 == 0 {
        shift.result(operands.m1, operands.v2)
    } else {
        u32::MAX
    }
}
