//! Table 3: narrower masks for products, quotients and remainders, from the least and the greatest that the operands
//! may be, beside those for shifts. Each mask is that of the table, and each is sound: whatever the secret bits of the
//! operands are, every operation of the class gives the same bits outside the mask. The other classes are as in table 2.
#![tactic(auto, using(crate::proofs::RangeMasks::sound_by_table_3))]

ghost use Rattle.std.specs.Prelude.{◌≡◌};
ghost use Rattle.transfer_rules.specs.Soundness.{IsSound};
ghost use Rattle.transfer_rules.specs.Table3.{mask_by_table_3};
ghost use Rattle.transfer_rules.specs.declared.classes.Class.TheVariants.{Mul, Mulh, Mulhsu, Mulhu, Div, Divu, Rem};
ghost use Rattle.transfer_rules.specs.declared.classes.Class.TheVariants.{Remu};

use crate::operands::Operands;
use crate::ranges::{
    bounds_of, is_unsigned, product_range, quotient_range, remainder_range, upper_range,
};
use crate::table_1::secret;
use crate::table_2::mul_2;

/// The mask of the lower word of a product: that of table 2, and of it, where the greatest product is a word, only the
/// bits from the highest in which the least and the greatest differ downwards.
pub fn mul_3(operands: Operands) -> u32
    ensures table { result ≡ mask_by_table_3 Mul operands }
    ensures sound { IsSound Mul operands result }
{
    if secret(operands) == 0 {
        return 0;
    }
    let first = bounds_of(operands.v1, operands.m1);
    let second = bounds_of(operands.v2, operands.m2);
    product_range(mul_2(operands), first, second)
}

/// The mask of the upper word of a signed product: that of the unsigned one, but all bits where an operand may be
/// negative.
pub fn mulh_3(operands: Operands) -> u32
    ensures table { result ≡ mask_by_table_3 Mulh operands }
    ensures sound { IsSound Mulh operands result }
{
    if secret(operands) == 0 {
        return 0;
    }
    let first = bounds_of(operands.v1, operands.m1);
    let second = bounds_of(operands.v2, operands.m2);
    if is_unsigned(first) && is_unsigned(second) {
        upper_range(first, second)
    } else {
        u32::MAX
    }
}

/// The mask of the upper word of the product of a signed and an unsigned word: that of the unsigned product, but all
/// bits where the first operand may be negative.
pub fn mulhsu_3(operands: Operands) -> u32
    ensures table { result ≡ mask_by_table_3 Mulhsu operands }
    ensures sound { IsSound Mulhsu operands result }
{
    if secret(operands) == 0 {
        return 0;
    }
    let first = bounds_of(operands.v1, operands.m1);
    let second = bounds_of(operands.v2, operands.m2);
    if is_unsigned(first) {
        upper_range(first, second)
    } else {
        u32::MAX
    }
}

/// The mask of the upper word of an unsigned product: every bit from the highest in which the least and the greatest
/// differ downwards.
pub fn mulhu_3(operands: Operands) -> u32
    ensures table { result ≡ mask_by_table_3 Mulhu operands }
    ensures sound { IsSound Mulhu operands result }
{
    if secret(operands) == 0 {
        return 0;
    }
    let first = bounds_of(operands.v1, operands.m1);
    let second = bounds_of(operands.v2, operands.m2);
    upper_range(first, second)
}

/// The mask of a signed quotient: that of the unsigned one, but all bits where an operand may be negative.
pub fn div_3(operands: Operands) -> u32
    ensures table { result ≡ mask_by_table_3 Div operands }
    ensures sound { IsSound Div operands result }
{
    if secret(operands) == 0 {
        return 0;
    }
    let first = bounds_of(operands.v1, operands.m1);
    let second = bounds_of(operands.v2, operands.m2);
    if is_unsigned(first) && is_unsigned(second) {
        quotient_range(first, second)
    } else {
        u32::MAX
    }
}

/// The mask of an unsigned quotient: every bit from the highest in which the least and the greatest differ downwards;
/// all bits where the divisor may be 0.
pub fn divu_3(operands: Operands) -> u32
    ensures table { result ≡ mask_by_table_3 Divu operands }
    ensures sound { IsSound Divu operands result }
{
    if secret(operands) == 0 {
        return 0;
    }
    let first = bounds_of(operands.v1, operands.m1);
    let second = bounds_of(operands.v2, operands.m2);
    quotient_range(first, second)
}

/// The mask of a signed remainder: that of the unsigned one, but all bits where an operand may be negative.
pub fn rem_3(operands: Operands) -> u32
    ensures table { result ≡ mask_by_table_3 Rem operands }
    ensures sound { IsSound Rem operands result }
{
    if secret(operands) == 0 {
        return 0;
    }
    let first = bounds_of(operands.v1, operands.m1);
    let second = bounds_of(operands.v2, operands.m2);
    if is_unsigned(first) && is_unsigned(second) {
        remainder_range(operands.m1, first, second)
    } else {
        u32::MAX
    }
}

/// The mask of an unsigned remainder: that of the dividend where it is below every divisor, else every bit from the
/// highest of the greatest remainder downwards; all bits where the divisor may be 0.
pub fn remu_3(operands: Operands) -> u32
    ensures table { result ≡ mask_by_table_3 Remu operands }
    ensures sound { IsSound Remu operands result }
{
    if secret(operands) == 0 {
        return 0;
    }
    let first = bounds_of(operands.v1, operands.m1);
    let second = bounds_of(operands.v2, operands.m2);
    remainder_range(operands.m1, first, second)
}
