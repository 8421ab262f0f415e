//! Table 2: narrower masks for six classes of operations, from the least and the greatest word that an operand may be.
//! Each mask is that of the table, and each is sound: whatever the secret bits of the operands are, every operation of
//! the class gives the same bits outside the mask. The other classes are as in table 1.

ghost use Rattle.std.specs.Prelude.{◌≡◌};
ghost use Rattle.transfer_rules.specs.Soundness.{IsSound};
ghost use Rattle.transfer_rules.specs.Table2.{mask_by_table_2, equality_mask, order_mask};
ghost use Rattle.transfer_rules.specs.Table2.{least as least_of, greatest as greatest_of, lowest as lowest_of};
ghost use Rattle.transfer_rules.specs.declared.classes.Class.TheVariants.{Add, Sub, Slt, Sltu, Equal, Mul};

use crate::operands::Operands;
use crate::table_1::{from_lowest, secret};

/// The mask of a sum: the secret bits, and those in which the least and the greatest sum differ, since a carry into any
/// other place is known.
pub fn add_2(operands: Operands) -> u32
    ensures table { result ≡ mask_by_table_2 Add operands }
    ensures sound { IsSound Add operands result }
{
    let Operands { v1, m1, v2, m2 } = operands;
    let most = greatest(v1, m1).wrapping_add(greatest(v2, m2));
    let least = least(v1, m1).wrapping_add(least(v2, m2));
    secret(operands) | (most ^ least)
}

/// The mask of a difference: the secret bits, and those in which the least and the greatest difference differ, since a
/// borrow from any other place is known.
pub fn sub_2(operands: Operands) -> u32
    ensures table { result ≡ mask_by_table_2 Sub operands }
    ensures sound { IsSound Sub operands result }
{
    let Operands { v1, m1, v2, m2 } = operands;
    let most = greatest(v1, m1).wrapping_sub(least(v2, m2));
    let least = least(v1, m1).wrapping_sub(greatest(v2, m2));
    secret(operands) | (most ^ least)
}

/// The mask of a signed comparison: its one bit, but for operands whose order is known.
pub fn slt_2(operands: Operands) -> u32
    ensures table { result ≡ mask_by_table_2 Slt operands }
    ensures sound { IsSound Slt operands result }
{
    order(Operands {
        v1: operands.v1 ^ 0x8000_0000,
        v2: operands.v2 ^ 0x8000_0000,
        ..operands
    })
}

/// The mask of an unsigned comparison: its one bit, but for operands whose order is known.
pub fn sltu_2(operands: Operands) -> u32
    ensures table { result ≡ mask_by_table_2 Sltu operands }
    ensures sound { IsSound Sltu operands result }
{
    order(operands)
}

/// The mask of a test for equality: its one bit, but for operands with no secret bit, or with a known bit that
/// differs.
pub fn equal_2(operands: Operands) -> u32
    ensures table { result ≡ mask_by_table_2 Equal operands }
    ensures sound { IsSound Equal operands result }
{
    equality(operands)
}

/// The mask of the lower word of a product: every bit from the lowest in which two products may differ, which is that
/// of a secret bit of one operand and a bit of the other.
pub fn mul_2(operands: Operands) -> u32
    ensures table { result ≡ mask_by_table_2 Mul operands }
    ensures sound { IsSound Mul operands result }
{
    let Operands { v1, m1, v2, m2 } = operands;
    let first = lowest(m1).wrapping_mul(lowest(greatest(v2, m2)));
    let second = lowest(m2).wrapping_mul(lowest(greatest(v1, m1)));
    from_lowest(first | second)
}

pub(crate) fn least(value: u32, mask: u32) -> u32
    ensures { result ≡ least_of value mask }
{
    value & !mask
}

pub(crate) fn greatest(value: u32, mask: u32) -> u32
    ensures { result ≡ greatest_of value mask }
{
    value | mask
}

fn lowest(word: u32) -> u32
    ensures { result ≡ lowest_of word }
{
    word & 0_u32.wrapping_sub(word)
}

/// No bit where every word that the first operand may be is below every one that the second may be, or none is.
fn order(operands: Operands) -> u32
    ensures { result ≡ order_mask operands }
{
    let Operands { v1, m1, v2, m2 } = operands;
    if greatest(v1, m1) < least(v2, m2) || least(v1, m1) >= greatest(v2, m2) {
        0
    } else {
        1
    }
}

/// No bit where no bit of the operands is secret, or one that is known of both differs.
fn equality(operands: Operands) -> u32
    ensures { result ≡ equality_mask operands }
{
    let secret = secret(operands);
    if secret == 0 || (operands.v1 ^ operands.v2) & !secret != 0 {
        0
    } else {
        1
    }
}
