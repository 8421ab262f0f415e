//! What the way that a branch went tells of its operands.

ghost use Rattle.std.specs.Prelude.{◌≡◌, ◌≢◌, ℕ, ◌<◌, ◌≤◌, ◌==◌, ◌^◌, true, false, int_lt, nat_le, nat_lt};
ghost use Rattle.rv32im_decode.specs.Operations.{is_taken, signed};
ghost use Rattle.transfer_rules.specs.Table2.{greatest as greatest_of};
ghost use Rattle.piece_cells.specs.Cells.{HasBits, HasSomeBits};
ghost use Rattle.piece_cells.specs.Deciding.{HaveBits};
ghost use Rattle.piece_cells.specs.Telling.{AgreesUnder, IsOneBit};

use crate::cells::Bits;
use rv32im_decode::BranchKind;

/// The sign bit of a word.
const SIGN: u32 = 0x8000_0000;

/// The greatest word that has these bits.
fn greatest(bits: Bits) -> u32
    ensures { result ≡ greatest_of bits.value bits.mask }
{
    bits.value | bits.mask
}

/// The bits that are 0 in every word up to a limit.
fn above(limit: u32) -> u32
    ensures { (word : ℕ) → word ≤ limit → AgreesUnder result 0 word }
{
    let zeros = limit.leading_zeros();
    if zeros == 32 {
        u32::MAX
    } else {
        !(u32::MAX >> zeros)
    }
}

/// The bits where those under a mask are those of the values; None where some of them are known to differ.
fn told(bits: Bits, under: u32, values: u32) -> Option<Bits>
    ensures { (word : ℕ) → word < 2 ^ 32 → HasBits bits word → AgreesUnder under values word → HasSomeBits result word }
{
    if (bits.value ^ values) & under & !bits.mask != 0 {
        return None;
    }
    Some(Bits {
        value: (bits.value & !under) | (values & under),
        mask: bits.mask & !under,
    })
}

/// The bits of both, where there are some of each.
fn both(first: Option<Bits>, second: Option<Bits>) -> Option<(Bits, Bits)>
    ensures { (one other : ℕ) → HasSomeBits first one → HasSomeBits second other → HaveBits result one other }
{
    match (first, second) {
        (Some(first), Some(second)) => Some((first, second)),
        _ => None,
    }
}

/// The first is below the second.
fn tell_less(first: Bits, second: Bits) -> Option<(Bits, Bits)>
    ensures { (one other : ℕ) → one < 2 ^ 32 → HasBits first one → HasBits second other → one < other →
        HaveBits result one other }
{
    let most = greatest(second);
    if most == 0 {
        return None;
    }
    both(told(first, above(most - 1), 0), Some(second))
}

/// The first is not below the second.
fn tell_not_less(first: Bits, second: Bits) -> Option<(Bits, Bits)>
    ensures { (one other : ℕ) → other < 2 ^ 32 → HasBits first one → HasBits second other → other ≤ one →
        HaveBits result one other }
{
    both(Some(first), told(second, above(greatest(first)), 0))
}

/// As numbers without a sign, the first is below the second (`less`) or not.
fn tell_order(less: bool, first: Bits, second: Bits) -> Option<(Bits, Bits)>
    ensures { (one other : ℕ) → one < 2 ^ 32 → other < 2 ^ 32 → HasBits first one → HasBits second other →
        nat_lt one other ≡ less → HaveBits result one other }
{
    if less {
        tell_less(first, second)
    } else {
        tell_not_less(first, second)
    }
}

/// The word is negative as a signed number, or not.
fn tell_sign(bits: Bits, negative: bool) -> Option<Bits>
    ensures { (word : ℕ) → word < 2 ^ 32 → HasBits bits word → nat_le 2147483648 word ≡ negative →
        HasSomeBits result word }
{
    told(bits, SIGN, if negative { SIGN } else { 0 })
}

fn may_be_negative(bits: Bits) -> bool
    ensures { (word : ℕ) → HasBits bits word → result ≡ false → word < 2147483648 }
{
    greatest(bits) >= SIGN
}

fn is_zero(bits: Bits) -> bool
    ensures { (word : ℕ) → HasBits bits word → result ≡ true → word ≡ 0 }
{
    bits.value == 0 && bits.mask == 0
}

/// As signed numbers, the first is below the second (`less`) or not.
fn tell_signed(less: bool, first: Bits, second: Bits) -> Option<(Bits, Bits)>
    ensures { (one other : ℕ) → one < 2 ^ 32 → other < 2 ^ 32 → HasBits first one → HasBits second other →
        int_lt (signed one) (signed other) ≡ less → HaveBits result one other }
{
    if !may_be_negative(first) && !may_be_negative(second) {
        tell_order(less, first, second)
    } else if is_zero(second) {
        both(tell_sign(first, less), Some(second))
    } else if less && is_zero(first) {
        both(Some(first), tell_sign(second, false))
    } else {
        Some((first, second))
    }
}

fn tell_same(first: Bits, second: Bits) -> Option<(Bits, Bits)>
    ensures { (word : ℕ) → word < 2 ^ 32 → HasBits first word → HasBits second word → HaveBits result word word }
{
    both(
        told(first, !second.mask, second.value),
        told(second, !first.mask, first.value),
    )
}

/// Whether a mask is one bit.
fn is_one_bit(mask: u32) -> bool
    ensures { result ≡ true → IsOneBit mask }
{
    mask != 0 && mask == 1 << mask.trailing_zeros()
}

/// The word is not this one; where but one bit may make it differ, it does.
fn tell_other(bits: Bits, word: u32) -> Option<Bits>
    ensures { (other : ℕ) → other < 2 ^ 32 → HasBits bits other → other ≢ word → HasSomeBits result other }
{
    if bits.mask == 0 && bits.value == word {
        None
    } else if is_one_bit(bits.mask) && (bits.value ^ word) & !bits.mask == 0 {
        told(bits, bits.mask, !word)
    } else {
        Some(bits)
    }
}

/// The first and the second differ.
fn tell_differs(first: Bits, second: Bits) -> Option<(Bits, Bits)>
    ensures { (one other : ℕ) → one < 2 ^ 32 → other < 2 ^ 32 → HasBits first one → HasBits second other →
        one ≢ other → HaveBits result one other }
{
    if second.mask == 0 {
        both(tell_other(first, second.value), Some(second))
    } else if first.mask == 0 {
        both(Some(first), tell_other(second, first.value))
    } else {
        Some((first, second))
    }
}

/// The first and the second are the same or not.
fn tell_equality(same: bool, first: Bits, second: Bits) -> Option<(Bits, Bits)>
    ensures { (one other : ℕ) → one < 2 ^ 32 → other < 2 ^ 32 → HasBits first one → HasBits second other →
        (one == other) ≡ same → HaveBits result one other }
{
    if same {
        tell_same(first, second)
    } else {
        tell_differs(first, second)
    }
}

/// The bits of the operands of a branch that was taken or left; None where no words that have their bits go so.
pub fn tell(kind: BranchKind, taken: bool, first: Bits, second: Bits) -> Option<(Bits, Bits)>
    ensures { (one other : ℕ) → one < 2 ^ 32 → other < 2 ^ 32 → HasBits first one → HasBits second other →
        is_taken kind one other ≡ taken → HaveBits result one other }
{
    match kind {
        BranchKind::Beq => tell_equality(taken, first, second),
        BranchKind::Bne => tell_equality(!taken, first, second),
        BranchKind::Blt => tell_signed(taken, first, second),
        BranchKind::Bge => tell_signed(!taken, first, second),
        BranchKind::Bltu => tell_order(taken, first, second),
        BranchKind::Bgeu => tell_order(!taken, first, second),
    }
}
