//! The least and the greatest that words, products, quotients and remainders may be, and the bits in which these may
//! differ.

ghost use Rattle.std.specs.Prelude.{◌≡◌, ◌≤◌, ◌*◌, ◌/◌, ◌^◌, nat_lt};
ghost use Rattle.transfer_rules.specs.Table3.{bounds_of, span, product_range, upper_range, quotient_range};
ghost use Rattle.transfer_rules.specs.Table3.{remainder_range};

use crate::table_2::{greatest, least};

/// The least and the greatest word that an operand may be.
#[derive(Clone, Copy)]
pub(crate) struct Bounds {
    pub(crate) low: u32,
    pub(crate) high: u32,
}

/// The bounds of a word whose bits under a mask are secret.
#[tactic(auto, using(crate::proofs::Bounds::least_le_greatest))]
pub(crate) fn bounds_of(value: u32, mask: u32) -> Bounds
    ensures value { result ≡ bounds_of value mask }
    ensures order { result.low ≤ result.high }
{
    Bounds {
        low: least(value, mask),
        high: greatest(value, mask),
    }
}

/// Of a mask of products the bits that may differ, where the greatest is a word.
pub(crate) fn product_range(mask: u32, first: Bounds, second: Bounds) -> u32
    requires first { first.low ≤ first.high }
    requires second { second.low ≤ second.high }
    ensures { result ≡ product_range mask first second }
{
    match first.high.checked_mul(second.high) {
        Some(most) => mask & span(first.low * second.low, most),
        None => mask,
    }
}

/// The bits in which the upper words of products may differ.
pub(crate) fn upper_range(first: Bounds, second: Bounds) -> u32
    ensures { result ≡ upper_range first second }
{
    span(upper(first.low, second.low), upper(first.high, second.high))
}

/// The bits in which quotients may differ: all where the divisor may be 0.
pub(crate) fn quotient_range(first: Bounds, second: Bounds) -> u32
    requires { second.low ≤ second.high }
    ensures { result ≡ quotient_range first second }
{
    match first.high.checked_div(second.low) {
        Some(most) => span(first.low / second.high, most),
        None => u32::MAX,
    }
}

/// The bits in which remainders may differ: those of the dividend where it is below every divisor, and all where the
/// divisor may be 0.
pub(crate) fn remainder_range(mask: u32, first: Bounds, second: Bounds) -> u32
    requires { second.low ≤ second.high }
    ensures { result ≡ remainder_range mask first second }
{
    if second.low == 0 {
        u32::MAX
    } else if first.high < second.low {
        mask
    } else {
        span(0, first.high.min(second.high - 1))
    }
}

/// Whether every word of the bounds has a sign bit of 0.
pub(crate) fn is_unsigned(bounds: Bounds) -> bool
    ensures { result ≡ nat_lt bounds.high 2147483648 }
{
    bounds.high < 0x8000_0000
}

/// Every bit from the highest in which two words differ downwards; none where they are equal.
fn span(first: u32, second: u32) -> u32
    ensures { result ≡ span first second }
{
    if first == second {
        0
    } else {
        u32::MAX >> (first ^ second).leading_zeros()
    }
}

/// The upper word of a product.
fn upper(first: u32, second: u32) -> u32
    ensures { result ≡ first * second / 2 ^ 32 }
{
    (u64::from(first) * u64::from(second) >> 32) as u32
}
