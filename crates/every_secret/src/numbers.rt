//! How many outputs patterns stand for: their number, and how many bits it has.

ghost use Rattle.std.specs.Prelude.{◌≡◌, ◌+◌, ◌<◌, ◌≤◌, ◌^◌, IfOk, IfSome, IfNone, All};
ghost use Rattle.every_secret.specs.Bounds.{IsLeastPower, free_bits as free_bits_of, free_count, output_count as count_of};
ghost use Rattle.every_secret.specs.Private.Numbers.{Ascend, IsCeiling, sum_of_powers};

use crate::patterns::Pattern;
use crossing_bits::bit_count;
use flow_base::NoMemory;
use std::alloc::Global;

/// How many bits masks have together.
fn count_all(masks: &[u8]) -> u128
    ensures count { result ≡ free_count masks.now }
    ensures few { result ≤ 2 ^ 69 }
{
    let mut rest = masks;
    let mut count: u128 = 0;
    while let [mask, more @ ..] = rest {
        count += u128::from(bit_count(u32::from(*mask)));
        rest = more;
    }
    count
}

/// How many bits of a pattern are free: it stands for 2 to this number of outputs.
pub fn free_bits(pattern: &Pattern) -> u128
    ensures count { result ≡ free_bits_of pattern.now }
    ensures few { result ≤ 2 ^ 70 }
{
    let status = bit_count(u32::from(pattern.status_mask));
    count_all(pattern.byte_masks.as_slice()) + u128::from(status)
}

/// 2 to a number of bits; None where it is 2 ^ 64 or more.
fn power(bits: u128) -> Option<u64>
    ensures some { IfSome result (λ power. power ≡ 2 ^ bits) }
    ensures none { IfNone result (2 ^ 64 ≤ 2 ^ bits) }
{
    if bits >= 64 {
        return None;
    }
    Some(1 << bits)
}

/// For how many outputs the patterns stand, an output counted once for each of its patterns; None where these are
/// 2 ^ 64 or more.
pub fn output_count(patterns: &[Pattern]) -> Option<u64>
    ensures some { IfSome result (λ count. count ≡ count_of patterns.now) }
    ensures none { IfNone result (2 ^ 64 ≤ count_of patterns.now) }
{
    let mut rest = patterns;
    let mut count: u64 = 0;
    while let [pattern, more @ ..] = rest {
        count = count.checked_add(power(free_bits(pattern))?)?;
        rest = more;
    }
    Some(count)
}

/// So many units of a power of two as units of one with so many places more, rounded up.
fn rounded_up(units: u64, places: u128) -> u64
    ensures { IsCeiling units places result }
{
    let mut left = places;
    let mut rounded = units;
    while left > 0 && rounded > 1 {
        rounded = rounded / 2 + rounded % 2;
        left -= 1;
    }
    rounded
}

/// The least number of bits with as many strings as there are units.
fn bits_for(units: u64) -> u128
    ensures power { IsLeastPower units result }
    ensures few { result ≤ 2 ^ 64 }
{
    let mut bits: u128 = 0;
    let mut rounded = units;
    while rounded > 1 {
        rounded = rounded / 2 + rounded % 2;
        bits += 1;
    }
    bits
}

/// The least number of bits with as many strings as the sum of 2 to each of these, which do not fall.
fn bits_for_powers(exponents: &[u128]) -> u128
    requires { Ascend 0 (2 ^ 70) exponents.now }
    ensures { IsLeastPower (sum_of_powers exponents.now) result }
{
    let mut rest = exponents;
    let mut places: u128 = 0;
    let mut units: u64 = 0;
    while let [exponent, more @ ..] = rest {
        units = rounded_up(units, *exponent - places) + 1;
        places = *exponent;
        rest = more;
    }
    places + bits_for(units)
}

/// How many bits of each pattern are free. `NoMemory` where there is not enough.
fn all_free_bits(alloc: Global, patterns: &[Pattern]) -> Result<Vec<u128>, NoMemory>
    ensures sum { IfOk result (λ all. sum_of_powers all.items ≡ count_of patterns.now) }
    ensures few { IfOk result (λ all. All (λ bits. bits ≤ 2 ^ 70) all.items) }
{
    let mut all = Vec::new(alloc);
    let mut rest = patterns;
    while let [pattern, more @ ..] = rest {
        all.push(free_bits(pattern)).map_err(|_| NoMemory)?;
        rest = more;
    }
    Ok(all)
}

/// The least number of bits with as many strings as the patterns stand for outputs, each counted once for each of its
/// patterns; 0 where there is no pattern. `NoMemory` where there is not enough.
pub fn output_bits(alloc: Global, patterns: &[Pattern]) -> Result<u128, NoMemory>
    ensures { IfOk result (λ bits. IsLeastPower (count_of patterns.now) bits) }
{
    let mut exponents = all_free_bits(alloc, patterns)?;
    exponents.sort_unstable();
    Ok(bits_for_powers(&exponents))
}
