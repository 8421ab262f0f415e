//! The strings of paths, one after another.

ghost use Rattle.std.specs.Prelude.{◌≡◌, ◌+◌, ◌^◌, ◌<◌, ◌≤◌, ◌++◌, ◌∷◌, [], length, take, true, IfOk, IfSome, OnOk, Some, option_map, if◌then◌else◌};
ghost use Rattle.flow_base.specs.Words.{bits_under};
ghost use Rattle.every_secret.specs.Paths.{next_string};

use crossing_bits::Bits;
use flow_base::NoMemory;
use std::alloc::Global;

/// The later of two zeros, where the second is at this place, if it is one.
fn later_zero(last: Option<usize>, place: usize, bit: bool) -> Option<usize>
    ensures { result ≡ (if bit then last else Some place) }
{
    if bit { last } else { Some(place) }
}

/// Where the last 0 of a string is.
pub(crate) fn last_zero(bits: &[bool]) -> Option<usize>
    ensures next { option_map (λ place. take place bits.now ++ true ∷ []) result ≡ next_string bits.now }
    ensures within { IfSome result (λ place. place < length bits.now) }
{
    let mut last = None;
    for (place, bit) in bits.iter().enumerate() {
        last = later_zero(last, place, *bit);
    }
    last
}

/// The number of four bits, the lowest first.
#[tactic(auto, using(crate::proofs::FourBits::four_bits))]
fn four(first: bool, second: bool, third: bool, fourth: bool) -> u32
    ensures { bits_under result 15 ≡ first ∷ second ∷ third ∷ fourth ∷ [] }
{
    u32::from(first) + 2 * u32::from(second) + 4 * u32::from(third) + 8 * u32::from(fourth)
}

/// Puts bits at the end of a string. `NoMemory` where there is not enough.
fn push_each(string: &mut Bits, bits: &[bool]) -> Result<(), NoMemory>
    requires { length string.old.bits + length bits.now < 2 ^ 32 }
    ensures bits { OnOk result (string.new.bits ≡ string.old.bits ++ bits.now) }
    ensures taken { OnOk result (string.new.taken ≡ string.old.taken) }
{
    for bit in bits {
        string.push_masked(u32::from(*bit), 1)?;
    }
    Ok(())
}

/// A string of these bits, of which none is taken, with room for so many. `NoMemory` where there is not enough.
fn with_bits(alloc: Global, bits: &[bool], room: u32) -> Result<Bits, NoMemory>
    requires { length bits.now ≤ room }
    ensures bits { IfOk result (λ string. string.bits ≡ bits.now) }
    ensures taken { IfOk result (λ string. string.taken ≡ 0) }
{
    let mut string = Bits::with_room(alloc, room)?;
    let mut part = bits;
    while let [first, second, third, fourth, others @ ..] = part {
        string.push_masked(four(*first, *second, *third, *fourth), 15)?;
        part = others;
    }
    push_each(&mut string, part)?;
    Ok(string)
}

/// A string of the same bits, of which none is taken. `NoMemory` where there is not enough.
pub(crate) fn copied(alloc: Global, path: &Bits) -> Result<Bits, NoMemory>
    ensures bits { IfOk result (λ copy. copy.bits ≡ path.now.bits) }
    ensures taken { IfOk result (λ copy. copy.taken ≡ 0) }
{
    with_bits(alloc, path.as_slice(), path.count())
}

/// A string up to a place, and a 1 there. `NoMemory` where there is not enough.
pub(crate) fn turned(alloc: Global, path: &Bits, place: usize) -> Result<Bits, NoMemory>
    requires { place < length path.now.bits }
    ensures bits { IfOk result (λ next. next.bits ≡ take place path.now.bits ++ true ∷ []) }
    ensures taken { IfOk result (λ next. next.taken ≡ 0) }
{
    let mut next = with_bits(alloc, &path.as_slice()[..place], path.count())?;
    next.push_masked(1, 1)?;
    Ok(next)
}

/// Takes so many bits of a string.
pub(crate) fn skip(bits: &mut Bits, count: u32)
    requires { bits.old.taken + count ≤ length bits.old.bits }
    ensures bits { bits.new.bits ≡ bits.old.bits }
    ensures taken { bits.new.taken ≡ bits.old.taken + count }
{
    for _ in 0..count {
        let _ = bits.take_masked(1);
    }
}
