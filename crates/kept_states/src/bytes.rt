ghost use Rattle.std.specs.Prelude.{◌≡◌, ◌≤◌, ℕ, length, slice_index, true};

/// The bytes of a piece.
pub(crate) const PIECE: usize = 256;

/// Whether two lists of bytes are the same.
#[tactic(auto, using(crate::proofs::SameBytes::bytes_same))]
pub(crate) fn are_same_bytes(first: &[u8], second: &[u8]) -> bool
    ensures { result ≡ true → first.now ≡ second.now }
{
    first == second
}

/// Whether the words of the 32 registers are the same.
#[tactic(auto, using(crate::proofs::SameBytes::bytes_same))]
pub(crate) fn are_same_words(first: &[u32; 32], second: &[u32; 32]) -> bool
    ensures { result ≡ true → first.now ≡ second.now }
{
    first == second
}

/// Whether two pieces have the same bytes. Each byte is looked at, sixteen at once.
pub(crate) fn are_same_pieces(first: &[u8], second: &[u8]) -> bool
    requires first { length first.now ≡ 256 }
    requires second { length second.now ≡ 256 }
    ensures { result ≡ true → first.now ≡ second.now }
{
    let mut same = true;
    for index in 0..PIECE {
        same = same & (first[index] == second[index]);
    }
    same
}

/// Whether all bytes of a piece are 0. Each byte is looked at, sixteen at once.
pub(crate) fn are_zero(bytes: &[u8]) -> bool
    requires { length bytes.now ≡ 256 }
    ensures { result ≡ true → (index : ℕ) → slice_index bytes.now index ≡ 0 }
{
    let mut most = 0;
    for index in 0..PIECE {
        most = larger(most, bytes[index]);
    }
    most == 0
}

#[inline(always)]
fn larger(first: u8, second: u8) -> u8
    ensures first { first ≤ result }
    ensures second { second ≤ result }
{
    if first < second { second } else { first }
}

/// A hash of what was mixed so far and one more number.
pub(crate) fn mix(hash: u64, number: u64) -> u64 {
    (hash ^ number)
        .wrapping_mul(0x9e37_79b9_7f4a_7c15)
        .rotate_left(29)
}

/// A hash of what was mixed so far and bytes.
pub(crate) fn mix_bytes(hash: u64, bytes: &[u8]) -> u64 {
    let mut mixed = hash;
    let mut part = bytes;
    while let [a, b, c, d, e, f, g, h, others @ ..] = part {
        mixed = mix(mixed, u64::from_le_bytes([*a, *b, *c, *d, *e, *f, *g, *h]));
        part = others;
    }
    for byte in part {
        mixed = mix(mixed, u64::from(*byte));
    }
    mixed
}

/// The hash of all that was mixed, in 32 bits.
pub(crate) fn ended(hash: u64) -> u32 {
    (mix(hash, hash >> 32) >> 32) as u32
}
