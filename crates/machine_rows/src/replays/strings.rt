use crossing_bits::{Bits, bit_count};
use std::alloc::Global;

/// The value and the mask of a text `VALUE/MASK` in hexadecimal digits.
fn pair_of(text: &str) -> Option<(u32, u32)> {
    let (value, mask) = text.split_once('/')?;
    let value = u32::from_str_radix(value, 16).ok()?;
    let mask = u32::from_str_radix(mask, 16).ok()?;
    Some((value, mask))
}

/// The bits of values under masks, one after the other, at most 65,536; the empty text has none.
pub fn string_of(alloc: Global, text: &str) -> Option<Bits> {
    let mut bits = Bits::with_room(alloc, 0).ok()?;
    if text.is_empty() {
        return Some(bits);
    }
    for part in text.split(' ') {
        let (value, mask) = pair_of(part)?;
        if bits.count() > 65_504 || bit_count(mask) > 32 {
            return None;
        }
        bits.push_masked(value, mask).ok()?;
    }
    Some(bits)
}
