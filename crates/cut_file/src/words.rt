ghost use Rattle.std.specs.Prelude.{◌≡◌, ◌+◌, length, option_map, IfSome};
ghost use Rattle.cut_file.specs.Private.Reading.{divided, run_in};
ghost use Rattle.flow_base.specs.TextWords.{number_in, slot_in, word_in};

use crate::points::Run;
use flow_base::{Slot, hex_word_named, number_named, slot_named};

/// The bytes in front of the first separator and those after it; None where there is none.
pub(crate) fn divide(separator: u8, bytes: &[u8]) -> Option<(&[u8], &[u8])>
    ensures halves { option_map (λ p. (p.0.now, p.1.now)) result ≡ divided separator bytes.now }
    ensures lengths { IfSome result (λ p. length p.0.now + 1 + length p.1.now ≡ length bytes.now) }
{
    for (place, byte) in bytes.iter().enumerate() {
        if *byte == separator {
            return Some((&bytes[..place], &bytes[place + 1..]));
        }
    }
    None
}

/// The number that a word is in decimal, without leading zeros.
pub(crate) fn number(word: &[u8]) -> Option<u32>
    ensures { result ≡ number_in word.now }
{
    number_named(word)
}

/// The word that stands as 0x and eight hexadecimal digits in lower case.
pub(crate) fn word(bytes: &[u8]) -> Option<u32>
    ensures { result ≡ word_in bytes.now }
{
    hex_word_named(bytes)
}

/// The slot that has this text.
pub(crate) fn slot(word: &[u8]) -> Option<Slot>
    ensures { result ≡ slot_in word.now }
{
    slot_named(word)
}

/// The run of a count, * and a mask.
#[tactic(auto, unfolding(crate::specs::Private::Reading::run_in))]
pub(crate) fn run(bytes: &[u8]) -> Option<Run>
    ensures { result ≡ run_in bytes.now }
{
    let (count, mask) = divide(b'*', bytes)?;
    let count = number(count)?;
    let mask = word(mask)?;
    if count >= 1 {
        Some(Run { count, mask })
    } else {
        None
    }
}
