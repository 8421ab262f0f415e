//! What a text says, read as its Display writes it: numbers in decimal, words in hexadecimal and slots.

ghost use Rattle.std.specs.Prelude.{◌≡◌, ◌≤◌, ◌<◌, ◌^◌, ℕ, None, IfSome, IsTrue};
ghost use Rattle.std.specs.Fmt.{decimal};
ghost use Rattle.std.specs.Str.{bytes_eq};
ghost use Rattle.flow_base.specs.HexWords.{hex_word as hex_word_of};
ghost use Rattle.flow_base.specs.Points.{is_slot, slot_text};
ghost use Rattle.flow_base.specs.TextWords.{grown as one_more, has_no_leading_zero as is_plain_word};
ghost use Rattle.flow_base.specs.TextWords.{named_slot as slot_of_letters, nibble_of, number_at, number_in};
ghost use Rattle.flow_base.specs.TextWords.{short_number, slot_at, slot_in, word_at, word_in};

use crate::hex_words::{digit, hex_word};
use crate::points::Slot;
use crate::text_pieces::{after, byte_at, skip};

// A number with one decimal digit more. One of more than 48 bits stays as it is.
#[tactic(auto, unfolding(crate::specs::TextWords::grown))]
fn grown(number: u64, byte: u8) -> u64
    requires { 48 ≤ byte }
    ensures { result ≡ one_more number byte }
{
    if number < 281_474_976_710_656 {
        number * 10 + u64::from(byte - b'0')
    } else {
        number
    }
}

/// The number of the digits in front, and the rest. It is the one that stands there in decimal, where that is below
/// 2^48 and no digit follows it.
#[tactic(auto, unfolding(crate::specs::TextWords::number_at))]
pub fn number_in_front(bytes: &[u8]) -> (u64, &[u8])
    ensures { (result.0, result.1.now) ≡ number_at bytes.now }
{
    let mut number: u64 = 0;
    let mut rest = bytes;
    while let [byte, more @ ..] = rest {
        if !byte.is_ascii_digit() {
            break;
        }
        number = grown(number, *byte);
        rest = more;
    }
    (number, rest)
}

// Whether a word has some bytes, of which the first is no 0 that another follows.
fn has_no_leading_zero(word: &[u8]) -> bool
    ensures { result ≡ is_plain_word word.now }
{
    match word {
        [] => false,
        [first, _, ..] => *first != b'0',
        _ => true,
    }
}

// The number that a word is in decimal.
#[tactic(auto, unfolding(crate::specs::TextWords::number_in))]
fn number_read(word: &[u8]) -> Option<u32>
    ensures { result ≡ number_in word.now }
{
    let (number, rest) = number_in_front(word);
    if rest.is_empty() && has_no_leading_zero(word) && number < 4_294_967_296 {
        Some(number as u32)
    } else {
        None
    }
}

/// The number that a word is in decimal, without leading zeros; None exactly where it is no number of 32 bits.
#[tactic(auto, using(crate::proofs::NumberTexts::number_is, crate::proofs::NumberTexts::number_is_none))]
pub fn number_named(word: &[u8]) -> Option<u32>
    ensures exact { result ≡ number_in word.now }
    ensures text { IfSome result (λ number. word.now ≡ decimal number) }
    ensures none { result ≡ None → (number : ℕ) → number < 2 ^ 32 → ¬ (word.now ≡ decimal number) }
{
    number_read(word)
}

// The value of a hexadecimal digit; 0 for every other byte.
fn nibble(byte: u8) -> u32
    ensures value { result ≡ nibble_of byte }
    ensures small { result < 16 }
{
    digit(byte) % 16
}

/// The word of the eight hexadecimal digits in front. A byte that is no digit, or is missing, counts as 0.
#[tactic(auto, unfolding(crate::specs::TextWords::word_at))]
pub fn word_in_front(bytes: &[u8]) -> u32
    ensures { result ≡ word_at bytes.now }
{
    nibble(byte_at(bytes, 0)) * 268_435_456
        + nibble(byte_at(bytes, 1)) * 16_777_216
        + nibble(byte_at(bytes, 2)) * 1_048_576
        + nibble(byte_at(bytes, 3)) * 65_536
        + nibble(byte_at(bytes, 4)) * 4_096
        + nibble(byte_at(bytes, 5)) * 256
        + nibble(byte_at(bytes, 6)) * 16
        + nibble(byte_at(bytes, 7))
}

// The word that bytes are the text of.
#[tactic(auto, unfolding(crate::specs::TextWords::word_in))]
fn word_read(bytes: &[u8]) -> Option<u32>
    ensures { result ≡ word_in bytes.now }
{
    let word = word_in_front(skip(bytes, 2));
    if bytes == hex_word(word).as_slice() {
        Some(word)
    } else {
        None
    }
}

/// The word that stands as 0x and eight hexadecimal digits in lower case; None exactly where no word does.
#[tactic(auto, using(crate::proofs::WordTexts::word_is, crate::proofs::WordTexts::word_is_none))]
pub fn hex_word_named(bytes: &[u8]) -> Option<u32>
    ensures exact { result ≡ word_in bytes.now }
    ensures text { IfSome result (λ word. bytes.now ≡ hex_word_of word) }
    ensures none { result ≡ None → (word : ℕ) → word < 2 ^ 32 → ¬ (bytes.now ≡ hex_word_of word) }
{
    word_read(bytes)
}

// The slot with a name of two letters, if any has that name.
fn slot_of(first: u8, second: u8) -> Slot
    ensures { result ≡ slot_of_letters first second }
{
    match (first, second) {
        (b'u', b'1') => Slot::First,
        (b'u', _) => Slot::Second,
        (b'a', b'd') => Slot::Address,
        (b'a', b'0') => Slot::Arg0,
        (b'a', b'1') => Slot::Arg1,
        (b'a', _) => Slot::Arg2,
        (b'r', _) => Slot::Result,
        (b'd', _) => Slot::Decision,
        (b'n', _) => Slot::Number,
        (b'i', _) => Slot::SecretIn,
        (b'o', _) => Slot::ByteOut,
        _ => Slot::Status,
    }
}

// A number as one of 8 bits, or 0.
fn short(number: u64) -> u8
    ensures { result ≡ short_number number }
{
    if number < 256 { number as u8 } else { 0 }
}

/// The slot that may stand in front, and the rest. It is the one that stands there, where one does and no digit
/// follows it.
#[tactic(auto, unfolding(crate::specs::TextWords::slot_at))]
pub fn slot_in_front(bytes: &[u8]) -> (Slot, &[u8])
    ensures { (result.0, result.1.now) ≡ slot_at bytes.now }
{
    let first = byte_at(bytes, 0);
    let second = byte_at(bytes, 1);
    let (number, rest) = number_in_front(skip(bytes, 1));
    if first == b'x' {
        (Slot::OutReg(short(number)), rest)
    } else if first == b'r' && second.is_ascii_digit() {
        (Slot::OutRange(short(number)), rest)
    } else {
        (slot_of(first, second), skip(bytes, 2))
    }
}

// Whether digits are those of a number.
fn is_decimal_of(number: u8, digits: &[u8]) -> bool
    ensures { result ≡ bytes_eq digits.now (decimal number) }
{
    match number_named(digits) {
        Some(found) => found == u32::from(number),
        None => false,
    }
}

// Whether a word is the text of a slot.
fn is_text_of(slot: Slot, word: &[u8]) -> bool
    ensures { result ≡ bytes_eq word.now (slot_text slot) }
{
    let (name, number) = slot.parts();
    match number {
        None => word == name.as_bytes(),
        Some(number) => match after(name.as_bytes(), word) {
            Some(digits) => is_decimal_of(number, digits),
            None => false,
        },
    }
}

// The known slot that a word is the text of.
#[tactic(auto, unfolding(crate::specs::TextWords::slot_in))]
fn slot_read(word: &[u8]) -> Option<Slot>
    ensures { result ≡ slot_in word.now }
{
    let (slot, _) = slot_in_front(word);
    if slot.is_known() && is_text_of(slot, word) {
        Some(slot)
    } else {
        None
    }
}

/// The known slot that has this text; None exactly where none has it.
#[tactic(auto, using(crate::proofs::SlotTexts::slot_is))]
pub fn slot_named(word: &[u8]) -> Option<Slot>
    ensures exact { result ≡ slot_in word.now }
    ensures text { IfSome result (λ slot. word.now ≡ slot_text slot) }
    ensures known { IfSome result (λ slot. IsTrue (is_slot slot)) }
    ensures none { result ≡ None → (slot : Slot) → IsTrue (is_slot slot) → ¬ (word.now ≡ slot_text slot) }
{
    slot_read(word)
}
