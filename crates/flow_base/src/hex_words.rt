ghost use Rattle.std.specs.Prelude.{◌≡◌, ◌<◌, ◌≤◌, Some};
ghost use Rattle.std.specs.Fmt.{DisplaysOnOk};
ghost use Rattle.flow_base.specs.HexWords.{digit_of, hex_digit, hex_digits as hex_digits_of};
ghost use Rattle.flow_base.specs.HexWords.{hex_word as hex_word_of};

use std::fmt;

/// A digit below 16, in lower case.
fn glyph(digit: u32) -> u8
    requires { digit < 16 }
    ensures { result ≡ hex_digit digit }
{
    if digit < 10 {
        48 + digit as u8
    } else {
        87 + digit as u8
    }
}

/// The value of a hexadecimal digit of either case; 16 for every other byte.
pub fn digit(byte: u8) -> u32
    ensures exact { result ≡ digit_of byte }
    ensures small { result ≤ 16 }
{
    match byte {
        b'0'..=b'9' => u32::from(byte - b'0'),
        b'a'..=b'f' => u32::from(byte - b'a') + 10,
        b'A'..=b'F' => u32::from(byte - b'A') + 10,
        _ => 16,
    }
}

/// The eight hexadecimal digits of a word, the highest first, in lower case.
pub fn hex_digits(word: u32) -> [u8; 8]
    ensures { result ≡ hex_digits_of word }
{
    [
        glyph(word / 268_435_456 % 16),
        glyph(word / 16_777_216 % 16),
        glyph(word / 1_048_576 % 16),
        glyph(word / 65_536 % 16),
        glyph(word / 4_096 % 16),
        glyph(word / 256 % 16),
        glyph(word / 16 % 16),
        glyph(word % 16),
    ]
}

/// `0x` and the eight hexadecimal digits of a word, in lower case: the text of an address or a word of the guest.
pub fn hex_word(word: u32) -> [u8; 10]
    ensures { result ≡ hex_word_of word }
{
    let [a, b, c, d, e, f, g, h] = hex_digits(word);
    [b'0', b'x', a, b, c, d, e, f, g, h]
}

/// Writes a word as [`hex_word`] gives it.
#[tactic(auto, using(crate::proofs::HexText::padded_word))]
fn write_word<W: fmt::Write>(f: &mut fmt::Formatter<W>, word: u32) -> fmt::Result
    ensures { DisplaysOnOk W.write_str_gives f.old result (Some (hex_word_of word)) f.new }
{
    write!(f, "0x{word:08x}")
}

/// An address or a word of the guest, which shows as `0x` and its eight hexadecimal digits, in lower case.
#[derive(Clone, Copy)]
pub struct HexWord(pub u32);

impl fmt::Display for HexWord {
    ghost use Rattle.std.specs.Prelude.{Some};
    ghost use Rattle.flow_base.specs.HexWords.{hex_word};

    ghost output = { λ word. Some (hex_word word.0) };

    fn fmt<W: fmt::Write>(&self, f: &mut fmt::Formatter<W>) -> fmt::Result {
        write_word(f, self.0)
    }
}
