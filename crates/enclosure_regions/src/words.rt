ghost use Rattle.std.specs.Prelude.{◌≡◌, IfSome, IsTrue};
ghost use Rattle.enclosure_regions.specs.Regions.{is_code_address};
ghost use Rattle.enclosure_regions.specs.Words.{aligned as aligned_word, digits_after, digits_in, place_in};
ghost use Rattle.enclosure_regions.specs.Words.{word_in, word_of};

use flow_base::digit;

// The word of hexadecimal digits, or of none; None where a byte is no digit, or past 32 bits.
fn all_digits(text: &[u8]) -> Option<u32>
    ensures { result ≡ digits_after 0 text.now }
{
    let mut word: u32 = 0;
    let mut rest = text;
    while let [byte, more @ ..] = rest {
        let digit = digit(*byte);
        if digit >= 16 || word >= 0x1000_0000 {
            return None;
        }
        word = word * 16 + digit;
        rest = more;
    }
    Some(word)
}

// The word of one to eight hexadecimal digits.
fn digits(text: &[u8]) -> Option<u32>
    ensures { result ≡ digits_in text.now }
{
    if text.is_empty() || text.len() > 8 {
        return None;
    }
    all_digits(text)
}

// The word of `0x` and its digits.
fn word(text: &[u8]) -> Option<u32>
    ensures { result ≡ word_in text.now }
{
    match text {
        [b'0', b'x', digits_text @ ..] => digits(digits_text),
        _ => None,
    }
}

// A word that is a multiple of 4.
fn aligned(word: u32) -> Option<u32>
    ensures exact { result ≡ aligned_word word }
    ensures place { IfSome result (λ place. IsTrue (is_code_address place)) }
{
    if word % 4 == 0 { Some(word) } else { None }
}

/// The address of an instruction: `0x` and one to eight hexadecimal digits of either case, a multiple of 4.
pub fn place(text: &[u8]) -> Option<u32>
    ensures exact { result ≡ place_in text.now }
    ensures place { IfSome result (λ place. IsTrue (is_code_address place)) }
{
    aligned(word(text)?)
}

/// A whole number from -2^31 to 2^32 - 1, modulo 2^32.
pub fn offset(number: i64) -> Option<u32>
    ensures { result ≡ word_of number }
{
    if number >= 0 {
        if number < 0x1_0000_0000 {
            Some(number as u32)
        } else {
            None
        }
    } else {
        if number >= -0x8000_0000 {
            Some((number + 0x1_0000_0000) as u32)
        } else {
            None
        }
    }
}
