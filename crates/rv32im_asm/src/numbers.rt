//! Numbers, and a number with a register in parentheses.

ghost use Rattle.std.specs.Prelude.{◌≡◌, ◌<◌, ◌≤◌, min, option_map, IfSome, pos, neg_ℤ};
ghost use Rattle.rv32im_asm.specs.Operands.{at_most as at_most_of, digits_in, magnitude_of, negative_of};
ghost use Rattle.rv32im_asm.specs.Operands.{written_number, place_of, positive_of};
ghost use Rattle.rv32im_asm.specs.Operands.{closed as closed_in};
ghost use Rattle.rv32im_asm.specs.Lines.{cut_at as parts_at};

use crate::cutting::cut_at;
use flow_base::{digit, register_named};

/// A bound above every magnitude that a number may have.
const ABOVE: u64 = 0x1_0000_0000;

/// The number of one or more digits, or a bound where that is higher; None where a byte is no digit.
fn digits(base: u64, text: &[u8]) -> Option<u64>
    requires base_at_least { 1 ≤ base }
    requires base_at_most { base ≤ 16 }
    ensures exact { result ≡ option_map (min 4294967296) (digits_in base text.now) }
{
    if text.is_empty() {
        return None;
    }
    let mut number: u64 = 0;
    let mut rest = text;
    while let [byte, more @ ..] = rest {
        let digit = u64::from(digit(*byte));
        if digit >= base {
            return None;
        }
        number = ABOVE.min(number * base + digit);
        rest = more;
    }
    Some(number)
}

/// Decimal digits, or 0x and hexadecimal digits.
fn magnitude(text: &[u8]) -> Option<u64>
    ensures { result ≡ option_map (min 4294967296) (magnitude_of text.now) }
{
    match text {
        [b'0', b'x', hexadecimal @ ..] => digits(16, hexadecimal),
        _ => digits(10, text),
    }
}

/// A magnitude as a number below 0.
fn negative(magnitude: u64) -> Option<i64>
    ensures exact { result ≡ at_most_of 2147483648 (λ magnitude. neg_ℤ (pos magnitude)) magnitude }
{
    if magnitude <= 0x8000_0000 {
        Some(-(magnitude as i64))
    } else {
        None
    }
}

/// A magnitude as a number.
fn positive(magnitude: u64) -> Option<i64>
    ensures exact { result ≡ at_most_of 4294967295 pos magnitude }
{
    if magnitude <= 0xffff_ffff {
        Some(magnitude as i64)
    } else {
        None
    }
}

/// The number whose digits follow a minus sign.
#[tactic(auto, using(crate::proofs::Digits::bounded))]
fn below_zero(text: &[u8]) -> Option<i64>
    ensures { result ≡ negative_of text.now }
{
    negative(magnitude(text)?)
}

/// The number of digits.
#[tactic(auto, using(crate::proofs::Digits::bounded))]
fn from_zero(text: &[u8]) -> Option<i64>
    ensures { result ≡ positive_of text.now }
{
    positive(magnitude(text)?)
}

/// The number of a text.
pub fn number(text: &[u8]) -> Option<i64>
    ensures { result ≡ written_number text.now }
{
    match text {
        [b'-', rest @ ..] => below_zero(rest),
        _ => from_zero(text),
    }
}

/// The register before a closing parenthesis that ends the text.
fn closed(text: &[u8]) -> Option<u8>
    ensures exact { result ≡ closed_in (parts_at 41 text.now) }
    ensures below { IfSome result (λ register. register < 32) }
{
    let (name, rest) = cut_at(b')', text)?;
    if rest.is_empty() {
        register_named(name)
    } else {
        None
    }
}

/// A number with a register in parentheses.
pub fn place(text: &[u8]) -> Option<(i64, u8)>
    ensures exact { result ≡ place_of text.now }
    ensures below { IfSome result (λ place. place.1 < 32) }
{
    let (front, rest) = cut_at(b'(', text)?;
    let number = number(front)?;
    let register = closed(rest)?;
    Some((number, register))
}
