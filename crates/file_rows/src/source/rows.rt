ghost use Rattle.std.specs.Prelude.{◌<◌, ◌^◌, IfSome, length};

use crate::source::agreeing::{assembles_to, is_listed_as, is_refused_with};
use std::alloc::Global;

/// The most bytes that a row may have.
const LONGEST: usize = 1_048_576;

/// The bytes of a source in which a semicolon stands for the end of a line; None where it is too long or memory is
/// short.
fn source_of(alloc: Global, text: &str) -> Option<Vec<u8>>
    ensures { IfSome result (λ source. length source.items < 2 ^ 32) }
{
    let mut source = Vec::new(alloc);
    for byte in text.as_bytes() {
        let byte = if *byte == b';' { b'\n' } else { *byte };
        source.push(byte).ok()?;
    }
    if source.len() > LONGEST {
        return None;
    }
    Some(source)
}

/// The bytes of words in hexadecimal digits, the lowest of each first; None where a text is no such words.
fn bytes(alloc: Global, text: &str) -> Option<Vec<u8>> {
    let mut bytes = Vec::new(alloc);
    for field in text.split(' ') {
        let word = u32::from_str_radix(field, 16).ok()?;
        bytes.extend_from_slice(&word.to_le_bytes()).ok()?;
    }
    Some(bytes)
}

/// What a row says of its source.
#[derive(Clone, Copy)]
enum Wanted<'a> {
    /// It assembles to these words.
    Words(&'a str),
    /// It is listed so.
    Listing(&'a str),
    /// It is refused with this fault.
    Fault(&'a str),
}

/// The source of a row, and what the row says of it.
fn parts<'a>(row: &'a str) -> Option<(&'a str, Wanted<'a>)> {
    if let Some((text, fault)) = row.split_once(" => ") {
        return Some((text, Wanted::Fault(fault)));
    }
    if let Some((text, listing)) = row.split_once(" == ") {
        return Some((text, Wanted::Listing(listing)));
    }
    let (text, words) = row.split_once(" -> ")?;
    Some((text, Wanted::Words(words)))
}

/// Whether a source is as is wanted; None where that is no words or memory is short.
fn is_as_wanted(alloc: Global, source: &[u8], wanted: Wanted) -> Option<bool>
    requires { length source.now < 2 ^ 32 }
{
    match wanted {
        Wanted::Words(words) => assembles_to(alloc, source, &bytes(alloc, words)?),
        Wanted::Listing(listing) => is_listed_as(alloc, source, &source_of(alloc, listing)?),
        Wanted::Fault(fault) => is_refused_with(alloc, source, fault),
    }
}

/// Whether the source of a row `SOURCE -> WORD WORD ..` assembles to its words, that of a row `SOURCE == LISTING` is
/// listed so, or that of a row `SOURCE => FAULT` is refused with its fault; None where it is no such row or memory is
/// short.
pub fn agrees(alloc: Global, row: &str) -> Option<bool> {
    let (text, wanted) = parts(row)?;
    is_as_wanted(alloc, &source_of(alloc, text)?, wanted)
}
