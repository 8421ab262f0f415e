ghost use Rattle.std.specs.Prelude.{◌≡◌, ◌≤◌, ◌<◌, ◌+◌, ◌^◌, ◌++◌, codes, length, IfOk, IsTrue, OnOk};
ghost use Rattle.flow_base.specs.HexWords.{hex_digits, hex_word};
ghost use Rattle.elf32_loader.specs.Segments.{are_inside, end_of, highest_end};
ghost use Rattle.rv32im_asm.specs.Listing.{line, lines_from, listing, padding as padding_of};
ghost use Rattle.rv32im_asm.specs.Listing.{segment_lines as segment_lines_of, word_text as word_text_of};

use crate::texts::instr_text;
use elf32_loader::{Image, Segment};
use flow_base::{Bytes, NoMemory, hex_digits, hex_word, put};
use rv32im_decode::decode;
use std::alloc::Global;

/// The instruction of a word, or a dash where there is none.
fn word_text(alloc: Global, word: u32) -> Result<Bytes, NoMemory>
    ensures { IfOk result (λ text. text ≡ word_text_of word) }
{
    match decode(word) {
        Some(instr) => instr_text(alloc, &instr),
        None => Bytes::from_slice(alloc, b"-"),
    }
}

/// Puts an address and a word in eight digits at the end of a text, each with a space after it.
fn put_word(text: &mut Vec<u8>, address: u32, word: u32) -> Result<(), NoMemory>
    ensures { OnOk result (text.new.items
        ≡ text.old.items ++ (hex_word address ++ (codes " " ++ (hex_digits word ++ codes " ")))) }
{
    put(text, &hex_word(address))?;
    put(text, b" ")?;
    put(text, &hex_digits(word))?;
    put(text, b" ")
}

/// Puts the line of a word at the end of a text.
fn put_line(alloc: Global, text: &mut Vec<u8>, address: u32, word: u32) -> Result<(), NoMemory>
    ensures { OnOk result (text.new.items ≡ text.old.items ++ line address word) }
{
    put_word(text, address, word)?;
    let shown = word_text(alloc, word)?;
    put(text, shown.as_slice())?;
    put(text, b"\n")
}

/// The lines of bytes that stand from an address on.
#[tactic(auto, using(crate::proofs::Listings::lines_short, crate::proofs::Listings::lines_more))]
fn word_lines(alloc: Global, address: u32, bytes: &[u8]) -> Result<Vec<u8>, NoMemory>
    requires { address + length bytes.now < 2 ^ 32 }
    ensures { IfOk result (λ text. text.items ≡ lines_from address bytes.now) }
{
    let mut text = Vec::new(alloc);
    let mut place = address;
    let mut rest = bytes;
    while let [a, b, c, d, more @ ..] = rest {
        put_line(
            alloc,
            &mut text,
            place,
            u32::from_le_bytes([*a, *b, *c, *d]),
        )?;
        place += 4;
        rest = more;
    }
    Ok(text)
}

/// How many bytes stand before the first multiple of 4 from an address on.
fn padding(address: u32) -> u32
    ensures value { result ≡ padding_of address }
    ensures bound { result < 4 }
{
    (4 - address % 4) % 4
}

/// The lines of a segment.
#[tactic(auto, using(crate::proofs::Listings::lines_none))]
fn segment_lines(alloc: Global, segment: &Segment) -> Result<Vec<u8>, NoMemory>
    requires { end_of segment.now ≤ highest_end }
    ensures { IfOk result (λ text. text.items ≡ segment_lines_of segment.now) }
{
    let skipped = padding(segment.address);
    match segment.bytes.as_slice().get(skipped as usize..) {
        Some(bytes) => word_lines(alloc, segment.address + skipped, bytes),
        None => Ok(Vec::new(alloc)),
    }
}

/// The lines of segments.
fn lines_of(alloc: Global, base: u32, segments: &[Segment]) -> Result<Bytes, NoMemory>
    requires { IsTrue (are_inside base segments.now) }
    ensures { IfOk result (λ text. text ≡ listing segments.now) }
{
    let mut text = Vec::new(alloc);
    let mut rest = segments;
    while let [segment, more @ ..] = rest {
        let lines = segment_lines(alloc, segment)?;
        text.extend_from_slice(lines.as_slice())?;
        rest = more;
    }
    Ok(Bytes::from_vec(text))
}

/// The listing of an image: for each segment in order and each multiple of 4 whose four bytes lie in the segment, a
/// line with the address, the word in eight hexadecimal digits, and the instruction of the word or `-` where it is
/// none. Lack of memory answers [`NoMemory`].
pub fn list(alloc: Global, image: &Image) -> Result<Bytes, NoMemory>
    ensures { IfOk result (λ text. text ≡ listing image.now.segments) }
{
    lines_of(alloc, image.base, image.segments.as_slice())
}
