//! Whether a cut names places at which its program has no instruction, as one of another program does.

use cut_file::{Cut, CutPoint, read_cut};
use elf32_loader::{Image, Segment, load_image};
use flow_base::{Bytes, Files, HexWord};
use help_texts::{CutNames, cut_names, other_cut_note};
use rv32im_decode::decode;
use std::alloc::Global;

/// How many bytes a program or a cut may have that is read once more.
const LIMIT: u32 = 1_048_576;

/// Whether a segment has an instruction at an address.
fn has_instruction(segment: &Segment, address: u32) -> bool {
    let Some(skipped) = address.checked_sub(segment.address) else {
        return false;
    };
    match segment.bytes.as_slice().get(skipped as usize..) {
        Some([a, b, c, d, ..]) => decode(u32::from_le_bytes([*a, *b, *c, *d])).is_some(),
        _ => false,
    }
}

/// Whether the program has an instruction where a point of a cut stands.
fn stands_at_instruction(image: &Image, point: &CutPoint) -> bool {
    for segment in image.segments.as_slice() {
        if has_instruction(segment, point.point.address) {
            return true;
        }
    }
    false
}

/// The address of the first point of a cut at which the program has no instruction.
fn first_strange(image: &Image, cut: &Cut) -> Option<u32> {
    for point in cut.points.as_slice() {
        if !stands_at_instruction(image, point) {
            return Some(point.point.address);
        }
    }
    None
}

/// That address, of the files of these names; None also where one can't be read.
fn strange_place<F: Files>(alloc: Global, files: &mut F, names: &CutNames) -> Option<u32> {
    let program = files.load(alloc, names.program.as_str(), LIMIT).ok()?;
    let cut = files.load(alloc, names.cut.as_str(), LIMIT).ok()?;
    let image = load_image(alloc, program.as_slice()).ok()?;
    let cut = read_cut(alloc, cut.as_slice()).ok()?;
    first_strange(&image, &cut)
}

/// What is told where the cut that words name has a point at which the program that they name has no instruction; None
/// where there is nothing to say, or a file is not there, is too long or is none of its kind.
pub fn note_of_cut<F: Files>(alloc: Global, files: &mut F, words: &[String]) -> Option<String> {
    let names = cut_names(alloc, words).ok()??;
    let place = strange_place(alloc, files, &names)?;
    let place = format!(in alloc; "{}", HexWord(place)).ok()?;
    other_cut_note(alloc, names.cut.as_str(), place.as_str()).ok()
}
