use elf32_loader::{Image, load_image};
use std::alloc::Global;

/// How many bytes a program may have.
const LONGEST: usize = 65_536;

/// How many bytes its file may have.
const LONGEST_FILE: usize = 65_620;

/// A program file (ELF32, System V ABI) of one segment at 0x10000, up to the segment's size.
const HEAD: [u8; 68] = [
    0x7f, 0x45, 0x4c, 0x46, 1, 1, 1, 0, 0, 0, 0, 0, 0, 0, 0, 0, 2, 0, 243, 0, 1, 0, 0, 0, 0, 0, 1,
    0, 52, 0, 0, 0, 0, 0, 0, 0, 0, 0, 0, 0, 52, 0, 32, 0, 1, 0, 0, 0, 0, 0, 0, 0, 1, 0, 0, 0, 84,
    0, 0, 0, 0, 0, 1, 0, 0, 0, 1, 0,
];

/// What follows the segment's size in the file and in memory: its flags and its alignment.
const TAIL: [u8; 8] = [7, 0, 0, 0, 1, 0, 0, 0];

/// The program whose bytes stand at 0x10000 and whose first instruction is there; None where it has no byte or more
/// than 65,536, or memory is short.
pub fn program(alloc: Global, code: &[u8]) -> Option<Image> {
    if code.len() > LONGEST {
        return None;
    }
    let size = (code.len() as u32).to_le_bytes();
    let mut file = Vec::new(alloc);
    for part in [HEAD.as_slice(), &size, &size, &TAIL, code] {
        file.extend_from_slice(part).ok()?;
    }
    if file.len() > LONGEST_FILE {
        return None;
    }
    load_image(alloc, file.as_slice()).ok()
}
