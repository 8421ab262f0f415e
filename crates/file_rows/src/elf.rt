//! Loads each row as the hexadecimal digits of a program file, and prints its image, or its first fault. What must be
//! printed was found by hand.

mod files;

use elf32_loader::{Image, Segment, load_image};
use files::file_of;
use std::io;

/// Prints the address of a segment, how many bytes it has, and the first of them, at most eight.
fn print_segment(rt: &HostRuntime, segment: &Segment) -> io::Result<()> {
    let bytes = segment.bytes.as_slice();
    let first = &bytes[..bytes.len().min(8)];
    println!(rt; "segment {:x} {} {first:?}", segment.address, bytes.len())
}

/// Prints the base and the entry of an image, and each segment.
fn print_image(rt: &HostRuntime, image: &Image) -> io::Result<()> {
    println!(rt; "image {:x} {:x}", image.base, image.entry)?;
    for segment in image.segments.as_slice() {
        print_segment(rt, segment)?;
    }
    Ok(())
}

/// Loads the program file of a row, and prints what comes of it.
pub fn follow(rt: &HostRuntime, row: &str) -> io::Result<()> {
    let Some(file) = file_of(rt.alloc(), row) else {
        return println!(rt; "no file, or memory is short");
    };
    match load_image(rt.alloc(), &file) {
        Ok(image) => print_image(rt, &image),
        Err(fault) => println!(rt; "{fault}"),
    }
}
