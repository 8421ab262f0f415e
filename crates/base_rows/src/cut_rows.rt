//! Rows of texts of cuts. In a row a slash stands for a line feed, and a caret for a carriage return.

ghost use Rattle.std.specs.Prelude.{◌≡◌, ◌<◌, ◌^◌, length, IfSome};

use crate::cuts::{first_mask, fold_text, migrated_text, written};
use crate::input::put_line;
use crate::texts::bytes_of;
use cut_file::{Cut, CutFault, read_cut};
use flow_base::Bytes;
use std::alloc::{AllocError, Global};

/// How many bytes a file may have at most.
const LONGEST: usize = 1_048_576;

/// The file that a row spells; None where it is too long, or memory is short.
fn file_of(alloc: Global, row: &str) -> Option<Vec<u8>>
    ensures { IfSome result (λ file. length file.items < 2 ^ 32) }
{
    match bytes_of(alloc, row.as_bytes()) {
        Ok(file) if file.len() <= LONGEST => Some(file),
        _ => None,
    }
}

/// Adds the text of a cut with one point, which lists so many rounds of 64 masks and then more.
fn add_rounds(text: &mut String, count: u16, more: &str) -> Result<(), AllocError> {
    text.push_str("flowcheck-cut 1/secret 1/bits 1/point 0 0x00000000 u1 ")?;
    for _ in 0..count {
        text.push_str("63*0x00000001 1*0x00000002 ")?;
    }
    text.push_str(more)?;
    text.push_str("/end/")
}

/// The text of a cut with one point, which lists so many rounds of 64 masks and then what a row says.
fn rounds_of(alloc: Global, row: &str) -> Option<String> {
    let (count, more) = row.split_once(' ')?;
    let count = count.parse::<u16>().ok()?;
    let mut text = String::new(alloc);
    add_rounds(&mut text, count, more).ok()?;
    Some(text)
}

/// The texts of the fold of a cut in version 1, and of that cut in version 2; None where memory is short.
fn texts_of(alloc: Global, cut: &Cut) -> Option<(Bytes, Bytes)>
    requires { cut.now.version ≡ 1 }
{
    let folded = fold_text(alloc, cut).ok()?;
    let migrated = migrated_text(alloc, cut).ok()?;
    Some((folded, migrated))
}

/// The texts of the fold of the cut of a file in version 1, and of that cut in version 2; None where the file has no
/// such cut, or memory is short.
fn others_of(alloc: Global, file: &[u8]) -> Option<(Bytes, Bytes)>
    requires { length file.now < 2 ^ 32 }
{
    match read_cut(alloc, file) {
        Ok(cut) if cut.version == 1 => texts_of(alloc, &cut),
        _ => None,
    }
}

/// These texts of the file that a row spells.
fn others_of_row(alloc: Global, row: &str) -> Option<(Bytes, Bytes)> {
    let file = file_of(alloc, row)?;
    others_of(alloc, file.as_slice())
}

/// Prints whether what is written of a file is that file.
fn print_whether_same(rt: &HostRuntime, same: bool) -> bool {
    if same {
        println!(rt; "read and written back").is_ok()
    } else {
        println!(rt; "another text is written").is_ok()
    }
}

/// Prints whether what is written of a file is that file, or its first fault.
fn print_written(rt: &HostRuntime, file: &[u8]) -> bool
    requires { length file.now < 2 ^ 32 }
{
    match written(rt.alloc(), file) {
        Ok(text) => print_whether_same(rt, text.as_slice() == file),
        Err(CutFault::Memory) => false,
        Err(fault) => println!(rt; "{fault}").is_ok(),
    }
}

/// Prints that a file is read and written back as it is, or its first fault.
fn print_cut(rt: &HostRuntime, row: &str) -> bool {
    match file_of(rt.alloc(), row) {
        Some(file) => print_written(rt, file.as_slice()),
        None => false,
    }
}

/// Prints the texts of the fold of a cut, and of the cut in version 2.
fn print_fold(rt: &HostRuntime, row: &str) -> bool {
    match others_of_row(rt.alloc(), row) {
        Some((folded, migrated)) => {
            put_line(rt, folded.as_slice()) && put_line(rt, migrated.as_slice())
        }
        None => false,
    }
}

/// Prints the text of the fold of a cut, or that the fold is the cut in version 2.
fn print_folded(rt: &HostRuntime, row: &str) -> bool {
    match others_of_row(rt.alloc(), row) {
        Some((folded, migrated)) => {
            if folded.as_slice() == migrated.as_slice() {
                println!(rt; "all masks are kept").is_ok()
            } else {
                put_line(rt, folded.as_slice())
            }
        }
        None => false,
    }
}

/// Prints the text of the fold of a cut of so many rounds, or that the fold is the cut in version 2.
fn print_rounds(rt: &HostRuntime, row: &str) -> bool {
    match rounds_of(rt.alloc(), row) {
        Some(text) => print_folded(rt, text.as_str()),
        None => false,
    }
}

/// Prints a mask, if there is one.
fn print_first(rt: &HostRuntime, mask: Option<u32>) -> bool {
    match mask {
        Some(mask) => println!(rt; "mask {mask:x}").is_ok(),
        None => println!(rt; "no mask").is_ok(),
    }
}

/// Prints the mask at a visit of the first point of a cut.
fn print_mask(rt: &HostRuntime, row: &str) -> bool {
    let (visit, text) = row.split_once(' ').unwrap_or((row, ""));
    let visit = visit.parse::<u64>().unwrap_or(0);
    match file_of(rt.alloc(), text) {
        Some(file) => print_first(rt, first_mask(rt.alloc(), file.as_slice(), visit)),
        None => false,
    }
}

/// Prints the answer of a row; whether it is one of these rows, is printed, and memory is not short.
pub fn print(rt: &HostRuntime, name: &str, row: &str) -> bool {
    match name {
        "cut" => print_cut(rt, row),
        "fold" => print_fold(rt, row),
        "rounds" => print_rounds(rt, row),
        "mask" => print_mask(rt, row),
        _ => false,
    }
}
