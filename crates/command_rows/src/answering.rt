//! One function answers the rows of all tables.

ghost use Rattle.std.specs.Prelude.{◌≡◌, true};
ghost use Rattle.command_rows.specs.Answering.{IsWanted};

use crate::books::answer_by_books;
use crate::tables::{Content, Failing, Row};
use flow_base::{Bytes, Held, List, MemoryFiles, MemorySink, NoMemory, SinkFail};
use std::alloc::Global;

/// The public input and the secrets, which are held for each row.
const INPUTS: [(&str, Content); 8] = [
    ("public", Content::Text("")),
    ("s3", Content::Raw(&[3])),
    ("s4", Content::Raw(&[4])),
    ("s5", Content::Raw(&[5])),
    ("s7", Content::Raw(&[7])),
    ("s65", Content::Raw(&[65])),
    ("s34", Content::Raw(&[3, 4])),
    ("s7777", Content::Raw(&[7, 7, 7, 7])),
];

/// The ELF header and the program header of one segment at 0x10000, without the sizes and what follows them.
const HEAD: [u8; 68] = [
    0x7f, 0x45, 0x4c, 0x46, 1, 1, 1, 0, 0, 0, 0, 0, 0, 0, 0, 0, 2, 0, 243, 0, 1, 0, 0, 0, 0, 0, 1,
    0, 52, 0, 0, 0, 0, 0, 0, 0, 0, 0, 0, 0, 52, 0, 32, 0, 1, 0, 0, 0, 0, 0, 0, 0, 1, 0, 0, 0, 84,
    0, 0, 0, 0, 0, 1, 0, 0, 0, 1, 0,
];

/// A program file of one segment at 0x10000.
fn program(alloc: Global, code: &[u32]) -> Result<Vec<u8>, NoMemory> {
    let size = ((4 * (code.len() & 0xffff)) as u32).to_le_bytes();
    let mut bytes = HEAD.to_vec(alloc)?;
    bytes.extend_from_slice(&size)?;
    bytes.extend_from_slice(&size)?;
    bytes.extend_from_slice(&[7, 0, 0, 0, 1, 0, 0, 0])?;
    for word in code {
        bytes.extend_from_slice(&word.to_le_bytes())?;
    }
    Ok(bytes)
}

/// The bytes of a content.
fn bytes_of(alloc: Global, content: Content) -> Result<Bytes, NoMemory> {
    match content {
        Content::Text(text) => Bytes::from_slice(alloc, text.as_bytes()),
        Content::Raw(bytes) => Bytes::from_slice(alloc, bytes),
        Content::Code(code) => Ok(Bytes::from_vec(program(alloc, code)?)),
        Content::Head(count) => Bytes::from_slice(alloc, &HEAD[..count.min(HEAD.len())]),
        Content::Zeros(count) => Ok(Bytes::from_vec(vec![in alloc; 0u8; count]?)),
    }
}

/// Holds more files.
fn hold(
    alloc: Global,
    names: &mut List<Held>,
    files: &[(&'static str, Content)],
) -> Result<(), NoMemory> {
    for (name, content) in files {
        names.push(Held {
            name: Bytes::from_slice(alloc, name.as_bytes())?,
            bytes: bytes_of(alloc, *content)?,
        })?;
    }
    Ok(())
}

/// The files of a row.
fn files_of(alloc: Global, row: &Row) -> Result<MemoryFiles, NoMemory> {
    let mut names = List::new(alloc);
    hold(alloc, &mut names, row.files)?;
    hold(alloc, &mut names, &INPUTS)?;
    let mut fails = List::new(alloc);
    if let Failing::Load(number) = row.failing {
        fails.push(number)?;
    }
    Ok(MemoryFiles {
        names,
        fails,
        loads: 0,
        faults: 0,
    })
}

/// The sink of a row.
fn sink_of(alloc: Global, row: &Row) -> Result<MemorySink, NoMemory> {
    let mut fails = List::new(alloc);
    if let Failing::Put(taken) = row.failing {
        fails.push(SinkFail { call: 1, taken })?;
    }
    MemorySink::new(alloc, 4000, fails)
}

/// The words of a row.
fn words_of(alloc: Global, row: &Row) -> Result<Vec<String>, NoMemory> {
    let mut words = Vec::new(alloc);
    for word in row.words.split(' ') {
        words.push(word.to_string(alloc)?).map_err(|_| NoMemory)?;
    }
    Ok(words)
}

/// Whether status, number of loads and bytes that were put are those of a row, of which the text has these bytes.
fn is_wanted(row: &Row, text: &[u8], status: u8, loads: u64, taken: &[u8]) -> bool
    ensures is { result ≡ true → IsWanted row.now text.now status loads taken.now }
    ensures all { IsWanted row.now text.now status loads taken.now → result ≡ true }
{
    status == row.status && loads == row.loads && taken == text
}

/// Whether a row is answered as it says.
pub fn is_answered(alloc: Global, row: &Row) -> Result<bool, NoMemory> {
    let text = bytes_of(alloc, row.text)?;
    let words = words_of(alloc, row)?;
    let mut files = files_of(alloc, row)?;
    let mut sink = sink_of(alloc, row)?;
    let status = answer_by_books(alloc, words, &mut files, &mut sink);
    Ok(is_wanted(row, text.as_slice(), status, files.loads, sink.taken()))
}
