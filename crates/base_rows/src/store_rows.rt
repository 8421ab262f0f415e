//! Rows of loads and puts: over files and a sink in memory, of files on a disk, and onto the standard output.

use crate::input::{number, put_line};
use flow_base::{
    Bytes, DiskFiles, Files, Held, List, MemoryFiles, MemorySink, NoMemory, Sink, SinkFail,
    StandardOut,
};
use std::alloc::Global;

/// The files in memory, whose second load fails, and a sink for six bytes, whose second put takes one and fails.
#[derive(Drop)]
pub struct Stores {
    files: MemoryFiles,
    sink: MemorySink,
}

/// A file in memory.
fn held(alloc: Global, name: &str, text: &str) -> Result<Held, NoMemory> {
    let name = Bytes::from_slice(alloc, name.as_bytes())?;
    let bytes = Bytes::from_slice(alloc, text.as_bytes())?;
    Ok(Held { name, bytes })
}

/// The names and the texts of the files in memory; one name is held twice.
const HELD: [(&str, &str); 3] = [("a", "12345"), ("b", ""), ("a", "second")];

/// The files in memory, before the first load.
fn all_held(alloc: Global) -> Result<List<Held>, NoMemory> {
    let mut names = List::new(alloc);
    for (name, text) in HELD {
        names.push(held(alloc, name, text)?)?;
    }
    Ok(names)
}

/// The files in memory, whose second load fails.
fn memory_files(alloc: Global) -> Result<MemoryFiles, NoMemory> {
    let mut fails = List::new(alloc);
    fails.push(2)?;
    Ok(MemoryFiles {
        names: all_held(alloc)?,
        fails,
        loads: 0,
        faults: 0,
    })
}

/// The sink in memory.
fn memory_sink(alloc: Global) -> Result<MemorySink, NoMemory> {
    let mut fails = List::new(alloc);
    fails.push(SinkFail { call: 2, taken: 1 })?;
    MemorySink::new(alloc, 6, fails)
}

/// The name and the limit of a row.
fn name_and_limit<'a>(row: &'a str) -> Option<(&'a str, u32)> {
    match row.split_once(' ') {
        Some((name, limit)) => Some(name).zip(number(limit)),
        None => None,
    }
}

/// Prints what a load of a name within a limit answers.
fn print_load<F: Files>(rt: &HostRuntime, files: &mut F, row: &str) -> bool {
    match name_and_limit(row) {
        Some((name, limit)) if limit < u32::MAX => match files.load(rt.alloc(), name, limit) {
            Ok(bytes) => put_line(rt, bytes.as_slice()),
            Err(fault) => println!(rt; "{fault:?}").is_ok(),
        },
        _ => false,
    }
}

/// Prints what a put of bytes answers.
fn print_put<S: Sink>(rt: &HostRuntime, sink: &mut S, bytes: &[u8]) -> bool {
    match sink.put(bytes) {
        Ok(()) => println!(rt; "taken").is_ok(),
        Err(fault) => println!(rt; "{fault:?}").is_ok(),
    }
}

impl Stores {
    /// No load and no put was made; None where memory is short.
    pub fn new(alloc: Global) -> Option<Stores> {
        let files = memory_files(alloc).ok()?;
        let sink = memory_sink(alloc).ok()?;
        Some(Stores { files, sink })
    }

    /// Prints the answer of a row; whether it is one of these rows, is printed, and memory is not short.
    pub fn print(&mut self, rt: &HostRuntime, name: &str, row: &str) -> bool {
        match name {
            "load" => print_load(rt, &mut self.files, row),
            "disk" => print_load(rt, &mut DiskFiles::new(*rt), row),
            "put" => print_put(rt, &mut self.sink, row.as_bytes()),
            "stdout" => print_put(rt, &mut StandardOut::new(*rt), row.as_bytes()),
            "loads" => {
                println!(rt; "loads {} faults {}", self.files.loads, self.files.faults).is_ok()
            }
            "sink" => put_line(rt, self.sink.taken()),
            _ => false,
        }
    }
}
