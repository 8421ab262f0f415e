ghost use Rattle.std.specs.Prelude.{◌≡◌, ◌+◌, ◌^◌, ◌<◌, ◌≤◌, IfSome};
ghost use Rattle.flow_base.specs.Private.Reading.{KeepsLimit, IsReadOf};
ghost use Rattle.flow_base.specs.Private.Writing.{Writes};

use crate::lists::Bytes;
use crate::loading::{Files, LoadFault};
use crate::putting::{Sink, SinkFault};
use std::alloc::Global;
use std::io::{Read, Write};
use std::{fs, io};

/// The files of the machine that the program runs on, by path. It tells no bytes; each error of the system, and each
/// name that is no readable file, is a fault.
#[derive(Drop)]
pub struct DiskFiles {
    rt: HostRuntime,
    faults: u64,
}

/// The program's standard output. It tells no bytes; each error of the system, and a write that takes nothing of a
/// piece that is not empty, is a fault.
#[derive(Drop)]
pub struct StandardOut {
    rt: HostRuntime,
    faults: u64,
}

/// The bytes that a reader has left, at most `limit` of them. It reads no more than `limit` + 1 bytes.
fn read_whole<R: Read>(alloc: Global, reader: &mut R, limit: u32) -> Result<Bytes, LoadFault>
    requires { limit + 1 < 2 ^ 32 }
    ensures limit { KeepsLimit limit result }
    ensures bytes { IfSome (R.remaining reader.old) (IsReadOf limit result) }
{
    let mut all = Vec::new(alloc);
    let mut buffer = [0u8; 4096];
    for _ in 0..u64::MAX {
        let wanted = (limit as usize + 1 - all.len()).min(4096);
        match reader.read(&mut buffer[..wanted]) {
            Ok(0) => return Ok(Bytes::from_vec(all)),
            Ok(count) => {
                if all.extend_from_slice(&buffer[..count]).is_err() {
                    return Err(LoadFault::Memory);
                }
            }
            Err(_) => return Err(LoadFault::Failed),
        }
        if all.len() > limit as usize {
            return Err(LoadFault::TooLarge(limit + 1));
        }
    }
    Err(LoadFault::Failed)
}

impl DiskFiles {
    /// The files of this machine, with no fault so far.
    pub fn new(rt: HostRuntime) -> DiskFiles
        ensures { ⟦<DiskFiles as Files>⟧.faults result ≡ 0 }
    {
        DiskFiles { rt, faults: 0 }
    }
}

impl Files for DiskFiles {
    ghost use Rattle.std.specs.Prelude.{None};

    ghost faults = { λ files. files.faults };

    ghost told = { λ _. None };

    /// As [`Files::load`], with a path as the name. It reads at most `limit` + 1 bytes.
    fn load(&mut self, alloc: Global, name: &str, limit: u32) -> Result<Bytes, LoadFault> {
        let answer = match fs::open(&self.rt, name) {
            Ok(mut file) => read_whole(alloc, &mut file, limit),
            Err(_) => Err(LoadFault::Failed),
        };
        if let Err(LoadFault::Failed) = answer {
            self.faults = self.faults.saturating_add(1);
        }
        answer
    }
}

/// Writes a piece to its end, or stops at the first error. To take nothing of a rest that is not empty is an error.
fn write_whole<W: Write>(writer: &mut W, piece: &[u8]) -> Result<(), SinkFault>
    ensures { Writes piece.now result (W.contents writer.old) (W.contents writer.new) }
{
    let mut done = 0;
    while done < piece.len() {
        match writer.write(&piece[done..]) {
            Ok(0) | Err(_) => return Err(SinkFault::Failed),
            Ok(count) => done += count,
        }
    }
    Ok(())
}

impl StandardOut {
    /// The standard output, with no fault so far.
    pub fn new(rt: HostRuntime) -> StandardOut
        ensures { ⟦<StandardOut as Sink>⟧.faults result ≡ 0 }
    {
        StandardOut { rt, faults: 0 }
    }
}

impl Sink for StandardOut {
    ghost use Rattle.std.specs.Prelude.{None};

    ghost faults = { λ out. out.faults };

    ghost told = { λ _. None };

    /// As [`Sink::put`], onto the standard output.
    fn put(&mut self, bytes: &[u8]) -> Result<(), SinkFault> {
        let answer = write_whole(&mut io::writer(&self.rt), bytes);
        if answer.is_err() {
            self.faults = self.faults.saturating_add(1);
        }
        answer
    }
}
