ghost use Rattle.std.specs.Prelude.{◌≡◌, ◌≤◌, IfOk, OnOk, OnErr, Some, option_map, List as Seq};
ghost use Rattle.flow_base.specs.Counts.{Rose};
ghost use Rattle.flow_base.specs.Puts.{Puts};
ghost use Rattle.flow_base.specs.MemorySink.{empty_sink, taken_of, fail_of, sink_after, put_answer};

use crate::lists::{List, NoMemory};
use crate::putting::{Sink, SinkFault};
use std::alloc::Global;
use std::marker::Model;

/// A put that fails.
#[derive(Clone, Copy)]
pub struct SinkFail {
    /// The number of the put, counted from 1.
    pub call: u64,
    /// How many bytes it takes before it fails, as far as its piece has them and there is room.
    pub taken: u32,
}

/// A sink in memory with room for a number of bytes. A put fails exactly where its number is listed or its piece does
/// not fit the room that is left.
#[derive(Drop)]
pub struct MemorySink {
    bytes: Vec<u8>,
    room: usize,
    fails: List<SinkFail>,
    calls: u64,
    faults: u64,
}

impl Model for MemorySink {
    ghost use Rattle.std.specs.Prelude.{◌+◌, ◌≤◌, vec_len, vec_capacity};
    ghost use Rattle.flow_base.specs.MemorySink.{SinkState};

    ghost Value = { SinkState };

    ghost view = { λ s. record { taken = s.bytes.items; room = s.room; fails = s.fails; calls = s.calls; faults = s.faults } };

    ghost invariant = { λ s. vec_len s.bytes + s.room ≤ vec_capacity s.bytes };
}

/// How many bytes the call of a number is to take before it fails; None where no item has the number.
fn fail_at(fails: &[SinkFail], call: u64) -> Option<u32>
    ensures { result ≡ fail_of fails.now call }
{
    for fail in fails {
        if fail.call == call {
            return Some(fail.taken);
        }
    }
    None
}

impl MemorySink {
    /// An empty sink with room for `room` bytes, whose listed puts fail. The one error is `NoMemory`.
    pub fn new(alloc: Global, room: u32, fails: List<SinkFail>) -> Result<MemorySink, NoMemory>
        ensures { IfOk result (λ sink. sink ≡ empty_sink room fails) }
    {
        Ok(MemorySink {
            bytes: Vec::with_capacity(alloc, room as usize)?,
            room: room as usize,
            fails,
            calls: 0,
            faults: 0,
        })
    }

    /// The bytes taken so far.
    pub fn taken(&self) -> &[u8]
        ensures { result.now ≡ self.now.taken }
    {
        self.bytes.as_slice()
    }
}

impl Sink for MemorySink {
    ghost use Rattle.std.specs.Prelude.{Some};
    ghost use Rattle.flow_base.specs.MemorySink.{taken_of};

    ghost faults = { λ sink. sink.faults };

    ghost told = { λ sink. Some (taken_of sink) };

    /// As [`Sink::put`]. It takes no memory.
    fn put(&mut self, bytes: &[u8]) -> Result<(), SinkFault>
        ensures puts { Puts bytes.now result (Some (taken_of self.old)) (Some (taken_of self.new)) }
        ensures cause { OnErr result (Rose self.old.faults self.new.faults) }
        ensures kept { OnOk result (self.new.faults ≡ self.old.faults) }
        ensures faults { self.old.faults ≤ self.new.faults }
        ensures answer { result ≡ put_answer self.old bytes.now }
        ensures after { self.new ≡ sink_after self.old bytes.now }
    {
        self.calls = self.calls.saturating_add(1);
        let said = fail_at(self.fails.as_slice(), self.calls);
        let fits = bytes.len() <= self.room;
        let count = match said {
            Some(taken) => (taken as usize).min(self.room).min(bytes.len()),
            None => bytes.len().min(self.room),
        };
        let _ = self.bytes.extend_from_slice(&bytes[..count]);
        self.room -= count;
        if said.is_none() && fits {
            return Ok(());
        }
        self.faults = self.faults.saturating_add(1);
        Err(SinkFault::Failed)
    }
}
