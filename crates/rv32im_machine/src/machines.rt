#![tactic(auto, unfolding(crate::specs::State::with_register, crate::specs::State::with_byte, crate::specs::State::saved, crate::specs::State::moved_to, crate::specs::State::entered, crate::specs::State::onward, crate::specs::State::ended, crate::specs::State::public_taken, crate::specs::State::secret_taken, crate::specs::State::break_moved, crate::specs::State::emitted))]

ghost use Rattle.std.specs.Prelude.{◌≡◌, ℕ, ◌+◌, ◌-◌, ◌*◌, ◌/◌, ◌%◌, ◌^◌, ◌<◌, ◌≤◌, ◌==◌, [], false, if◌then◌else◌, length, slice_index, vec_len, vec_capacity, IfOk, IsTrue};
ghost use Rattle.flow_base.specs.Guests.{is_inside, memory_size};
ghost use Rattle.flow_base.specs.Points.{is_slot};
ghost use Rattle.guest_calls.specs.Calls.{checked_write, moved_break};
ghost use Rattle.rv32im_machine.specs.State.{State, register_of, byte_of, word_at, with_register, with_byte, saved, moved_to, entered, onward, ended, public_taken, secret_taken, break_moved, emitted};
ghost use Rattle.rv32im_machine.specs.Language.{with_store, with_control};
ghost use Rattle.rv32im_machine.specs.Calls.{point};
ghost use Rattle.rv32im_machine.specs.Standing.{FitsSetting, piece_size, stand_of, stood, with_memory};
ghost use Rattle.rv32im_machine.specs.Start.{laid_at, start_on, zeros};

use crate::guest_memory::GuestMemory;
use crate::standing::Standing;
use crate::stepping::Stepped;
use flow_base::{Bytes, MEMORY_SIZE, NoMemory, Point, Registers, Slot};
use guest_calls::{WriteCheck, move_break, write_check};
use std::alloc::Global;
use std::marker::Model;

/// A guest with its memory, registers, inputs and output; contracts see it as a state.
#[derive(Drop)]
pub struct Machine {
    base: u32,
    memory: GuestMemory,
    registers: Registers,
    kept: Registers,
    pc: u32,
    region: u16,
    public: Bytes,
    public_at: usize,
    secret: Bytes,
    secret_at: usize,
    start_break: u32,
    current_break: u32,
    output: Vec<u8>,
    output_limit: u32,
    mode: Stepped,
}

impl Model for Machine {
    ghost use Rattle.std.specs.Prelude.{◌≡◌, ℕ, ◌+◌, ◌<◌, ◌≤◌, ◌^◌, length, vec_len, vec_capacity};
    ghost use Rattle.flow_base.specs.Guests.{memory_size};
    ghost use Rattle.rv32im_machine.specs.State.{State};

    ghost Value = { State };

    ghost view = { λ m. record {
      setting = record {
        base = m.base;
        start_break = m.start_break;
        public_input = m.public;
        secret_length = length m.secret;
        output_limit = m.output_limit;
      };
      secret = m.secret;
      control = record {
        pc = m.pc;
        public_at = m.public_at;
        secret_at = m.secret_at;
        current_break = m.current_break;
        output = m.output.items;
        mode = m.mode;
        region = m.region;
      };
      store = record { registers = m.registers; memory = m.memory; kept = m.kept };
    } };

    ghost invariant = { λ m. (m.base + memory_size < 2 ^ 32)
        × (m.public_at ≤ length m.public)
        × (m.secret_at ≤ length m.secret) × (length m.secret < 2 ^ 32)
        × (vec_len m.output ≤ m.output_limit) × (m.output_limit ≤ vec_capacity m.output) };
}

impl Machine {
    /// A guest at its entry, with this memory, both inputs unread and no output.
    pub(crate) fn at_start(
        base: u32,
        entry: u32,
        start_break: u32,
        memory: GuestMemory,
        public: Bytes,
        secret: Bytes,
        output: Vec<u8>,
        output_limit: u32,
    ) -> Machine
        requires base { base + memory_size < 2 ^ 32 }
        requires secret { length secret < 2 ^ 32 }
        requires output { output.items ≡ [] }
        requires room { output_limit ≤ vec_capacity output }
        ensures { result ≡ start_on memory base entry start_break public secret output_limit }
    {
        let mut registers = Registers::new();
        registers.set(2, base + MEMORY_SIZE - 64);
        Machine {
            base,
            memory,
            registers,
            kept: Registers::new(),
            pc: entry,
            region: 0,
            public,
            public_at: 0,
            secret,
            secret_at: 0,
            start_break,
            current_break: start_break,
            output,
            output_limit,
            mode: Stepped::Ran,
        }
    }

    /// The program counter, an address.
    pub fn pc(&self) -> u32
        ensures { result ≡ self.now.control.pc }
    {
        self.pc
    }

    /// The lowest address of guest memory.
    pub fn base(&self) -> u32
        ensures { result ≡ self.now.setting.base }
    {
        self.base
    }

    /// The 32 registers.
    pub fn registers(&self) -> &Registers
        ensures { result.now ≡ self.now.store.registers }
    {
        &self.registers
    }

    /// The bytes that were written so far.
    pub fn output(&self) -> &[u8]
        ensures { result.now ≡ self.now.control.output }
    {
        self.output.as_slice()
    }

    /// The bytes that were written, handed out. It takes no memory.
    pub fn into_output(self) -> Bytes
        ensures { result ≡ self.control.output }
    {
        Bytes::from_vec(self.output)
    }

    /// The bytes that were written and guest memory, handed out, the second for another guest to begin in. It takes no
    /// memory.
    pub fn into_parts(self) -> (Bytes, GuestMemory)
        ensures output { result.0 ≡ self.control.output }
        ensures memory { result.1 ≡ self.store.memory }
    {
        (Bytes::from_vec(self.output), self.memory)
    }

    /// Whether the machine has run on, has exited or is stopped.
    pub fn mode(&self) -> Stepped
        ensures { result ≡ self.now.control.mode }
    {
        self.mode
    }

    /// The point of a slot at the program counter, in the entered region (0 outside regions).
    pub(crate) fn point(&self, slot: Slot) -> Point
        requires { IsTrue (is_slot slot) }
        ensures { result ≡ point self.now.control slot }
    {
        Point {
            region: self.region,
            address: self.pc,
            slot,
        }
    }

    /// The value of a register, 0 to 31.
    pub fn register(&self, register: u8) -> u32
        requires { register < 32 }
        ensures { result ≡ register_of self.now.store register }
    {
        self.registers.get(register)
    }

    /// The number of the entered region, 0 outside regions.
    pub fn region(&self) -> u16
        ensures { result ≡ self.now.control.region }
    {
        self.region
    }

    /// Sets the number of the entered region, 0 outside regions.
    pub fn set_region(&mut self, region: u16)
        ensures { self.new ≡ with_control (entered region self.old.control) self.old }
    {
        self.region = region;
    }

    /// The 32 registers as they were when they were last kept, at the entry of a region.
    pub fn kept(&self) -> &Registers
        ensures { result.now ≡ self.now.store.kept }
    {
        &self.kept
    }

    /// Keeps every register, as at the entry of a region. It takes no memory.
    pub fn save(&mut self)
        ensures { self.new ≡ with_store (saved self.old.store) self.old }
    {
        self.kept = self.registers;
    }

    /// Whether each of `count` bytes from the address on is one of guest memory.
    pub(crate) fn is_inside(&self, address: u32, count: u32) -> bool
        ensures inside { result ≡ is_inside self.now.setting.base address count }
        ensures below { IsTrue result → address + count ≤ 2 ^ 32 }
    {
        count == 0
            || (self.base <= address
                && count <= MEMORY_SIZE
                && address - self.base <= MEMORY_SIZE - count)
    }

    /// The byte of guest memory at an address.
    pub fn byte(&self, address: u32) -> u8
        requires { IsTrue (is_inside self.now.setting.base address 1) }
        ensures { result ≡ byte_of self.now.setting.base self.now.store address }
    {
        self.memory.byte((address - self.base) as usize)
    }

    /// The four bytes from an address on as a word, the lowest byte first.
    pub(crate) fn word(&self, address: u32) -> u32
        requires { IsTrue (is_inside self.now.setting.base address 4) }
        ensures { result ≡ word_at self.now.setting.base self.now.store address }
    {
        let index = (address - self.base) as usize;
        u32::from_le_bytes(self.memory.four(index))
    }

    /// Sets a register, 0 to 31; a write to register 0 changes nothing.
    pub fn set_register(&mut self, register: u8, value: u32)
        requires { register < 32 }
        ensures { self.new ≡ with_store (with_register register value self.old.store) self.old }
    {
        self.registers.set(register, value);
    }

    /// Sets the byte of guest memory at an address.
    pub fn set_byte(&mut self, address: u32, value: u8)
        requires { IsTrue (is_inside self.old.setting.base address 1) }
        ensures { self.new ≡ with_store (with_byte self.old.setting.base address value self.old.store) self.old }
    {
        self.memory.set((address - self.base) as usize, value);
    }

    /// Sets the program counter, an address.
    pub fn set_pc(&mut self, pc: u32)
        ensures { self.new ≡ with_control (moved_to pc self.old.control) self.old }
    {
        self.pc = pc;
    }

    /// Goes on to the next instruction.
    pub(crate) fn onward(&mut self)
        ensures { self.new ≡ with_control (onward self.old.control) self.old }
    {
        self.pc = self.pc.wrapping_add(4);
    }

    /// Ends the run, or lets it go on.
    pub fn end(&mut self, mode: Stepped)
        ensures { self.new ≡ with_control (ended mode self.old.control) self.old }
    {
        self.mode = mode;
    }

    /// How many bytes of the public input are not yet read.
    pub fn public_left(&self) -> usize
        ensures { result ≡ length self.now.setting.public_input - self.now.control.public_at }
    {
        self.public.len() - self.public_at
    }

    /// The next byte of the public input, which stays unread.
    pub(crate) fn next_public(&self) -> u8
        requires { self.now.control.public_at < length self.now.setting.public_input }
        ensures { result ≡ slice_index self.now.setting.public_input self.now.control.public_at }
    {
        self.public.as_slice()[self.public_at]
    }

    /// Reads the next byte of the public input.
    pub(crate) fn take_public(&mut self)
        requires { self.old.control.public_at < length self.old.setting.public_input }
        ensures { self.new ≡ with_control (public_taken self.old.control) self.old }
    {
        prove!(self.public_at < self.public.len());
        self.public_at += 1;
    }

    /// The next byte of the public input, which is then read.
    pub fn public_byte(&mut self) -> u8
        requires { self.old.control.public_at < length self.old.setting.public_input }
        ensures byte { result ≡ slice_index self.old.setting.public_input self.old.control.public_at }
        ensures taken { self.new ≡ with_control (public_taken self.old.control) self.old }
    {
        let byte = self.next_public();
        self.take_public();
        byte
    }

    /// How many secret bytes are not yet read.
    pub fn secret_left(&self) -> u32
        ensures { result ≡ self.now.setting.secret_length - self.now.control.secret_at }
    {
        (self.secret.len() - self.secret_at) as u32
    }

    /// The index of the next secret byte.
    pub(crate) fn secret_at(&self) -> u32
        ensures { result ≡ self.now.control.secret_at }
    {
        self.secret_at as u32
    }

    /// The next secret byte, which stays unread.
    pub(crate) fn next_secret(&self) -> u8
        requires { self.now.control.secret_at < self.now.setting.secret_length }
        ensures { result ≡ slice_index self.now.secret self.now.control.secret_at }
    {
        self.secret.as_slice()[self.secret_at]
    }

    /// Reads the next secret byte.
    pub(crate) fn take_secret(&mut self)
        requires { self.old.control.secret_at < self.old.setting.secret_length }
        ensures { self.new ≡ with_control (secret_taken self.old.control) self.old }
    {
        self.secret_at += 1;
    }

    /// The next secret byte, which is then read.
    pub fn secret_byte(&mut self) -> u8
        requires { self.old.control.secret_at < self.old.setting.secret_length }
        ensures byte { result ≡ slice_index self.old.secret self.old.control.secret_at }
        ensures taken { self.new ≡ with_control (secret_taken self.old.control) self.old }
    {
        let byte = self.next_secret();
        self.take_secret();
        byte
    }

    /// The break after a request for another, an address: it moves within its start and the end of guest memory.
    pub(crate) fn requested_break(&self, request: u32) -> u32
        ensures { result ≡ moved_break self.now.setting.start_break self.now.control.current_break
            (self.now.setting.base + memory_size) request }
    {
        move_break(
            self.start_break,
            self.current_break,
            self.base + MEMORY_SIZE,
            request,
        )
    }

    /// Sets the break, an address.
    pub fn set_break(&mut self, value: u32)
        ensures { self.new ≡ with_control (break_moved value self.old.control) self.old }
    {
        self.current_break = value;
    }

    /// How many bytes were written so far.
    pub fn written(&self) -> u32
        ensures { result ≡ length self.now.control.output }
    {
        let written = self.output.len();
        prove!(written <= self.output_limit as usize);
        written as u32
    }

    /// What a write of `count` bytes from an address on does.
    pub(crate) fn write_check(&self, from: u32, count: u32) -> WriteCheck
        ensures check { result ≡ checked_write self.now.setting.base from count
            (length self.now.control.output) self.now.setting.output_limit }
        ensures inside { result ≡ WriteCheck.Append → IsTrue (is_inside self.now.setting.base from count) }
        ensures below { result ≡ WriteCheck.Append → from + count ≤ 2 ^ 32 }
        ensures room { result ≡ WriteCheck.Append →
            length self.now.control.output + count ≤ self.now.setting.output_limit }
    {
        write_check(self.base, from, count, self.written(), self.output_limit)
    }

    /// Appends a byte to the output. It takes no memory.
    pub fn emit(&mut self, byte: u8)
        requires { length self.old.control.output < self.old.setting.output_limit }
        ensures { self.new ≡ with_control (emitted byte self.old.control) self.old }
    {
        let _ = self.output.push(byte);
    }

    /// A copy of what the machine is between two turns but for guest memory. `NoMemory` where there is not enough.
    pub fn standing(&self, alloc: Global) -> Result<Standing, NoMemory>
        ensures standing { IfOk result (λ standing. standing ≡ stand_of self.now) }
        ensures fits { IfOk result (λ standing. FitsSetting self.now.setting standing) }
    {
        let output = Bytes::from_slice(alloc, self.output.as_slice())?;
        Ok(Standing {
            registers: self.registers,
            kept: self.kept,
            pc: self.pc,
            public_at: self.public_at,
            secret_at: self.secret_at,
            current_break: self.current_break,
            output,
            mode: self.mode,
            region: self.region,
        })
    }

    /// Puts the machine back into what was kept; guest memory stays as it is. It takes no memory.
    pub fn stand(&mut self, standing: &Standing)
        requires { FitsSetting self.old.setting standing.now }
        ensures { self.new ≡ stood standing.now self.old }
    {
        self.registers = standing.registers;
        self.kept = standing.kept;
        self.pc = standing.pc;
        self.public_at = standing.public_at;
        self.secret_at = standing.secret_at;
        self.current_break = standing.current_break;
        self.mode = standing.mode;
        self.region = standing.region;
        self.output.clear();
        let _ = self.output.extend_from_slice(standing.output.as_slice());
    }

    /// Nothing is done; a caller learns how many bytes guest memory has.
    pub fn tell_memory(&self)
        ensures { length self.now.store.memory ≡ memory_size }
    {
        self.memory.tell_length();
    }

    /// Whether a page of 4,096 bytes of guest memory, 0 to 4,095, was touched since all bytes were 0; the bytes of one
    /// that was not are 0.
    pub fn is_touched(&self, page: usize) -> bool
        requires { page < 4096 }
        ensures { result ≡ false → (index : ℕ) → index / 4096 ≡ page →
            slice_index self.now.store.memory index ≡ 0 }
    {
        self.memory.is_touched(page)
    }

    /// The bytes of a piece of guest memory, 0 to 65,535.
    pub fn piece(&self, number: usize) -> &[u8]
        requires { number < 65536 }
        ensures bytes { (offset : ℕ) → offset < piece_size →
            slice_index result.now offset ≡ slice_index self.now.store.memory (number * piece_size + offset) }
        ensures length { length result.now ≡ piece_size }
    {
        self.memory.piece(number)
    }

    /// Zeroes guest memory, in the time of the pages that are touched. It takes no memory.
    pub fn zero_memory(&mut self)
        ensures { self.new ≡ with_memory (zeros memory_size) self.old }
    {
        self.memory.clear();
    }

    /// Sets the bytes of a piece of guest memory, 0 to 65,535. It takes no memory.
    pub fn lay_piece(&mut self, number: usize, bytes: &[u8])
        requires piece { number < 65536 }
        requires length { length bytes.now ≡ piece_size }
        ensures laid { self.new ≡ with_memory (laid_at (number * piece_size) bytes.now self.old.store.memory)
            self.old }
        ensures bytes { (index : ℕ) → index < memory_size →
            slice_index self.new.store.memory index ≡ (if index / piece_size == number
            then slice_index bytes.now (index % piece_size) else slice_index self.old.store.memory index) }
        ensures length { length self.new.store.memory ≡ memory_size }
    {
        self.memory.lay_piece(number, bytes);
    }
}
