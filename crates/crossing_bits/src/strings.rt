ghost use Rattle.std.specs.Prelude.{◌≡◌, ◌↔◌, ◌+◌, ◌^◌, ◌++◌, [], ◌≤◌, ◌<◌, length, take, drop, IsOk, IfOk, OnOk, OnErr, IsSome, OnSome, IfSome, IfNone};
ghost use Rattle.flow_base.specs.Words.{bit_count as count_of, bits_under, patched as patched_word};
ghost use Rattle.crossing_bits.specs.Strings.{left_of};
ghost use Rattle.crossing_bits.specs.HexText.{hex_of};

use crate::masks::{bit_count, patched, push_bits};
use crate::texts::hex_text;
use flow_base::{Bytes, NoMemory};
use std::alloc::Global;
use std::marker::Model;

/// A string of fewer than 2^32 bits, which grows at its end and is taken from its front.
#[derive(Drop)]
pub struct Bits {
    items: Vec<bool>,
    taken: usize,
}

impl Model for Bits {
    ghost use Rattle.std.specs.Prelude.{◌-◌, ◌≤◌, ◌<◌, ◌^◌};
    ghost use Rattle.std.specs.Vec.{vec_len, vec_capacity};
    ghost use Rattle.crossing_bits.specs.Strings.{Stream};

    ghost Value = { Stream };

    ghost view = { λ b. record { bits = b.items.items; taken = b.taken; room = vec_capacity b.items - vec_len b.items } };

    ghost invariant = { λ b. (b.taken ≤ vec_len b.items) × (vec_len b.items < 2 ^ 32) };
}

impl Bits {
    /// The empty string, with room for at least so many bits. For none it takes no memory, and cannot fail.
    pub fn with_room(alloc: Global, count: u32) -> Result<Bits, NoMemory>
        ensures empty { IfOk result (λ bits. bits.bits ≡ []) }
        ensures untaken { IfOk result (λ bits. bits.taken ≡ 0) }
        ensures room { IfOk result (λ bits. count ≤ bits.room) }
        ensures fits { count ≡ 0 → IsOk result }
    {
        let items = Vec::with_capacity(alloc, count as usize)?;
        Ok(Bits { items, taken: 0 })
    }

    /// The number of bits, taken or not.
    pub fn count(&self) -> u32
        ensures { result ≡ length self.now.bits }
    {
        self.items.len() as u32
    }

    /// The number of bits that have not been taken.
    pub fn left(&self) -> u32
        ensures left { result ≡ length (left_of self.now) }
        ensures within { self.now.taken + result ≡ length self.now.bits }
    {
        (self.items.len() - self.taken) as u32
    }

    /// All bits in order, taken or not.
    pub fn as_slice(&self) -> &[bool]
        ensures { result.now ≡ self.now.bits }
    {
        self.items.as_slice()
    }

    /// Puts the value's bits under the mask at the end, lowest first. Where memory is short nothing changes. It cannot
    /// fail where there is room for as many bits as the mask has.
    pub fn push_masked(&mut self, value: u32, mask: u32) -> Result<(), NoMemory>
        requires { length self.old.bits + count_of mask < 2 ^ 32 }
        ensures pushed { OnOk result (self.new.bits ≡ self.old.bits ++ bits_under value mask) }
        ensures taken { OnOk result (self.new.taken ≡ self.old.taken) }
        ensures room { OnOk result (self.old.room ≤ self.new.room + count_of mask) }
        ensures fits { count_of mask ≤ self.old.room → IsOk result }
        ensures same { OnErr result (self.new ≡ self.old) }
    {
        self.items.reserve(bit_count(mask) as usize)?;
        push_bits(&mut self.items, value, mask)
    }

    /// The value with the next bits in place of those under the mask, lowest first, which are then taken. None exactly
    /// where fewer are left than the mask has, and then nothing is taken.
    #[tactic(auto, using(crate::proofs::Places::count_of_zero, crate::proofs::Places::patched_by_zero))]
    pub fn patch(&mut self, value: u32, mask: u32) -> Option<u32>
        ensures enough { IsSome result ↔ (count_of mask ≤ length (left_of self.old)) }
        ensures value { IfSome result (λ word. word ≡ patched_word value mask (take (count_of mask) (left_of self.old))) }
        ensures goes { OnSome result (left_of self.new ≡ drop (count_of mask) (left_of self.old)) }
        ensures taken { OnSome result (self.new.taken ≡ self.old.taken + count_of mask) }
        ensures bits { self.new.bits ≡ self.old.bits }
        ensures room { self.new.room ≡ self.old.room }
        ensures short { IfNone result (length (left_of self.old) < count_of mask) }
        ensures same { IfNone result (self.new ≡ self.old) }
    {
        if mask == 0 {
            return Some(value);
        }
        let count = bit_count(mask) as usize;
        if self.items.len() - self.taken < count {
            return None;
        }
        let word = patched(value, mask, &self.items[self.taken..self.taken + count]);
        self.taken += count;
        Some(word)
    }

    /// The next bits at the places of the mask, lowest first, which are then taken. None exactly where fewer are left
    /// than the mask has, and then nothing is taken.
    pub fn take_masked(&mut self, mask: u32) -> Option<u32>
        ensures enough { IsSome result ↔ (count_of mask ≤ length (left_of self.old)) }
        ensures value { IfSome result (λ word. word ≡ patched_word 0 mask (take (count_of mask) (left_of self.old))) }
        ensures goes { OnSome result (left_of self.new ≡ drop (count_of mask) (left_of self.old)) }
        ensures taken { OnSome result (self.new.taken ≡ self.old.taken + count_of mask) }
        ensures bits { self.new.bits ≡ self.old.bits }
        ensures room { self.new.room ≡ self.old.room }
        ensures short { IfNone result (length (left_of self.old) < count_of mask) }
        ensures same { IfNone result (self.new ≡ self.old) }
    {
        self.patch(0, mask)
    }

    /// All bits, taken or not, as hex text in lower case: bit i of the string is bit i mod 8, counted from the lowest,
    /// of byte i / 8, and unused bits are 0. The empty string is `-`. Its error is lack of memory.
    pub fn hex_text(&self, alloc: Global) -> Result<Bytes, NoMemory>
        ensures { IfOk result (λ text. text ≡ hex_of self.now.bits) }
    {
        hex_text(alloc, &self.items)
    }
}
