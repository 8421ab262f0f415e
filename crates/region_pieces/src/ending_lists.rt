ghost use Rattle.std.specs.Prelude.{◌≡◌, ◌<◌, IfSome, vec_len};

use crate::joining::{Both, joined_cells};
use crate::vectors::push;
use flow_base::NoMemory;
use piece_cells::{Bits, ByteSet, Cell, Table, Unknowns, bits_of, cover};
use std::alloc::Global;

/// How many endings there are at most.
const ENDINGS: usize = 64;

/// What a piece has at the outputs of a region.
#[derive(Drop)]
pub(crate) struct Ending {
    pub cells: Vec<Cell>,
    pub unknowns: Unknowns,
}

/// What real states that came out of a region have at its outputs: the registers of `outs` in order, and then the bytes
/// of the ranges in order. Each is one of these endings; those that are possible no more are gone.
#[derive(Drop)]
pub struct Endings {
    endings: Vec<Ending>,
}

/// Whether a bit of a word is 1.
fn has_bit(word: u32, bit: u32) -> bool
    requires { bit < 32 }
{
    word >> bit & 1 == 1
}

/// The bytes of a set at which a bit of a table's value has a value.
fn bytes_with_bit(table: &Table, set: ByteSet, bit: u32, value: bool) -> ByteSet
    requires { bit < 32 }
{
    let mut bytes = ByteSet::empty();
    for byte in 0..=255u8 {
        if set.contains(byte) && has_bit(table.value(byte), bit) == value {
            bytes.insert(byte);
        }
    }
    bytes
}

/// Whether two cells have a mask or none has, and then the same value.
fn are_alike(first: Bits, second: Bits) -> bool {
    (first.mask != 0 && second.mask != 0)
        || (first.mask == 0 && second.mask == 0 && first.value == second.value)
}

impl Ending {
    /// Whether a bit of a cell can have a value.
    fn can_be(&self, index: usize, bit: u32, value: bool) -> bool
        requires { bit < 32 }
    {
        match self.cells.get(index) {
            Some(Cell::Bits(bits)) => has_bit(bits.mask, bit) || has_bit(bits.value, bit) == value,
            Some(Cell::ByTable(table)) => {
                let set = self.unknowns.set_of(table.unknown());
                !bytes_with_bit(table, set, bit, value).is_empty()
            }
            None => true,
        }
    }

    /// A bit of a cell has a value: the bytes of its table are those with the value.
    fn narrow(&mut self, index: usize, bit: u32, value: bool) -> Result<(), NoMemory>
        requires { bit < 32 }
    {
        if let Some(Cell::ByTable(table)) = self.cells.get(index) {
            let unknown = table.unknown();
            let set = self.unknowns.set_of(unknown);
            let set = bytes_with_bit(table, set, bit, value);
            let _ = self.unknowns.narrow(unknown, set)?;
        }
        Ok(())
    }

    fn bits(&self, index: usize) -> Option<Bits> {
        match self.cells.get(index) {
            Some(cell) => Some(bits_of(cell, &self.unknowns)),
            None => None,
        }
    }

    fn is_alike(&self, other: &Ending) -> bool {
        for index in 0..self.cells.len() {
            match (self.bits(index), other.bits(index)) {
                (Some(first), Some(second)) if are_alike(first, second) => {}
                _ => return false,
            }
        }
        true
    }

    /// An ending that stands for all that each stands for.
    fn joined(&self, alloc: Global, other: &Ending) -> Result<Ending, NoMemory>
        requires { vec_len self.now.cells ≡ vec_len other.now.cells }
    {
        let both = Both {
            first: &self.unknowns,
            second: &other.unknowns,
        };
        Ok(Ending {
            cells: joined_cells(alloc, self.cells.as_slice(), other.cells.as_slice(), both)?,
            unknowns: self.unknowns.joined(alloc, &other.unknowns)?,
        })
    }
}

impl Endings {
    /// No endings.
    pub(crate) fn new(alloc: Global) -> Endings {
        Endings {
            endings: Vec::new(alloc),
        }
    }

    /// The index of the ending to which another is joined, if it is to be.
    fn place_for(&self, ending: &Ending) -> Option<usize>
        ensures { IfSome result (λ at. at < vec_len self.now.endings) }
    {
        for at in 0..self.endings.len() {
            if self.endings[at].is_alike(ending) {
                return Some(at);
            }
        }
        if self.endings.len() < ENDINGS {
            None
        } else {
            Some(self.endings.len() - 1)
        }
    }

    /// One more ending.
    pub(crate) fn add(&mut self, alloc: Global, ending: Ending) -> Result<(), NoMemory> {
        if let Some(at) = self.place_for(&ending) {
            if self.endings[at].cells.len() == ending.cells.len() {
                self.endings[at] = self.endings[at].joined(alloc, &ending)?;
                return Ok(());
            }
        }
        push(&mut self.endings, ending)?;
        Ok(())
    }

    /// The value that a bit of the output at an index has in each ending that is possible; None where it can have both.
    pub fn bit(&self, index: usize, bit: u32) -> Option<bool>
        requires { bit < 32 }
    {
        let can_be_0 = self
            .endings
            .as_slice()
            .iter()
            .any(|ending| ending.can_be(index, bit, false));
        let can_be_1 = self
            .endings
            .as_slice()
            .iter()
            .any(|ending| ending.can_be(index, bit, true));
        if can_be_0 && can_be_1 {
            None
        } else {
            Some(can_be_1)
        }
    }

    /// A bit of the output at an index has a value: endings in which it can't be so are possible no more. The one error is
    /// `NoMemory`.
    pub fn keep(&mut self, index: usize, bit: u32, value: bool) -> Result<(), NoMemory>
        requires { bit < 32 }
    {
        let mut at = self.endings.len();
        while 0 < at {
            at -= 1;
            if self.endings[at].can_be(index, bit, value) {
                self.endings[at].narrow(index, bit, value)?;
            } else {
                let _ = self.endings.remove(at);
            }
        }
        Ok(())
    }

    /// What covers the output at an index in all endings that are possible.
    pub fn bits(&self, index: usize) -> Bits {
        let mut covered: Option<Bits> = None;
        for ending in self.endings.as_slice() {
            let bits = ending.bits(index);
            covered = match (covered, bits) {
                (Some(others), Some(bits)) => Some(cover(others, bits)),
                (None, bits) => bits,
                (others, None) => others,
            };
        }
        covered.unwrap_or(Bits {
            value: 0,
            mask: u32::MAX,
        })
    }
}
