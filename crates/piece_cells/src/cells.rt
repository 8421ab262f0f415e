//! What a register or a byte of memory may be.

ghost use Rattle.std.specs.Prelude.{◌≡◌, ℕ, ◌<◌, IfOk, IsTrue, List, slice_index};
ghost use Rattle.piece_cells.specs.Cells.{HasBits, value_at};

use crate::unknowns::Unknown;
use flow_base::NoMemory;
use std::alloc::{AllocError, Global};
use std::marker::Model;
use std::rc::Rc;

/// A word some of whose bits are unknown.
#[derive(Clone, Copy)]
pub struct Bits {
    /// The word; a bit of it is known where that of the mask is 0.
    pub value: u32,
    /// The bits that may be 0 or 1.
    pub mask: u32,
}

impl Bits {
    /// Whether a word has these bits.
    pub(crate) fn has(self, word: u32) -> bool
        ensures { HasBits self word → IsTrue result }
    {
        (word ^ self.value) & !self.mask == 0
    }
}

/// A word for each value of an unknown byte.
#[derive(Drop)]
pub struct Table {
    unknown: Unknown,
    values: Rc<[u32; 256]>,
}

impl Model for Table {
    ghost use Rattle.piece_cells.specs.Tables.{WordTable};
    ghost use Rattle.std.specs.Rc.{rc_value};

    ghost Value = { WordTable };

    ghost view = { λ table. record { unknown = table.unknown; values = rc_value table.values } };
}

impl Table {
    /// The table of 256 words, in the order of the unknown byte's values. The one error is `NoMemory`.
    pub(crate) fn new(
        alloc: Global,
        unknown: Unknown,
        values: [u32; 256],
    ) -> Result<Table, NoMemory>
        ensures { IfOk result (λ table. table ≡ record { unknown = unknown; values = values }) }
    {
        match Rc::new(alloc, values) {
            Ok(values) => Ok(Table { unknown, values }),
            Err(_) => Err(NoMemory),
        }
    }

    /// The unknown byte.
    pub fn unknown(&self) -> Unknown
        ensures { result ≡ self.now.unknown }
    {
        self.unknown
    }

    /// The word at a value of the unknown byte.
    pub fn value(&self, byte: u8) -> u32
        ensures { result ≡ slice_index self.now.values byte }
    {
        self.values.as_ref()[byte as usize]
    }

    /// The same table; its words are shared. The one error is that there are too many that share them.
    pub fn clone(&self) -> Result<Table, AllocError>
        ensures { IfOk result (λ copy. copy ≡ self.now) }
    {
        Ok(Table {
            unknown: self.unknown,
            values: self.values.clone()?,
        })
    }
}

/// What a register or a byte of memory may be: bits, or a word for each value of an unknown byte.
#[derive(Drop)]
pub enum Cell {
    Bits(Bits),
    ByTable(Table),
}

impl Cell {
    /// The same cell; a table's words are shared. The one error is that there are too many that share them.
    pub fn clone(&self) -> Result<Cell, AllocError>
        ensures { IfOk result (λ copy. copy ≡ self.now) }
    {
        match self {
            Cell::Bits(bits) => Ok(Cell::Bits(*bits)),
            Cell::ByTable(table) => Ok(Cell::ByTable(table.clone()?)),
        }
    }
}

/// Whether both are by one table over one unknown byte.
pub fn same_table(first: &Cell, second: &Cell) -> bool
    ensures { IsTrue result → first.now ≡ second.now }
{
    match (first, second) {
        (Cell::ByTable(first), Cell::ByTable(second)) => {
            first.unknown == second.unknown && *first.values.as_ref() == *second.values.as_ref()
        }
        _ => false,
    }
}

/// The word at a value of an unknown byte, of a cell whose bits are all known or that is by a table.
pub(crate) fn value_at(cell: &Cell, byte: u8) -> u32
    ensures { result ≡ value_at cell.now byte }
{
    match cell {
        Cell::Bits(bits) => bits.value,
        Cell::ByTable(table) => table.value(byte),
    }
}
