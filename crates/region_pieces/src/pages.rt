ghost use Rattle.std.specs.Prelude.{◌≡◌, ◌≢◌, ℕ, ◌<◌, None, IfOk, IsTrue, MatchOption, List, [], length};
ghost use Rattle.region_pieces.specs.Pages.{SameCells, SetsCell, bits_in, cells_of};
ghost use Rattle.piece_cells.specs.declared.cells.Cell.TheVariants.{Bits as IsBits, ByTable as OverTable};

use crate::vectors::push;
use flow_base::NoMemory;
use piece_cells::{Bits, Cell, Table, Unknowns, bits_of_table};
use std::alloc::Global;

/// How many bytes a page has.
pub(crate) const PAGE_SIZE: u32 = 64;

/// 64 bytes of memory, each bits or by table.
#[derive(Drop)]
pub(crate) struct Page {
    values: [u8; 64],
    masks: [u8; 64],
    /// None, or for each byte its table, where it has one.
    tables: Vec<Option<Table>>,
}

fn copied_table(table: &Option<Table>) -> Result<Option<Table>, NoMemory>
    ensures { IfOk result (λ copy. copy ≡ table.now) }
{
    match table {
        Some(table) => Ok(Some(table.clone()?)),
        None => Ok(None),
    }
}

fn copied_tables(alloc: Global, tables: &[Option<Table>]) -> Result<Vec<Option<Table>>, NoMemory> {
    let mut copies = Vec::new(alloc);
    for table in tables {
        push(&mut copies, copied_table(table)?)?;
    }
    Ok(copies)
}

fn no_tables(alloc: Global) -> Result<Vec<Option<Table>>, NoMemory> {
    let mut tables = Vec::new(alloc);
    for _ in 0..64 {
        push(&mut tables, None)?;
    }
    Ok(tables)
}

impl Page {
    /// A page of bits.
    pub fn new(alloc: Global, values: [u8; 64], masks: [u8; 64]) -> Page {
        Page {
            values,
            masks,
            tables: Vec::new(alloc),
        }
    }

    /// The same bytes once more.
    pub fn copied(&self, alloc: Global) -> Result<Page, NoMemory> {
        Ok(Page {
            values: self.values,
            masks: self.masks,
            tables: copied_tables(alloc, self.tables.as_slice())?,
        })
    }

    /// Whether no byte is by table.
    pub fn is_plain(&self) -> bool {
        self.tables.is_empty()
    }

    /// Whether a byte is not by table.
    pub fn is_plain_at(&self, place: usize) -> bool
        requires { place < 64 }
        ensures { IsTrue result → cells_of self.now.tables.items self.now.values self.now.masks place ≡ IsBits (bits_in self.now.values self.now.masks place) }
    {
        self.table(place).is_none()
    }

    /// The table of a byte, where it has one.
    #[inline(always)]
    pub fn table(&self, place: usize) -> Option<&Table>
        requires { place < 64 }
        ensures { MatchOption result
            (cells_of self.now.tables.items self.now.values self.now.masks place ≡ IsBits (bits_in self.now.values self.now.masks place))
            (λ table. cells_of self.now.tables.items self.now.values self.now.masks place ≡ OverTable table.now) }
    {
        match self.tables.get(place) {
            Some(Some(table)) => Some(table),
            _ => None,
        }
    }

    /// The bits of a byte, which is not by table.
    #[inline(always)]
    pub fn bits(&self, place: usize) -> Bits
        requires { place < 64 }
        ensures { result ≡ bits_in self.now.values self.now.masks place }
    {
        Bits {
            value: u32::from(self.values[place]),
            mask: u32::from(self.masks[place]),
        }
    }

    /// The bits of a byte, also where it is by table.
    pub fn bits_by(&self, place: usize, unknowns: &Unknowns) -> Bits
        requires { place < 64 }
    {
        match self.table(place) {
            Some(table) => bits_of_table(table, unknowns),
            None => self.bits(place),
        }
    }

    /// What a byte is.
    pub fn cell(&self, place: usize) -> Result<Cell, NoMemory>
        requires { place < 64 }
        ensures { IfOk result (λ cell. cell ≡ cells_of self.now.tables.items self.now.values self.now.masks place) }
    {
        match self.table(place) {
            Some(table) => Ok(Cell::ByTable(table.clone()?)),
            None => Ok(Cell::Bits(self.bits(place))),
        }
    }

    /// Sets a byte to bits.
    #[inline(always)]
    pub fn set_bits(&mut self, place: usize, bits: Bits)
        requires { place < 64 }
    {
        self.values[place] = (bits.value & 0xff) as u8;
        self.masks[place] = (bits.mask & 0xff) as u8;
        if place < self.tables.len() {
            self.tables[place] = None;
        }
    }

    /// Sets a byte; where memory is short it stays as it was.
    pub fn set(&mut self, alloc: Global, place: usize, cell: Cell) -> Result<(), NoMemory>
        requires { place < 64 }
    {
        match cell {
            Cell::Bits(bits) => self.set_bits(place, bits),
            Cell::ByTable(table) => {
                if self.tables.is_empty() {
                    self.tables = no_tables(alloc)?;
                }
                if place < self.tables.len() {
                    self.tables[place] = Some(table);
                }
            }
        }
        Ok(())
    }

    /// Whether both have the same bytes, and none by table.
    pub fn is_same(&self, other: &Page) -> bool {
        self.tables.is_empty()
            && other.tables.is_empty()
            && self.values == other.values
            && self.masks == other.masks
    }
}
