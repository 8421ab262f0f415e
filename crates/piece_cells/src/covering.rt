//! The bits that cover words.

ghost use Rattle.std.specs.Prelude.{ℕ, ◌<◌, slice_index};
ghost use Rattle.piece_cells.specs.Cells.{Bytes, HasBits, HasSomeBits, Has, Holds, Knows};

use crate::byte_sets::ByteSet;
use crate::cells::{Bits, Cell, Table};
use crate::unknowns::Unknowns;

/// The bits of every word that has the bits of the first or of the second. Those that may be 0 or 1 are 0 in the value.
pub fn cover(first: Bits, second: Bits) -> Bits
    ensures first { (word : ℕ) → HasBits first word → HasBits result word }
    ensures second { (word : ℕ) → HasBits second word → HasBits result word }
{
    let mask = first.mask | second.mask | (first.value ^ second.value);
    Bits {
        value: first.value & !mask,
        mask,
    }
}

/// The bits of what was covered, if there is any, and of one more word.
fn cover_more(covered: Option<Bits>, word: u32) -> Bits
    ensures kept { (other : ℕ) → HasSomeBits covered other → HasBits result other }
    ensures word { HasBits result word }
{
    let known = Bits {
        value: word,
        mask: 0,
    };
    match covered {
        Some(bits) => cover(bits, known),
        None => known,
    }
}

/// The bits of every word of a table at a byte of the set; all are 0 where the set is empty.
pub(crate) fn bits_over(table: &Table, set: ByteSet) -> Bits
    ensures { (byte : ℕ) → byte < 256 → Holds set byte → HasBits result (slice_index table.now.values byte) }
{
    let mut covered: Option<Bits> = None;
    for byte in 0..256u16 {
        let byte = byte as u8;
        if set.contains(byte) {
            covered = Some(cover_more(covered, table.value(byte)));
        }
    }
    covered.unwrap_or(Bits { value: 0, mask: 0 })
}

/// The bits of every word that a table may give.
pub fn bits_of_table(table: &Table, unknowns: &Unknowns) -> Bits
    ensures { (bytes : Bytes) → Knows unknowns.now bytes →
        HasBits result (slice_index table.now.values (bytes table.now.unknown)) }
{
    bits_over(table, unknowns.set_of(table.unknown()))
}

/// The bits of every word that a cell may be.
pub fn bits_of(cell: &Cell, unknowns: &Unknowns) -> Bits
    ensures { (bytes : Bytes) (word : ℕ) → Knows unknowns.now bytes → Has bytes cell.now word → HasBits result word }
{
    match cell {
        Cell::Bits(bits) => *bits,
        Cell::ByTable(table) => bits_of_table(table, unknowns),
    }
}
