//! Words from bytes that are loaded, and the bytes of a word that is stored.

ghost use Rattle.std.specs.Prelude.{◌≡◌, ℕ, ◌≤◌, IfOk, length};
ghost use Rattle.rv32im_machine.specs.Language.{part_of};
ghost use Rattle.piece_cells.specs.Cells.{Bytes, Has, Knows};

use crate::cells::{Bits, Cell, value_at};
use crate::computing::cell_of;
use crate::covering::bits_of;
use crate::unknowns::{Unknown, Unknowns};
use flow_base::NoMemory;
use rv32im_decode::LoadKind;
use rv32im_machine::Part;
use std::alloc::Global;

/// The one unknown byte over which all cells are by tables, beside those whose bits are all known; None where there is
/// none, and where no cell is by a table.
fn one_unknown(cells: &[Cell]) -> Option<Unknown> {
    let mut found: Option<Unknown> = None;
    for cell in cells {
        match cell {
            Cell::Bits(bits) => if bits.mask != 0 {
                return None;
            },
            Cell::ByTable(table) => match found {
                Some(unknown) => if unknown != table.unknown() {
                    return None;
                },
                None => found = Some(table.unknown()),
            },
        }
    }
    found
}

/// The mask of a loaded word that is extended: that of the sign for all bits that are made from it.
fn extended_mask(kind: LoadKind, mask: u32) -> u32 {
    match kind {
        LoadKind::Lb => if mask & 0x80 != 0 {
            mask | 0xffff_ff00
        } else {
            mask
        },
        LoadKind::Lh => if mask & 0x8000 != 0 {
            mask | 0xffff_0000
        } else {
            mask
        },
        _ => mask,
    }
}

/// The word that is loaded from one, two or four bytes, the lowest address first. The one error is `NoMemory`.
pub fn load_of(
    alloc: Global,
    kind: LoadKind,
    cells: &[Cell],
    unknowns: &Unknowns,
) -> Result<Cell, NoMemory>
    requires { length cells.now ≤ 4 }
{
    if let Some(unknown) = one_unknown(cells) {
        let mut words = [0u32; 256];
        for at in 0..256usize {
            let mut word = 0u32;
            for offset in 0..cells.len() {
                word |= (value_at(&cells[offset], at as u8) & 255) << (8 * offset as u32);
            }
            words[at] = kind.extend(word);
        }
        return cell_of(alloc, unknown, words, unknowns);
    }
    let mut value = 0u32;
    let mut mask = 0u32;
    for offset in 0..cells.len() {
        let bits = bits_of(&cells[offset], unknowns);
        value |= (bits.value & 255) << (8 * offset as u32);
        mask |= (bits.mask & 255) << (8 * offset as u32);
    }
    Ok(Cell::Bits(Bits {
        value: kind.extend(value),
        mask: extended_mask(kind, mask),
    }))
}

/// One byte of a word.
fn byte_of(word: u32, part: Part) -> u32
    ensures { result ≡ part_of part word }
{
    match part {
        Part::Byte0 => word % 256,
        Part::Byte1 => word / 256 % 256,
        Part::Byte2 => word / 65536 % 256,
        Part::Byte3 => word / 16777216 % 256,
    }
}

/// One byte of a cell of a word. The one error is `NoMemory`.
pub fn part_of(
    alloc: Global,
    cell: &Cell,
    part: Part,
    unknowns: &Unknowns,
) -> Result<Cell, NoMemory>
    ensures { IfOk result (λ byte. (bytes : Bytes) (word : ℕ) → Knows unknowns.now bytes → Has bytes cell.now word →
        Has bytes byte (part_of part word)) }
{
    match cell {
        Cell::Bits(bits) => Ok(Cell::Bits(Bits {
            value: byte_of(bits.value, part),
            mask: byte_of(bits.mask, part),
        })),
        Cell::ByTable(table) => {
            let mut words = [0u32; 256];
            for at in 0..256usize {
                words[at] = byte_of(table.value(at as u8), part);
            }
            cell_of(alloc, table.unknown(), words, unknowns)
        }
    }
}
