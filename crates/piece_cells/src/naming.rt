//! Cells by tables for words that have a few unknown bits.

ghost use Rattle.std.specs.Prelude.{◌<◌, IfOk};
ghost use Rattle.piece_cells.specs.Cells.{Names};

use crate::byte_sets::ByteSet;
use crate::cells::{Bits, Cell, Table};
use crate::unknowns::Unknown;
use flow_base::NoMemory;
use std::alloc::Global;

/// The words that have some bits, in ascending order, and how many they are; behind them stands the first again.
#[derive(Drop)]
struct Listed {
    words: [u32; 256],
    count: usize,
}

/// The words that have these bits; None where they are more than 256.
fn words_of(bits: Bits) -> Option<Listed> {
    let mut words = [bits.value & !bits.mask; 256];
    let mut count = 1usize;
    for place in 0..32u32 {
        if bits.mask >> place & 1 == 1 {
            if count > 128 {
                return None;
            }
            for at in 0..count {
                words[count + at] = words[at] | 1 << place;
            }
            count *= 2;
        }
    }
    Some(Listed { words, count })
}

/// The set of the lowest bytes, so many.
fn lowest_bytes(count: usize) -> ByteSet {
    let mut set = ByteSet::empty();
    for at in 0..count {
        set.insert((at & 255) as u8);
    }
    set
}

/// The cell of a word that has these bits, by a table over an unknown byte that is new, and the bytes that this may be;
/// the bits themselves where more than 256 words have them. The one error is `NoMemory`.
pub fn name_word(alloc: Global, bits: Bits, unknown: Unknown) -> Result<(Cell, ByteSet), NoMemory> {
    let Some(listed) = words_of(bits) else {
        return Ok((Cell::Bits(bits), ByteSet::all()));
    };
    let table = Table::new(alloc, unknown, listed.words)?;
    Ok((Cell::ByTable(table), lowest_bytes(listed.count)))
}

/// The cell of a byte that has these bits, which is an unknown byte that is new, and the bytes that this may be. The one
/// error is `NoMemory`.
pub fn name_byte(alloc: Global, bits: Bits, unknown: Unknown) -> Result<(Cell, ByteSet), NoMemory>
    ensures { IfOk result (λ named. Names bits unknown named.1 named.0 (λ word. word < 256)) }
{
    let mut set = ByteSet::empty();
    let mut words = [0u32; 256];
    for at in 0..256u32 {
        words[at as usize] = at;
        if bits.has(at) {
            set.insert(at as u8);
        }
    }
    Ok((Cell::ByTable(Table::new(alloc, unknown, words)?), set))
}
