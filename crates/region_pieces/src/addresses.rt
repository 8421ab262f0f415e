use crate::vectors::push;
use flow_base::NoMemory;
use piece_cells::{Bits, Cell, Table, Unknowns};
use std::alloc::Global;

/// How many bits of an address may differ at most.
const ADDRESS_BITS: u32 = 12;

/// The addresses that a cell may be.
#[derive(Drop)]
pub(crate) enum Addresses {
    One(u32),
    /// These, ascending.
    Some(Vec<u32>),
    /// More bits of this mask may differ than are looked at.
    TooMany(u32),
}

/// The values of a table, ascending.
pub(crate) fn table_values(
    alloc: Global,
    table: &Table,
    unknowns: &Unknowns,
) -> Result<Vec<u32>, NoMemory> {
    let set = unknowns.set_of(table.unknown());
    let mut values = Vec::new(alloc);
    for byte in 0..=255u8 {
        if set.contains(byte) {
            let value = table.value(byte);
            if !values.contains(&value) {
                push(&mut values, value)?;
            }
        }
    }
    values.sort_unstable();
    Ok(values)
}

/// Each of the words with the bit and without it.
fn double(words: &mut Vec<u32>, bit: u32) -> Result<(), NoMemory> {
    for at in 0..words.len() {
        let word = words[at];
        push(words, word | bit)?;
    }
    Ok(())
}

/// The words that agree with bits, ascending.
fn agreeing_words(alloc: Global, bits: Bits) -> Result<Vec<u32>, NoMemory> {
    let mut words = Vec::new(alloc);
    push(&mut words, bits.value & !bits.mask)?;
    for place in 0..32u32 {
        let bit = 1u32 << place;
        if bits.mask & bit != 0 {
            double(&mut words, bit)?;
        }
    }
    Ok(words)
}

/// The addresses that a cell may be.
pub(crate) fn addresses_of(
    alloc: Global,
    cell: &Cell,
    unknowns: &Unknowns,
) -> Result<Addresses, NoMemory> {
    match cell {
        Cell::Bits(bits) if bits.mask == 0 => Ok(Addresses::One(bits.value)),
        Cell::Bits(bits) if bits.mask.count_ones() <= ADDRESS_BITS => {
            Ok(Addresses::Some(agreeing_words(alloc, *bits)?))
        }
        Cell::Bits(bits) => Ok(Addresses::TooMany(bits.mask)),
        Cell::ByTable(table) => Ok(Addresses::Some(table_values(alloc, table, unknowns)?)),
    }
}
