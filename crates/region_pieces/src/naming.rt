ghost use Rattle.std.specs.Prelude.{◌<◌, IsTrue};
ghost use Rattle.flow_base.specs.Guests.{is_inside};

use crate::entries::Entry;
use crate::pages::Page;
use crate::pieces::Piece;
use crate::vectors::push;
use flow_base::NoMemory;
use piece_cells::{Cell, Origin, Table, Unknown, name_byte, name_word};
use std::alloc::Global;

/// How many bits of a mask are named at most.
const NAMED: u32 = 8;

fn note(used: &mut Vec<u32>, table: &Table, origin: Origin) -> Result<(), NoMemory> {
    let unknown = table.unknown();
    if unknown.origin == origin {
        push(used, unknown.number)?;
    }
    Ok(())
}

fn note_page(used: &mut Vec<u32>, page: &Page, origin: Origin) -> Result<(), NoMemory> {
    if page.is_plain() {
        return Ok(());
    }
    for place in 0..64usize {
        if let Some(table) = page.table(place) {
            note(used, table, origin)?;
        }
    }
    Ok(())
}

/// The numbers of the unknown bytes of an origin over which a cell of the piece is.
fn used_numbers(alloc: Global, piece: &Piece, origin: Origin) -> Result<Vec<u32>, NoMemory> {
    let mut used = Vec::new(alloc);
    for cell in piece.registers.as_slice() {
        if let Cell::ByTable(table) = cell {
            note(&mut used, table, origin)?;
        }
    }
    for written in piece.memory.pages.as_slice() {
        note_page(&mut used, &written.page, origin)?;
    }
    Ok(used)
}

/// The lowest number that is not among those.
fn lowest_free(used: &[u32]) -> Option<u32> {
    (0..u32::MAX).find(|number| !used.contains(number))
}

/// A new unknown byte of an origin: no cell of the piece is over it.
fn new_unknown(alloc: Global, piece: &Piece, origin: Origin) -> Result<Option<Unknown>, NoMemory> {
    let used = used_numbers(alloc, piece, origin)?;
    match lowest_free(used.as_slice()) {
        Some(number) => Ok(Some(Unknown { origin, number })),
        None => Ok(None),
    }
}

/// A register that is bits with few bits in its mask becomes a table over a new unknown byte.
#[inline(always)]
pub(crate) fn name_register(alloc: Global, piece: &mut Piece, register: u8) -> Result<(), NoMemory>
    requires { register < 32 }
{
    match piece.register(register) {
        Cell::Bits(bits) if bits.mask != 0 && bits.mask.count_ones() <= NAMED => {
            name_masked(alloc, piece, register)
        }
        _ => Ok(()),
    }
}

#[inline(never)]
fn name_masked(alloc: Global, piece: &mut Piece, register: u8) -> Result<(), NoMemory>
    requires { register < 32 }
{
    let Cell::Bits(bits) = piece.register(register) else {
        return Ok(());
    };
    let bits = *bits;
    if bits.mask == 0 || bits.mask.count_ones() > NAMED {
        return Ok(());
    }
    if let Some(unknown) = new_unknown(alloc, piece, Origin::Register(register))? {
        let (cell, set) = name_word(alloc, bits, unknown)?;
        piece.unknowns.put(unknown, set)?;
        piece.set_register(register, cell);
    }
    Ok(())
}

/// The byte at an address that is bits with a mask becomes a table over a new unknown byte, which is the byte itself.
pub(crate) fn name_memory(
    alloc: Global,
    entry: &Entry<'_>,
    piece: &mut Piece,
    address: u32,
) -> Result<(), NoMemory>
    requires { IsTrue (is_inside entry.now.machine.now.setting.base address 1) }
{
    let Some(bits) = piece.memory.plain(entry, address) else {
        return Ok(());
    };
    if bits.mask == 0 {
        return Ok(());
    }
    if let Some(unknown) = new_unknown(alloc, piece, Origin::Byte(address))? {
        let (cell, set) = name_byte(alloc, bits, unknown)?;
        piece.unknowns.put(unknown, set)?;
        piece.memory.set(alloc, entry, address, cell)?;
    }
    Ok(())
}
