ghost use Rattle.std.specs.Prelude.{◌≡◌, ◌<◌, ◌≤◌, ℕ, None, IsTrue, length, slice_index};
ghost use Rattle.flow_base.specs.Guests.{is_inside as inside_of};
ghost use Rattle.rv32im_decode.specs.Operations.{load_size};
ghost use Rattle.region_pieces.specs.Looks.{AreLoadable};

use crate::entries::Entry;
use crate::naming::name_memory;
use crate::pieces::Piece;
use crate::vectors::push;
use flow_base::{NoMemory, is_inside};
use piece_cells::{Bits, Cell, Table, bits_of, cover, load_of};
use rv32im_decode::LoadKind;
use std::alloc::Global;

/// Whether a load at this address looks at bytes of guest memory.
fn is_loadable(entry: &Entry<'_>, kind: LoadKind, address: u32) -> bool
    ensures { result ≡ inside_of entry.now.machine.now.setting.base address (load_size kind) }
{
    is_inside(entry.machine.base(), address, kind.size())
}

/// The first of the addresses at which a load is outside guest memory.
pub(crate) fn outside_load(entry: &Entry<'_>, kind: LoadKind, addresses: &[u32]) -> Option<u32>
    ensures { result ≡ None → AreLoadable entry.now.machine.now.setting.base kind addresses.now }
{
    addresses
        .iter()
        .find(|address| !is_inside(entry.machine.base(), **address, kind.size()))
        .copied()
}

/// What a load reads at an address, where none of its bytes may differ.
#[inline(always)]
pub(crate) fn loaded_word(
    entry: &Entry<'_>,
    piece: &Piece,
    kind: LoadKind,
    address: u32,
) -> Option<u32>
    requires { IsTrue (inside_of entry.now.machine.now.setting.base address (load_size kind)) }
{
    let mut word = 0u32;
    for offset in 0..kind.size() {
        match piece.memory.plain(entry, address + offset) {
            Some(bits) if bits.mask == 0 => word |= (bits.value & 0xff) << (8 * offset),
            _ => return None,
        }
    }
    Some(kind.extend(word))
}

/// What a load reads at an address.
fn loaded_cell(
    alloc: Global,
    entry: &Entry<'_>,
    piece: &Piece,
    kind: LoadKind,
    address: u32,
) -> Result<Cell, NoMemory>
    requires { IsTrue (inside_of entry.now.machine.now.setting.base address (load_size kind)) }
{
    let mut cells = Vec::with_capacity(alloc, 4)?;
    for offset in 0..kind.size() {
        push(&mut cells, piece.memory.cell(entry, address + offset)?)?;
    }
    load_of(alloc, kind, cells.as_slice(), &piece.unknowns)
}

/// What a load reads at one address; a byte that may differ is named first.
#[inline(always)]
pub(crate) fn load_at(
    alloc: Global,
    entry: &Entry<'_>,
    piece: &mut Piece,
    kind: LoadKind,
    address: u32,
) -> Result<Cell, NoMemory>
    requires { IsTrue (inside_of entry.now.machine.now.setting.base address (load_size kind)) }
{
    if let Some(value) = loaded_word(entry, piece, kind, address) {
        return Ok(Cell::Bits(Bits { value, mask: 0 }));
    }
    if kind.size() == 1 {
        name_memory(alloc, entry, piece, address)?;
    }
    loaded_cell(alloc, entry, piece, kind, address)
}

/// Whether no byte that a load reads at one of the addresses may differ.
fn is_known(entry: &Entry<'_>, piece: &Piece, kind: LoadKind, addresses: &[u32]) -> bool
    requires { AreLoadable entry.now.machine.now.setting.base kind addresses.now }
{
    for address in addresses {
        if loaded_word(entry, piece, kind, *address).is_none() {
            return false;
        }
    }
    true
}

/// What a load reads at the addresses of a table, at each of which no byte may differ.
fn load_by_table(
    alloc: Global,
    entry: &Entry<'_>,
    piece: &Piece,
    kind: LoadKind,
    table: &Table,
) -> Result<Cell, NoMemory> {
    let mut values = Vec::with_capacity(alloc, 256)?;
    for byte in 0..=255u8 {
        let address = table.value(byte);
        let known = if is_loadable(entry, kind, address) {
            loaded_word(entry, piece, kind, address)
        } else {
            None
        };
        push(&mut values, known.unwrap_or(0))?;
    }
    piece_cells::by_table(alloc, table.unknown(), values, &piece.unknowns)
}

/// What covers all that a load may read at the addresses.
fn load_covered(
    alloc: Global,
    entry: &Entry<'_>,
    piece: &Piece,
    kind: LoadKind,
    addresses: &[u32],
) -> Result<Cell, NoMemory>
    requires { AreLoadable entry.now.machine.now.setting.base kind addresses.now }
{
    let mut covered: Option<Bits> = None;
    for address in addresses {
        let cell = loaded_cell(alloc, entry, piece, kind, *address)?;
        let bits = bits_of(&cell, &piece.unknowns);
        covered = match covered {
            Some(others) => Some(cover(others, bits)),
            None => Some(bits),
        };
    }
    Ok(Cell::Bits(covered.unwrap_or(Bits {
        value: 0,
        mask: u32::MAX,
    })))
}

/// What a load reads at one of the addresses that a cell may be.
pub(crate) fn load_some(
    alloc: Global,
    entry: &Entry<'_>,
    piece: &Piece,
    kind: LoadKind,
    address: &Cell,
    addresses: &[u32],
) -> Result<Cell, NoMemory>
    requires { AreLoadable entry.now.machine.now.setting.base kind addresses.now }
{
    match address {
        Cell::ByTable(table) if is_known(entry, piece, kind, addresses) => {
            load_by_table(alloc, entry, piece, kind, table)
        }
        _ => load_covered(alloc, entry, piece, kind, addresses),
    }
}
