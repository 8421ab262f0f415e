ghost use Rattle.std.specs.Prelude.{◌≡◌, ◌<◌, None, IsTrue};
ghost use Rattle.flow_base.specs.Guests.{is_inside as inside_of};
ghost use Rattle.rv32im_decode.specs.Operations.{store_size};
ghost use Rattle.region_pieces.specs.Looks.{AreStorable};

use crate::entries::Entry;
use crate::pieces::Piece;
use enclosure_regions::{Break, written_byte};
use flow_base::{NoMemory, is_inside};
use piece_cells::{Cell, bits_of, cover, part_of};
use rv32im_decode::StoreKind;
use rv32im_machine::Part;
use std::alloc::Global;

/// The first of the addresses at which a store is outside guest memory.
pub(crate) fn outside_store(entry: &Entry<'_>, kind: StoreKind, addresses: &[u32]) -> Option<u32>
    ensures { result ≡ None → AreStorable entry.now.machine.now.setting.base kind addresses.now }
{
    addresses
        .iter()
        .find(|address| !is_inside(entry.machine.base(), **address, kind.size()))
        .copied()
}

/// How a store at an address breaks the region, if it does.
#[inline(always)]
pub(crate) fn store_break(
    entry: &Entry<'_>,
    pc: u32,
    kind: StoreKind,
    address: u32,
) -> Option<Break>
    requires { IsTrue (inside_of entry.now.machine.now.setting.base address (store_size kind)) }
{
    for offset in 0..kind.size() {
        let broken = written_byte(
            entry.region,
            entry.machine.registers(),
            pc,
            address + offset,
        );
        if broken.is_some() {
            return broken;
        }
    }
    None
}

/// How a store at the lowest byte that the region does not declare breaks it, if it does.
pub(crate) fn first_store_break(
    entry: &Entry<'_>,
    pc: u32,
    kind: StoreKind,
    addresses: &[u32],
) -> Option<Break>
    requires { AreStorable entry.now.machine.now.setting.base kind addresses.now }
{
    for address in addresses {
        let broken = store_break(entry, pc, kind, *address);
        if broken.is_some() {
            return broken;
        }
    }
    None
}

/// The byte of a word that a store writes at an offset.
fn part_at(offset: u32) -> Part {
    match offset {
        0 => Part::Byte0,
        1 => Part::Byte1,
        2 => Part::Byte2,
        _ => Part::Byte3,
    }
}

/// A store at one address.
pub(crate) fn store_at(
    alloc: Global,
    entry: &Entry<'_>,
    piece: &mut Piece,
    kind: StoreKind,
    address: u32,
    value: &Cell,
) -> Result<(), NoMemory>
    requires { IsTrue (inside_of entry.now.machine.now.setting.base address (store_size kind)) }
{
    for offset in 0..kind.size() {
        let part = part_of(alloc, value, part_at(offset), &piece.unknowns)?;
        piece.memory.set(alloc, entry, address + offset, part)?;
    }
    Ok(())
}

/// The bits of a byte cover what it was and what a store may put there.
fn cover_byte(
    alloc: Global,
    entry: &Entry<'_>,
    piece: &mut Piece,
    address: u32,
    part: &Cell,
) -> Result<(), NoMemory>
    requires { IsTrue (inside_of entry.now.machine.now.setting.base address 1) }
{
    let before = piece.memory.cell(entry, address)?;
    let bits = cover(
        bits_of(&before, &piece.unknowns),
        bits_of(part, &piece.unknowns),
    );
    piece.memory.set(alloc, entry, address, Cell::Bits(bits))
}

/// A store at one of the addresses.
pub(crate) fn store_some(
    alloc: Global,
    entry: &Entry<'_>,
    piece: &mut Piece,
    kind: StoreKind,
    addresses: &[u32],
    value: &Cell,
) -> Result<(), NoMemory>
    requires { AreStorable entry.now.machine.now.setting.base kind addresses.now }
{
    for address in addresses {
        for offset in 0..kind.size() {
            let part = part_of(alloc, value, part_at(offset), &piece.unknowns)?;
            cover_byte(alloc, entry, piece, *address + offset, &part)?;
        }
    }
    Ok(())
}
