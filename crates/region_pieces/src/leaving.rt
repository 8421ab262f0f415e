ghost use Rattle.std.specs.Prelude.{◌<◌, IsTrue};
ghost use Rattle.std.specs.List.{list_all};
ghost use Rattle.enclosure_regions.specs.Regions.{is_range, is_register};
ghost use Rattle.flow_base.specs.Guests.{is_inside};
ghost use Rattle.region_machine.specs.Within.{are_inside};

use crate::ending_lists::Ending;
use crate::entries::Entry;
use crate::pieces::Piece;
use crate::vectors::push;
use enclosure_regions::{Break, Range, range_start};
use flow_base::NoMemory;
use piece_cells::Cell;
use std::alloc::Global;

/// How a kept register breaks the region at the leave: it has another value than at the entry, or a bit of it may differ.
fn kept_break(entry: &Entry<'_>, piece: &Piece, register: u8) -> Option<Break>
    requires { register < 32 }
{
    let before = entry.machine.register(register);
    let after = piece.bits(register);
    if after.mask == 0 && entry.shadow.reg(register).mask == 0 && after.value == before {
        return None;
    }
    Some(Break::KeepBroken {
        region: entry.region.id,
        register,
        before,
        after: after.value,
    })
}

/// How the first of the kept registers that does so breaks the region at the leave.
fn first_kept_break(entry: &Entry<'_>, piece: &Piece, registers: &[u8]) -> Option<Break>
    requires { IsTrue (list_all is_register registers.now) }
{
    let [register, more @ ..] = registers else {
        return None;
    };
    match kept_break(entry, piece, *register) {
        Some(broken) => Some(broken),
        None => first_kept_break(entry, piece, more),
    }
}

/// How the piece breaks the region at the leave, if it does.
pub(crate) fn leave_break(entry: &Entry<'_>, piece: &Piece) -> Option<Break> {
    first_kept_break(entry, piece, entry.region.keep.as_slice())
}

/// The registers, in order.
fn put_registers(cells: &mut Vec<Cell>, piece: &Piece, registers: &[u8]) -> Result<(), NoMemory>
    requires { IsTrue (list_all is_register registers.now) }
{
    let [register, more @ ..] = registers else {
        return Ok(());
    };
    push(cells, piece.register_copy(*register)?)?;
    put_registers(cells, piece, more)
}

/// The bytes of a range, in order.
fn put_range(
    cells: &mut Vec<Cell>,
    entry: &Entry<'_>,
    piece: &Piece,
    start: u32,
    length: u32,
) -> Result<(), NoMemory>
    requires { IsTrue (is_inside entry.now.machine.now.setting.base start length) }
{
    for offset in 0..length {
        push(cells, piece.memory.cell(entry, start + offset)?)?;
    }
    Ok(())
}

/// The bytes of the ranges, in order.
fn put_ranges(
    cells: &mut Vec<Cell>,
    entry: &Entry<'_>,
    piece: &Piece,
    ranges: &[Range],
) -> Result<(), NoMemory>
    requires ranges { IsTrue (list_all is_range ranges.now) }
    requires inside { IsTrue (are_inside ranges.now entry.now.machine.now.store.registers
        entry.now.machine.now.setting.base) }
{
    let [range, more @ ..] = ranges else {
        return Ok(());
    };
    let start = range_start(entry.machine.registers(), *range);
    put_range(cells, entry, piece, start, range.length)?;
    put_ranges(cells, entry, piece, more)
}

/// What the piece has at the outputs of the region.
pub(crate) fn ending_of(
    alloc: Global,
    entry: &Entry<'_>,
    piece: &Piece,
) -> Result<Ending, NoMemory> {
    let mut cells = Vec::new(alloc);
    put_registers(&mut cells, piece, entry.region.outs.as_slice())?;
    put_ranges(&mut cells, entry, piece, entry.region.ranges.as_slice())?;
    Ok(Ending {
        cells,
        unknowns: piece.unknowns.copied(alloc)?,
    })
}
