ghost use Rattle.std.specs.Prelude.{◌<◌};

use crate::addresses::table_values;
use crate::entries::Entry;
use crate::hold_faults::HoldFault;
use crate::naming::name_register;
use crate::outcomes::{Turned, left, stopped};
use crate::pieces::Piece;
use crate::vectors::push;
use enclosure_regions::written_register;
use flow_base::NoMemory;
use piece_cells::{Bits, ByteSet, Cell, Table, compute};
use rv32im_machine::{Fault, Operation};
use std::alloc::Global;

/// The piece jumps to a target and has the address behind its instruction in a register.
pub(crate) fn jump(entry: &Entry<'_>, piece: &mut Piece, rd: u8, target: u32) -> Turned
    requires { rd < 32 }
{
    if target % 4 != 0 {
        return stopped(Fault::FetchUnaligned { pc: piece.pc });
    }
    if let Some(broken) = written_register(entry.region, piece.pc, rd) {
        return Turned::NotShown(HoldFault::Broken(broken));
    }
    let link = piece.pc.wrapping_add(4);
    piece.set_register(
        rd,
        Cell::Bits(Bits {
            value: link,
            mask: 0,
        }),
    );
    piece.pc = target;
    Turned::On
}

/// The bytes of a set at which a table has a value.
fn bytes_with(table: &Table, set: ByteSet, value: u32) -> ByteSet {
    let mut bytes = ByteSet::empty();
    for byte in 0..=255u8 {
        if set.contains(byte) && table.value(byte) == value {
            bytes.insert(byte);
        }
    }
    bytes
}

/// The pieces that jump to each target of a table.
fn jump_by_table(
    alloc: Global,
    entry: &Entry<'_>,
    piece: &Piece,
    rd: u8,
    table: &Table,
) -> Result<Turned, NoMemory>
    requires { rd < 32 }
{
    let targets = table_values(alloc, table, &piece.unknowns)?;
    let set = piece.unknowns.set_of(table.unknown());
    let mut pieces = Vec::new(alloc);
    for target in targets.as_slice() {
        let mut next = piece.copied(alloc)?;
        let _ = next
            .unknowns
            .narrow(table.unknown(), bytes_with(table, set, *target))?;
        match jump(entry, &mut next, rd, *target) {
            Turned::On => push(&mut pieces, next)?,
            turned => return Ok(turned),
        }
    }
    Ok(Turned::Each(pieces))
}

/// A jump to what a register has, beside an immediate.
pub(crate) fn jump_by_register(
    alloc: Global,
    entry: &Entry<'_>,
    piece: &mut Piece,
    rd: u8,
    rs1: u8,
    immediate: i32,
) -> Result<Turned, NoMemory>
    requires rd { rd < 32 }
    requires rs1 { rs1 < 32 }
{
    name_register(alloc, piece, rs1)?;
    let offset = Cell::Bits(Bits {
        value: immediate.cast_unsigned(),
        mask: 0,
    });
    let target = compute(
        alloc,
        entry.book,
        Operation::Target,
        piece.register(rs1),
        &offset,
        &piece.unknowns,
    )?;
    match &target {
        Cell::Bits(bits) if bits.mask == 0 => Ok(jump(entry, piece, rd, bits.value)),
        Cell::Bits(bits) => Ok(left(entry.region.id, piece.pc, bits.mask)),
        Cell::ByTable(table) => jump_by_table(alloc, entry, piece, rd, table),
    }
}
