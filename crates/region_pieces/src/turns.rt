ghost use Rattle.std.specs.Prelude.{◌≡◌, ◌<◌, ◌≤◌, IsTrue, IfOk};
ghost use Rattle.flow_base.specs.Guests.{is_inside as inside_of};
ghost use Rattle.rv32im_decode.specs.Encoding.{InRange};
ghost use Rattle.rv32im_decode.specs.Operations.{store_size};

use crate::addresses::{Addresses, addresses_of};
use crate::deciding::{Branch, make_branch};
use crate::entries::Entry;
use crate::hold_faults::HoldFault;
use crate::jumping::{jump, jump_by_register};
use crate::loading::{load_at, load_some, outside_load};
use crate::naming::name_register;
use crate::outcomes::{Turned, left, stopped};
use crate::pieces::Piece;
use crate::storing::{first_store_break, outside_store, store_at, store_some};
use enclosure_regions::{Break, written_register};
use flow_base::{NoMemory, is_inside};
use piece_cells::{Bits, Cell, compute};
use rv32im_decode::{Instr, LoadKind, OpKind, StoreKind, decode, upper};
use rv32im_machine::{Fault, Operation};
use std::alloc::Global;

/// The word at an address as it is at the entry; None where a bit of it may differ.
#[inline(always)]
fn entry_word(entry: &Entry<'_>, address: u32) -> Option<u32>
    requires { IsTrue (inside_of entry.now.machine.now.setting.base address 4) }
{
    if !entry.shadow.is_clean(address, 4) {
        return None;
    }
    Some(u32::from_le_bytes([
        entry.machine.byte(address),
        entry.machine.byte(address + 1),
        entry.machine.byte(address + 2),
        entry.machine.byte(address + 3),
    ]))
}

/// The word at an address; None where a bit of it may differ.
#[inline(never)]
fn written_word(entry: &Entry<'_>, piece: &Piece, address: u32) -> Option<u32>
    requires { IsTrue (inside_of entry.now.machine.now.setting.base address 4) }
{
    let mut word = 0u32;
    for offset in 0..4u32 {
        let bits = piece.memory.bits(entry, address + offset, &piece.unknowns);
        if bits.mask != 0 {
            return None;
        }
        word |= (bits.value & 0xff) << (8 * offset);
    }
    Some(word)
}

/// The fetched word, or why none is.
#[inline(always)]
fn fetched(entry: &Entry<'_>, piece: &Piece) -> Result<u32, HoldFault> {
    let pc = piece.pc;
    if !is_inside(entry.machine.base(), pc, 4) {
        return Err(HoldFault::Guest(Fault::FetchOutside { pc }));
    }
    let word = if piece.memory.is_unwritten(entry, pc, 4) {
        entry_word(entry, pc)
    } else {
        written_word(entry, piece, pc)
    };
    word.ok_or(HoldFault::SecretCode { pc })
}

/// A register has a new value, and the piece goes on to the next instruction.
#[inline(always)]
fn put(entry: &Entry<'_>, piece: &mut Piece, rd: u8, cell: Cell) -> Turned
    requires { rd < 32 }
{
    if let Some(broken) = written_register(entry.region, piece.pc, rd) {
        return Turned::NotShown(HoldFault::Broken(broken));
    }
    piece.set_register(rd, cell);
    piece.pc = piece.pc.wrapping_add(4);
    Turned::On
}

/// A value that no bit of differs.
fn known(value: u32) -> Cell {
    Cell::Bits(Bits { value, mask: 0 })
}

/// An operation of two cells.
#[inline(always)]
fn computed(
    alloc: Global,
    entry: &Entry<'_>,
    piece: &Piece,
    kind: OpKind,
    first: &Cell,
    second: &Cell,
) -> Result<Cell, NoMemory> {
    match (first, second) {
        (Cell::Bits(first), Cell::Bits(second)) if first.mask == 0 && second.mask == 0 => {
            Ok(known(kind.result(first.value, second.value)))
        }
        _ => compute(
            alloc,
            entry.book,
            Operation::Result(kind),
            first,
            second,
            &piece.unknowns,
        ),
    }
}

/// A load of a piece.
fn load(
    alloc: Global,
    entry: &Entry<'_>,
    piece: &mut Piece,
    kind: LoadKind,
    rd: u8,
    address: Cell,
) -> Result<Turned, NoMemory>
    requires { rd < 32 }
{
    let pc = piece.pc;
    let cell = match addresses_of(alloc, &address, &piece.unknowns)? {
        Addresses::One(address) => {
            if !is_inside(entry.machine.base(), address, kind.size()) {
                return Ok(stopped(Fault::LoadOutside { pc, address }));
            }
            load_at(alloc, entry, piece, kind, address)?
        }
        Addresses::Some(addresses) => {
            if let Some(address) = outside_load(entry, kind, addresses.as_slice()) {
                return Ok(stopped(Fault::LoadOutside { pc, address }));
            }
            load_some(alloc, entry, piece, kind, &address, addresses.as_slice())?
        }
        Addresses::TooMany(mask) => return Ok(left(entry.region.id, pc, mask)),
    };
    Ok(put(entry, piece, rd, cell))
}

/// A store of a piece at one address.
fn store_one(
    alloc: Global,
    entry: &Entry<'_>,
    piece: &mut Piece,
    kind: StoreKind,
    address: u32,
    value: &Cell,
) -> Result<Turned, NoMemory> {
    let pc = piece.pc;
    let addresses = [address];
    if outside_store(entry, kind, &addresses).is_some() {
        return Ok(stopped(Fault::StoreOutside { pc, address }));
    }
    if let Some(broken) = first_store_break(entry, pc, kind, &addresses) {
        return Ok(Turned::NotShown(HoldFault::Broken(broken)));
    }
    store_at(alloc, entry, piece, kind, address, value)?;
    piece.pc = pc.wrapping_add(4);
    Ok(Turned::On)
}

/// A store of a piece at one of several addresses.
fn store_each(
    alloc: Global,
    entry: &Entry<'_>,
    piece: &mut Piece,
    kind: StoreKind,
    addresses: &[u32],
    value: &Cell,
) -> Result<Turned, NoMemory> {
    let pc = piece.pc;
    if let Some(address) = outside_store(entry, kind, addresses) {
        return Ok(stopped(Fault::StoreOutside { pc, address }));
    }
    if let Some(broken) = first_store_break(entry, pc, kind, addresses) {
        return Ok(Turned::NotShown(HoldFault::Broken(broken)));
    }
    store_some(alloc, entry, piece, kind, addresses, value)?;
    piece.pc = pc.wrapping_add(4);
    Ok(Turned::On)
}

/// A store of a piece.
fn store(
    alloc: Global,
    entry: &Entry<'_>,
    piece: &mut Piece,
    kind: StoreKind,
    rs2: u8,
    address: Cell,
) -> Result<Turned, NoMemory>
    requires { rs2 < 32 }
{
    let value = piece.register_copy(rs2)?;
    match addresses_of(alloc, &address, &piece.unknowns)? {
        Addresses::One(address) => store_one(alloc, entry, piece, kind, address, &value),
        Addresses::Some(addresses) => {
            store_each(alloc, entry, piece, kind, addresses.as_slice(), &value)
        }
        Addresses::TooMany(mask) => Ok(left(entry.region.id, piece.pc, mask)),
    }
}

/// What an operation of a register and an immediate makes; the register is named first.
#[inline(always)]
fn with_immediate(
    alloc: Global,
    entry: &Entry<'_>,
    piece: &mut Piece,
    kind: OpKind,
    rs1: u8,
    immediate: i32,
) -> Result<Cell, NoMemory>
    requires { rs1 < 32 }
{
    name_register(alloc, piece, rs1)?;
    let immediate = known(immediate.cast_unsigned());
    computed(alloc, entry, piece, kind, piece.register(rs1), &immediate)
}

/// What an operation of two registers makes; the registers are named first.
#[inline(always)]
fn with_registers(
    alloc: Global,
    entry: &Entry<'_>,
    piece: &mut Piece,
    kind: OpKind,
    rs1: u8,
    rs2: u8,
) -> Result<Cell, NoMemory>
    requires first { rs1 < 32 }
    requires second { rs2 < 32 }
{
    name_register(alloc, piece, rs1)?;
    name_register(alloc, piece, rs2)?;
    computed(
        alloc,
        entry,
        piece,
        kind,
        piece.register(rs1),
        piece.register(rs2),
    )
}

/// The turn of an instruction that is no branch.
#[inline(always)]
fn make_plain(
    alloc: Global,
    entry: &Entry<'_>,
    piece: &mut Piece,
    instr: Instr,
) -> Result<Turned, NoMemory>
    requires { InRange instr }
{
    let pc = piece.pc;
    match instr {
        Instr::Lui { rd, imm } => Ok(put(entry, piece, rd, known(upper(imm)))),
        Instr::Auipc { rd, imm } => Ok(put(entry, piece, rd, known(pc.wrapping_add(upper(imm))))),
        Instr::Jal { rd, offset } => Ok(jump(entry, piece, rd, pc.wrapping_add_signed(offset))),
        Instr::Jalr { rd, rs1, imm } => jump_by_register(alloc, entry, piece, rd, rs1, imm),
        Instr::Load { kind, rd, rs1, imm } => {
            let address = with_immediate(alloc, entry, piece, OpKind::Add, rs1, imm)?;
            load(alloc, entry, piece, kind, rd, address)
        }
        Instr::Store {
            kind,
            rs1,
            rs2,
            imm,
        } => {
            let address = with_immediate(alloc, entry, piece, OpKind::Add, rs1, imm)?;
            store(alloc, entry, piece, kind, rs2, address)
        }
        Instr::OpImm { kind, rd, rs1, imm } => {
            let cell = with_immediate(alloc, entry, piece, kind.operation(), rs1, imm)?;
            Ok(put(entry, piece, rd, cell))
        }
        Instr::Op { kind, rd, rs1, rs2 } => {
            let cell = with_registers(alloc, entry, piece, kind, rs1, rs2)?;
            Ok(put(entry, piece, rd, cell))
        }
        Instr::Branch {
            kind,
            rs1,
            rs2,
            offset,
        } => {
            let branch = Branch {
                kind,
                rs1,
                rs2,
                offset,
            };
            make_branch(alloc, entry, piece, branch)
        }
        Instr::Fence { .. } => {
            piece.pc = pc.wrapping_add(4);
            Ok(Turned::On)
        }
        Instr::Ecall => Ok(Turned::NotShown(HoldFault::Broken(Break::CallInRegion {
            region: entry.region.id,
            pc,
        }))),
        Instr::Ebreak => Ok(stopped(Fault::Breakpoint { pc })),
    }
}

/// A turn of a piece inside the region.
#[inline(always)]
pub(crate) fn make_turn(
    alloc: Global,
    entry: &Entry<'_>,
    piece: &mut Piece,
) -> Result<Turned, NoMemory>
    requires { piece.old.turns < entry.now.turns_left }
{
    let pc = piece.pc;
    let word = match fetched(entry, piece) {
        Ok(word) => word,
        Err(fault) => return Ok(Turned::NotShown(fault)),
    };
    match decode(word) {
        Some(instr) => {
            piece.turns += 1;
            make_plain(alloc, entry, piece, instr)
        }
        None => Ok(stopped(Fault::Illegal { pc, word })),
    }
}
