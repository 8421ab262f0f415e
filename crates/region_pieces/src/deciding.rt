ghost use Rattle.std.specs.Prelude.{◌<◌};

use crate::entries::Entry;
use crate::naming::name_register;
use crate::outcomes::{Turned, stopped};
use crate::pieces::Piece;
use flow_base::NoMemory;
use piece_cells::{Bits, ByteSet, Cell, Decided, Unknown, agreeing, decide, tell};
use rv32im_decode::BranchKind;
use rv32im_machine::Fault;
use std::alloc::Global;

/// A branch of a piece: what it compares and how far it goes.
#[derive(Clone, Copy)]
pub(crate) struct Branch {
    pub kind: BranchKind,
    pub rs1: u8,
    pub rs2: u8,
    pub offset: i32,
}

/// The address of the next instruction where a branch is taken, if it can be.
fn target_of(piece: &Piece, branch: Branch) -> Option<u32> {
    let target = piece.pc.wrapping_add_signed(branch.offset);
    if target % 4 == 0 { Some(target) } else { None }
}

/// The piece goes the way of the branch.
#[inline(always)]
fn go(piece: &mut Piece, branch: Branch, taken: bool) -> Turned {
    if !taken {
        piece.pc = piece.pc.wrapping_add(4);
        return Turned::On;
    }
    match target_of(piece, branch) {
        Some(target) => {
            piece.pc = target;
            Turned::On
        }
        None => stopped(Fault::FetchUnaligned { pc: piece.pc }),
    }
}

/// What a way tells of a register goes into the piece. False where no state has such bits.
fn tell_register(piece: &mut Piece, register: u8, told: Bits) -> Result<bool, NoMemory>
    requires { register < 32 }
{
    let (unknown, set) = match piece.register(register) {
        Cell::Bits(_) => {
            piece.set_register(register, Cell::Bits(told));
            return Ok(true);
        }
        Cell::ByTable(table) => {
            let unknown = table.unknown();
            (
                unknown,
                agreeing(table, piece.unknowns.set_of(unknown), told),
            )
        }
    };
    if set.is_empty() {
        return Ok(false);
    }
    piece.unknowns.narrow(unknown, set)
}

/// What a way of a branch tells goes into the piece. False where no state goes this way.
fn tell_way(piece: &mut Piece, branch: Branch, taken: bool) -> Result<bool, NoMemory>
    requires first { branch.rs1 < 32 }
    requires second { branch.rs2 < 32 }
{
    let first = piece.bits(branch.rs1);
    let second = piece.bits(branch.rs2);
    match tell(branch.kind, taken, first, second) {
        Some((first, second)) => {
            Ok(
                tell_register(piece, branch.rs1, first)?
                    && tell_register(piece, branch.rs2, second)?,
            )
        }
        None => Ok(false),
    }
}

/// The piece takes the branch, and the other does not, where states go each way.
fn go_both(piece: &mut Piece, other: Piece, branch: Branch, takes: bool, leaves: bool) -> Turned {
    let mut other = other;
    if !takes {
        if !leaves {
            return Turned::Gone;
        }
        *piece = other;
        return go(piece, branch, false);
    }
    match go(piece, branch, true) {
        Turned::On if leaves => {
            other.pc = other.pc.wrapping_add(4);
            Turned::Beside(other)
        }
        turned => turned,
    }
}

/// A decision by what is not known goes both ways.
#[inline(never)]
fn go_told(alloc: Global, piece: &mut Piece, branch: Branch) -> Result<Turned, NoMemory>
    requires first { branch.rs1 < 32 }
    requires second { branch.rs2 < 32 }
{
    let mut other = piece.copied(alloc)?;
    let takes = tell_way(piece, branch, true)?;
    let leaves = tell_way(&mut other, branch, false)?;
    Ok(go_both(piece, other, branch, takes, leaves))
}

/// A decision by an unknown byte goes both ways, each with the bytes that go so.
#[inline(never)]
fn go_by_table(
    alloc: Global,
    piece: &mut Piece,
    branch: Branch,
    unknown: Unknown,
    taken: ByteSet,
    left: ByteSet,
) -> Result<Turned, NoMemory> {
    let mut other = piece.copied(alloc)?;
    let takes = piece.unknowns.narrow(unknown, taken)?;
    let leaves = other.unknowns.narrow(unknown, left)?;
    Ok(go_both(piece, other, branch, takes, leaves))
}

/// A branch of a piece.
pub(crate) fn make_branch(
    alloc: Global,
    entry: &Entry<'_>,
    piece: &mut Piece,
    branch: Branch,
) -> Result<Turned, NoMemory>
    requires first { branch.rs1 < 32 }
    requires second { branch.rs2 < 32 }
{
    name_register(alloc, piece, branch.rs1)?;
    name_register(alloc, piece, branch.rs2)?;
    let first = piece.register(branch.rs1);
    let second = piece.register(branch.rs2);
    match decide(entry.book, branch.kind, first, second, &piece.unknowns) {
        Decided::Known(taken) => Ok(go(piece, branch, taken)),
        Decided::ByTable {
            unknown,
            taken,
            left,
        } => go_by_table(alloc, piece, branch, unknown, taken, left),
        Decided::Open => go_told(alloc, piece, branch),
    }
}
