//! What a branch decides on two cells.

ghost use Rattle.std.specs.Prelude.{ℕ, ◌<◌, ◌^◌, slice_index};
ghost use Rattle.piece_cells.specs.Cells.{Bytes, HasBits, Holds, value_at};
ghost use Rattle.piece_cells.specs.Deciding.{Each, IsDecided};

use crate::byte_sets::ByteSet;
use crate::cells::{Bits, Cell, Table, value_at};
use crate::computing::{mask_of_operation, unknown_of};
use crate::covering::bits_of;
use crate::unknowns::{Unknown, Unknowns};
use rv32im_decode::BranchKind;
use rv32im_machine::Operation;
use transfer_rules::RuleBook;

/// Whether a branch is taken: known; known for each value of an unknown byte, by the bytes at which it is taken and those
/// at which it is left; or open.
#[derive(Clone, Copy)]
pub enum Decided {
    Known(bool),
    ByTable {
        unknown: Unknown,
        taken: ByteSet,
        left: ByteSet,
    },
    Open,
}

/// What is decided by a table over an unknown byte that may be the bytes of a set.
fn decide_by_table(
    kind: BranchKind,
    first: &Cell,
    second: &Cell,
    unknown: Unknown,
    set: ByteSet,
) -> Decided
    ensures { (bytes : Bytes) → bytes unknown < 256 → Holds set (bytes unknown) →
        IsDecided kind result bytes (value_at first.now (bytes unknown)) (value_at second.now (bytes unknown)) }
{
    let mut taken = ByteSet::empty();
    let mut left = ByteSet::empty();
    for at in 0..256u16 {
        let byte = at as u8;
        if set.contains(byte) {
            if kind.is_taken(value_at(first, byte), value_at(second, byte)) {
                taken.insert(byte);
            } else {
                left.insert(byte);
            }
        }
    }
    if taken.is_empty() {
        Decided::Known(false)
    } else if left.is_empty() {
        Decided::Known(true)
    } else {
        Decided::ByTable {
            unknown,
            taken,
            left,
        }
    }
}

/// What is decided of bits.
fn decide_bits(book: &RuleBook, kind: BranchKind, first: Bits, second: Bits) -> Decided
    ensures { (bytes : Bytes) (one other : ℕ) → one < 2 ^ 32 → other < 2 ^ 32 → HasBits first one →
        HasBits second other → IsDecided kind result bytes one other }
{
    if mask_of_operation(book, Operation::Decision(kind), first, second) == 0 {
        Decided::Known(kind.is_taken(first.value, second.value))
    } else {
        Decided::Open
    }
}

/// What a branch decides on two cells: by a table where both are over one unknown byte, else as the book's rule knows it
/// of their bits.
pub fn decide(
    book: &RuleBook,
    kind: BranchKind,
    first: &Cell,
    second: &Cell,
    unknowns: &Unknowns,
) -> Decided
    ensures { Each unknowns.now first.now second.now (IsDecided kind result) }
{
    if let Some(unknown) = unknown_of(first, second) {
        return decide_by_table(kind, first, second, unknown, unknowns.set_of(unknown));
    }
    decide_bits(
        book,
        kind,
        bits_of(first, unknowns),
        bits_of(second, unknowns),
    )
}

/// Of the bytes of a set those at which the word of a table has these bits.
pub fn agreeing(table: &Table, set: ByteSet, bits: Bits) -> ByteSet
    ensures { (byte : ℕ) → byte < 256 → Holds set byte → HasBits bits (slice_index table.now.values byte) →
        Holds result byte }
{
    let mut bytes = ByteSet::empty();
    for at in 0..256u16 {
        let byte = at as u8;
        if set.contains(byte) && bits.has(table.value(byte)) {
            bytes.insert(byte);
        }
    }
    bytes
}
