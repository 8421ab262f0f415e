//! What is computed from two cells.

ghost use Rattle.std.specs.Prelude.{◌≡◌, ℕ, ◌<◌, ◌^◌, IfOk, IfSome, slice_index};
ghost use Rattle.rv32im_machine.specs.Language.{computed};
ghost use Rattle.flow_base.specs.Words.{Agree};
ghost use Rattle.transfer_rules.specs.Soundness.{KeepsMask};
ghost use Rattle.piece_cells.specs.Cells.{HasBits, IsAt, IsOver};
ghost use Rattle.piece_cells.specs.Deciding.{Computes};

use crate::cells::{Bits, Cell, Table, value_at};
use crate::covering::{bits_of, bits_over};
use crate::unknowns::{Unknown, Unknowns};
use flow_base::NoMemory;
use rv32im_machine::Operation;
use std::alloc::Global;
use transfer_rules::{Operands, RuleBook, class_of_branch, class_of_operation, target_mask};

/// The cell of a table of 256 words, in the order of the unknown byte's values: bits where all that it may be are one
/// word. The one error is `NoMemory`.
pub(crate) fn cell_of(
    alloc: Global,
    unknown: Unknown,
    words: [u32; 256],
    unknowns: &Unknowns,
) -> Result<Cell, NoMemory>
    ensures { IfOk result (λ cell. IsAt unknowns.now unknown (slice_index words) cell) }
{
    let table = Table::new(alloc, unknown, words)?;
    let bits = bits_over(&table, unknowns.set_of(unknown));
    if bits.mask == 0 {
        return Ok(Cell::Bits(bits));
    }
    Ok(Cell::ByTable(table))
}

fn word_or_zero(words: &[u32], at: usize) -> u32
    ensures { result ≡ slice_index words.now at }
{
    match words.get(at) {
        Some(word) => *word,
        None => 0,
    }
}

/// The cell of a table of words, in the order of the unknown byte's values; a word that is missing is 0. The one error
/// is `NoMemory`.
pub fn by_table(
    alloc: Global,
    unknown: Unknown,
    values: Vec<u32>,
    unknowns: &Unknowns,
) -> Result<Cell, NoMemory>
    ensures { IfOk result (λ cell. IsAt unknowns.now unknown (slice_index values.items) cell) }
{
    let mut words = [0u32; 256];
    for at in 0..256usize {
        words[at] = word_or_zero(values.as_slice(), at);
    }
    cell_of(alloc, unknown, words, unknowns)
}

/// What an operation gives of two words.
fn value_of(operation: Operation, first: u32, second: u32) -> u32
    ensures { result ≡ computed operation first second }
{
    match operation {
        Operation::Result(kind) => kind.result(first, second),
        Operation::Decision(kind) => u32::from(kind.is_taken(first, second)),
        Operation::Target => {
            let sum = first.wrapping_add(second);
            sum - sum % 2
        }
    }
}

/// The mask that the book's rule answers for an operation.
fn answered_mask(book: &RuleBook, operation: Operation, operands: Operands) -> u32
    ensures { KeepsMask operands result (computed operation) }
{
    match operation {
        Operation::Result(kind) => book.mask(class_of_operation(kind), operands),
        Operation::Decision(kind) => book.mask(class_of_branch(kind), operands),
        Operation::Target => target_mask(book, operands),
    }
}

/// The bits in which what an operation gives of bits may differ: none where all bits are known, else the book's answer.
pub(crate) fn mask_of_operation(
    book: &RuleBook,
    operation: Operation,
    first: Bits,
    second: Bits,
) -> u32
    ensures { (one other : ℕ) → one < 2 ^ 32 → other < 2 ^ 32 → HasBits first one → HasBits second other →
        Agree result (computed operation first.value second.value) (computed operation one other) }
{
    if first.mask | second.mask == 0 {
        return 0;
    }
    let operands = Operands {
        v1: first.value,
        m1: first.mask,
        v2: second.value,
        m2: second.mask,
    };
    answered_mask(book, operation, operands)
}

/// The unknown byte over which both cells are, a cell whose bits are all known being over any; None where there is none,
/// and where neither is by a table.
pub(crate) fn unknown_of(first: &Cell, second: &Cell) -> Option<Unknown>
    ensures first { IfSome result (λ unknown. IsOver unknown first.now) }
    ensures second { IfSome result (λ unknown. IsOver unknown second.now) }
{
    match (first, second) {
        (Cell::ByTable(first), Cell::ByTable(second)) => {
            if first.unknown() == second.unknown() {
                Some(first.unknown())
            } else {
                None
            }
        }
        (Cell::ByTable(first), Cell::Bits(bits)) => if bits.mask == 0 {
            Some(first.unknown())
        } else {
            None
        },
        (Cell::Bits(bits), Cell::ByTable(second)) => if bits.mask == 0 {
            Some(second.unknown())
        } else {
            None
        },
        _ => None,
    }
}

/// What an operation gives of two cells: by a table where both are over one unknown byte, else bits, with the mask that
/// the book answers. The one error is `NoMemory`.
pub fn compute(
    alloc: Global,
    book: &RuleBook,
    operation: Operation,
    first: &Cell,
    second: &Cell,
    unknowns: &Unknowns,
) -> Result<Cell, NoMemory>
    ensures { IfOk result (λ cell. Computes operation unknowns.now first.now second.now cell) }
{
    let Some(unknown) = unknown_of(first, second) else {
        let first = bits_of(first, unknowns);
        let second = bits_of(second, unknowns);
        return Ok(Cell::Bits(Bits {
            value: value_of(operation, first.value, second.value),
            mask: mask_of_operation(book, operation, first, second),
        }));
    };
    let mut words = [0u32; 256];
    for at in 0..256usize {
        words[at] = value_of(
            operation,
            value_at(first, at as u8),
            value_at(second, at as u8),
        );
    }
    cell_of(alloc, unknown, words, unknowns)
}
