ghost use Rattle.std.specs.Prelude.{◌≡◌, ◌≢◌, ℕ, ◌+◌, ◌<◌, ◌≤◌, ◌^◌, ◌++◌, List as Seq, Err, IfOk, IfSome, OnOk};
ghost use Rattle.std.specs.Prelude.{length, replicate};
ghost use Rattle.std.specs.Prelude.{ℤ, Some, option_map};
ghost use Rattle.std.specs.Option.{option_and_then, option_copied};
ghost use Rattle.elf32_loader.specs.Images.{image_picture};
ghost use Rattle.rv32im_asm.specs.Answers.{answer_of};
ghost use Rattle.rv32im_asm.specs.Assembling.{one_segment, assembled, bytes_for, is_aligned as stands_aligned};
ghost use Rattle.rv32im_asm.specs.Assembling.{placed_bytes};
ghost use Rattle.rv32im_asm.specs.Assembling.{unplaced_bytes};
ghost use Rattle.rv32im_asm.specs.Assembling.{stands_before, or_range as or_range_fault};
ghost use Rattle.rv32im_asm.specs.Assembling.{reading as read_as, reading_with};
ghost use Rattle.rv32im_asm.specs.Assembling.{first_failing as first_to_fail, known_places, readings};
ghost use Rattle.rv32im_asm.specs.Encodings.{bytes_with};
ghost use Rattle.rv32im_asm.specs.Private.Labels.{IsNear, IsNearBy, places_in};
ghost use Rattle.rv32im_asm.specs.Lines.{lines_of};
ghost use Rattle.rv32im_asm.specs.Operands.{both};
ghost use Rattle.rv32im_asm.specs.Private.Pieces.{IsSized, bytes_in, piece_bytes, reading_bytes};
ghost use Rattle.rv32im_asm.specs.Sizes.{line_size as size_of_line, place_of, places_up_to, size_of, size_with};
ghost use Rattle.rv32im_asm.specs.Statements.{HasRegisters, meaning_of};
ghost use Rattle.rv32im_asm.specs.declared.fault.AsmFault.TheVariants.{Line};

use crate::cutting::first_line;
use crate::fault::{AsmFault, LineKind};
use crate::labels::Labels;
use crate::lines::label;
use crate::meanings::statement_in;
use crate::pieces::{Piece, encode_operation, size};
use crate::places::Place;
use crate::placing::place_labels;
use crate::statements::{Operation, Statement};
use elf32_loader::{Image, Segment};
use flow_base::{Bytes, List, NoMemory};
use std::alloc::Global;

/// The address of the program, which is its entry.
const START: u32 = 0x1_0000;

/// The number of bytes that a program may have.
const LARGEST: u64 = 0x10_0000;

/// Whether instructions and words stand there.
fn is_aligned(operation: Operation) -> bool
    ensures { result ≡ stands_aligned operation }
{
    match operation {
        Operation::Nothing | Operation::Byte | Operation::Zero => false,
        _ => true,
    }
}

/// The bytes of an operation with its number.
fn or_range(line: u32, operation: Operation, number: i64) -> Result<Piece, AsmFault>
    requires { HasRegisters operation }
    ensures exact { piece_bytes result ≡ or_range_fault line (bytes_with operation number) }
    ensures sized { IfOk result (λ piece. IsSized (size_with operation number) (length (bytes_in piece))) }
{
    match encode_operation(operation, number) {
        Some(piece) => Ok(piece),
        None => Err(AsmFault::ImmediateRange { number: line }),
    }
}

/// The bytes of an operation whose number is that of a label, by the bytes before both.
fn placed(line: u32, operation: Operation, here: u64, offset: u64) -> Result<Piece, AsmFault>
    requires registers { HasRegisters operation }
    requires here { here ≤ 1048576 }
    requires near { offset < 2 ^ 60 }
    ensures exact { piece_bytes result ≡ or_range_fault line (placed_bytes operation here offset) }
    ensures sized { IfOk result (λ piece. (number : ℤ)
        → IsSized (size_with operation number) (length (bytes_in piece))) }
{
    match operation {
        Operation::Branch { .. } | Operation::Jal { .. } => or_range(
            line,
            operation,
            offset as i64 - here as i64,
        ),
        Operation::Constant { .. } => or_range(line, operation, i64::from(START) + offset as i64),
        _ => Err(AsmFault::ImmediateRange { number: line }),
    }
}

/// The same where the label has no address, since a line before it fails.
fn unplaced(line: u32, operation: Operation) -> Result<Piece, AsmFault>
    ensures exact { piece_bytes result ≡ or_range_fault line (unplaced_bytes operation) }
    ensures sized { IfOk result (λ piece. (number : ℤ)
        → IsSized (size_with operation number) (length (bytes_in piece))) }
{
    match operation {
        Operation::Branch { .. } | Operation::Jal { .. } | Operation::Constant { .. } => Ok(
            Piece::Nothing,
        ),
        _ => Err(AsmFault::ImmediateRange { number: line }),
    }
}

/// The bytes of a statement at its place.
fn located(
    labels: &Labels,
    reach: u64,
    line: u32,
    here: u64,
    statement: Statement,
) -> Result<Piece, AsmFault>
    requires registers { HasRegisters statement.operation }
    requires here { here ≤ 1048576 }
    requires near { (name : Seq ℕ) → IsNear (places_in labels.now name) }
    ensures exact { piece_bytes result ≡ bytes_for (places_up_to reach (places_in labels.now)) line
        statement.entry.operation here statement.entry.value.number (option_copied statement.entry.value.label) }
    ensures sized { IfOk result (λ piece. IsSized (size_with statement.entry.operation statement.entry.value.number)
        (length (bytes_in piece))) }
{
    let operation = statement.operation;
    let Some(name) = statement.value.label else {
        return or_range(line, operation, statement.value.number);
    };
    let Some(place) = labels.place_up_to(reach, name) else {
        return Err(AsmFault::LabelMissing { number: line });
    };
    match place.offset {
        Some(offset) => placed(line, operation, here, offset),
        None => unplaced(line, operation),
    }
}

/// Whether an earlier line than the one of this index begins with its label.
fn is_taken(labels: &Labels, reach: u64, index: u64, own: Option<&[u8]>) -> bool
    ensures { result ≡ stands_before index (option_and_then (places_up_to reach (places_in labels.now))
        (option_map (λ name. name.now) own.entry)) }
{
    let Some(own) = own else { return false };
    match labels.place_up_to(reach, own) {
        Some(place) => place.index < index,
        None => false,
    }
}

fn line_fault(number: u32, kind: LineKind) -> AsmFault
    ensures { result ≡ Line number kind }
{
    AsmFault::Line { number, kind }
}

/// The bytes and the size of a statement at its place, or the fault of its line.
fn checked(
    labels: &Labels,
    reach: u64,
    line: u32,
    here: u64,
    taken: bool,
    statement: Statement,
) -> Result<(Piece, u64), AsmFault>
    requires registers { HasRegisters statement.operation }
    requires here { here ≤ 1048576 }
    requires near { (name : Seq ℕ) → IsNear (places_in labels.now name) }
    ensures exact { reading_bytes result
        ≡ reading_with (places_up_to reach (places_in labels.now)) line here taken (meaning_of statement.entry) }
    ensures sized { IfOk result (λ found. size_of (meaning_of statement.entry) ≡ Some found.1) }
    ensures shorter { IfOk result (λ found. length (bytes_in found.0) ≤ found.1) }
    ensures fits { IfOk result (λ found. here + found.1 ≤ 1048576) }
{
    if is_aligned(statement.operation) && here % 4 != 0 {
        return Err(line_fault(line, LineKind::Misplaced));
    }
    let size = size(statement.operation, statement.value.number).unwrap_or(0);
    if here + size > LARGEST {
        return Err(line_fault(line, LineKind::TooLong));
    }
    if taken {
        return Err(AsmFault::LabelTwice { number: line });
    }
    let piece = located(labels, reach, line, here, statement)?;
    Ok((piece, size))
}

/// The bytes and the size of a line, or its fault, with the addresses of the labels up to an index.
fn reading(
    labels: &Labels,
    reach: u64,
    index: u64,
    here: u64,
    line: &[u8],
) -> Result<(Piece, u64), AsmFault>
    requires index { index + 1 < 2 ^ 32 }
    requires here { here ≤ 1048576 }
    requires near { (name : Seq ℕ) → IsNear (places_in labels.now name) }
    ensures exact { reading_bytes result ≡ read_as (places_up_to reach (places_in labels.now)) index here line.now }
    ensures sized { IfOk result (λ found. size_of_line line.now ≡ Some found.1) }
    ensures shorter { IfOk result (λ found. length (bytes_in found.0) ≤ found.1) }
    ensures fits { IfOk result (λ found. here + found.1 ≤ 1048576) }
{
    let number = (index + 1) as u32;
    let Some(statement) = statement_in(line) else {
        return Err(line_fault(number, LineKind::Malformed));
    };
    let taken = is_taken(labels, reach, index, label(line));
    checked(labels, reach, number, here, taken, statement)
}

/// The index of the first line that fails with the addresses of the labels up to it; where none does, the number of
/// lines.
fn first_failing(labels: &Labels, source: &[u8]) -> u64
    requires source { length source.now < 2 ^ 32 }
    requires near { (name : Seq ℕ) → IsNear (places_in labels.now name) }
    ensures { result ≡ first_to_fail (places_in labels.now) (lines_of source.now) 0 (lines_of source.now) }
{
    let mut index: u64 = 0;
    let mut here: u64 = 0;
    let mut rest = source;
    while !rest.is_empty() {
        let (line, more) = first_line(rest);
        let size = match reading(labels, index, index, here, line) {
            Ok((_, size)) => size,
            Err(_) => return index,
        };
        here += size;
        index += 1;
        rest = more;
    }
    index
}

/// Puts bytes at the end of a program.
fn put(program: &mut Vec<u8>, piece: Piece) -> Result<(), NoMemory>
    ensures { OnOk result (program.new.items ≡ program.old.items ++ bytes_in piece) }
{
    match piece {
        Piece::Nothing => Ok(()),
        Piece::Byte(byte) => put_bytes(program, &[byte]),
        Piece::Word(word) => put_bytes(program, &word.to_le_bytes()),
        Piece::Words(first, second) => {
            put_bytes(program, &first.to_le_bytes())?;
            put_bytes(program, &second.to_le_bytes())
        }
        Piece::Zeros(count) => put_zeros(program, count),
    }
}

fn put_bytes(program: &mut Vec<u8>, bytes: &[u8]) -> Result<(), NoMemory>
    ensures { OnOk result (program.new.items ≡ program.old.items ++ bytes.now) }
{
    match program.extend_from_slice(bytes) {
        Ok(()) => Ok(()),
        Err(_) => Err(NoMemory),
    }
}

fn put_zeros(program: &mut Vec<u8>, count: u32) -> Result<(), NoMemory>
    ensures { OnOk result (program.new.items ≡ program.old.items ++ replicate count 0) }
{
    let size = program.len() + count as usize;
    match program.resize(size, 0) {
        Ok(()) => Ok(()),
        Err(_) => Err(NoMemory),
    }
}

/// The bytes of a source.
fn program(alloc: Global, source: &[u8]) -> Result<Bytes, AsmFault>
    requires { length source.now < 2 ^ 32 }
    ensures exact { result ≢ Err AsmFault.Memory
        → result ≡ readings (known_places (lines_of source.now)) (lines_of source.now) 0 (lines_of source.now) }
    ensures small { IfOk result (λ program. length program ≤ 1048576) }
{
    let labels = place_labels(alloc, source)?;
    let reach = first_failing(&labels, source);
    let mut program: Vec<u8> = Vec::new(alloc);
    let mut index: u64 = 0;
    let mut here: u64 = 0;
    let mut rest = source;
    while !rest.is_empty() {
        let (line, more) = first_line(rest);
        let (piece, size) = reading(&labels, reach, index, here, line)?;
        put(&mut program, piece)?;
        here += size;
        index += 1;
        rest = more;
    }
    Ok(Bytes::from_vec(program))
}

/// The image of a program.
fn image(alloc: Global, program: Bytes) -> Result<Image, NoMemory>
    requires some { 0 < length program }
    requires small { length program ≤ 1048576 }
    ensures { IfOk result (λ image. image_picture image ≡ one_segment program) }
{
    let mut segments = List::new(alloc);
    segments.push(Segment {
        address: START,
        bytes: program,
    })?;
    Ok(Image {
        base: START,
        entry: START,
        segments,
    })
}

/// The image of a source: one segment at 0x00010000, which is its base and its entry, with the bytes of its lines one
/// after the other.
///
/// A line is a label, a statement or both, and `#` starts a comment. The statements are the instructions of RV32IM with
/// their operands (RISC-V Unprivileged ISA; registers also by their names in the calling convention), the
/// pseudoinstructions `nop`, `ret`, `mv`, `j`, `li` and `la`, of which the last two have always two instructions, and
/// `.word`, `.byte` and `.zero`.
///
/// The fault is that of the first line that fails, and of several in one line the first of these:
/// [`AsmFault::Line`] where the line is not of a form, where an instruction or a word does not stand at a multiple of 4
/// bytes, or where the program exceeds 1,048,576 bytes with the line; [`AsmFault::LabelTwice`] where an earlier line
/// begins with the same label; [`AsmFault::LabelMissing`] where no line begins with the label that is named;
/// [`AsmFault::ImmediateRange`] where a number or an offset does not fit its field, or an offset is odd. A label after
/// the first line that fails with the addresses of the labels up to it has none, and no line fails for that. Where no
/// line fails and the program has no byte it is [`AsmFault::Line`] with number 0, and lack of memory answers
/// [`AsmFault::Memory`].
pub fn assemble(alloc: Global, source: &[u8]) -> Result<Image, AsmFault>
    requires { length source.now < 2 ^ 32 }
    ensures { result ≢ Err AsmFault.Memory → answer_of result ≡ assembled source.now }
{
    let program = program(alloc, source)?;
    if program.len() == 0 {
        return Err(line_fault(0, LineKind::Empty));
    }
    Ok(image(alloc, program)?)
}
