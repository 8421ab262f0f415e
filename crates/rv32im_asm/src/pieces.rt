//! The bytes of operations.

ghost use Rattle.std.specs.Prelude.{◌≡◌, ◌<◌, ◌≤◌, ◌++◌, length, option_map, IfSome, OnOk, Some, None, if◌then◌else◌};
ghost use Rattle.std.specs.Prelude.{nat_abs};
ghost use Rattle.std.specs.Prelude.{pos, neg_ℤ, ◌≤ℤ◌, ◌<ℤ◌};
ghost use Rattle.rv32im_asm.specs.Encodings.{bytes_with, constant_bytes, high_part, is_branch_offset, is_immediate};
ghost use Rattle.rv32im_asm.specs.Encodings.{is_jump_offset, is_operand, low_part, word_bytes};
ghost use Rattle.rv32im_asm.specs.Private.Pieces.{bytes_in};
ghost use Rattle.rv32im_asm.specs.Sizes.{is_between, size_with};
ghost use Rattle.rv32im_asm.specs.Statements.{HasRegisters};
ghost use Rattle.rv32im_decode.specs.Encoding.{encoded, InRange};
ghost use Rattle.rv32im_decode.specs.Operations.{word_of};

use crate::statements::Operation;
use rv32im_decode::{ImmKind, Instr, encode};

/// Bytes of a program.
#[derive(Clone, Copy)]
pub enum Piece {
    Nothing,
    Byte(u8),
    Word(u32),
    Words(u32, u32),
    Zeros(u32),
}

/// The size in bytes of an operation; None where the number of zeros does not fit.
pub fn size(operation: Operation, number: i64) -> Option<u64>
    ensures exact { result ≡ size_with operation number }
    ensures small { IfSome result (λ size. size ≤ 1048576) }
{
    match operation {
        Operation::Nothing => Some(0),
        Operation::Constant { .. } => Some(8),
        Operation::Byte => Some(1),
        Operation::Zero => if 0 <= number && number <= 0x10_0000 {
            Some(number as u64)
        } else {
            None
        },
        _ => Some(4),
    }
}

/// A number that lies between two others.
fn between(low: i32, high: i32, number: i64) -> Option<i32>
    ensures { result ≡ (if is_between low high number then Some number else None) }
{
    if i64::from(low) <= number && number <= i64::from(high) {
        Some(number as i32)
    } else {
        None
    }
}

/// A number from 0 to another.
fn up_to(high: u32, number: i64) -> Option<u32>
    ensures { result ≡ (if is_between (pos 0) (pos high) number then Some (nat_abs number) else None) }
{
    if 0 <= number && number <= i64::from(high) {
        Some(number as u32)
    } else {
        None
    }
}

/// A number as an immediate of 12 bits.
fn immediate(number: i64) -> Option<i32>
    ensures { result ≡ (if is_immediate number then Some number else None) }
{
    between(-2048, 2047, number)
}

/// A number as the immediate of a register-immediate instruction.
fn operand(kind: ImmKind, number: i64) -> Option<i32>
    ensures { result ≡ (if is_operand kind number then Some number else None) }
{
    if kind.is_shift() {
        between(0, 31, number)
    } else {
        immediate(number)
    }
}

/// A number as the offset of a branch.
fn branch_offset(number: i64) -> Option<i32>
    ensures { result ≡ (if is_branch_offset number then Some number else None) }
{
    let offset = between(-4096, 4095, number)?;
    if number.unsigned_abs() % 2 == 0 {
        Some(offset)
    } else {
        None
    }
}

/// A number as the offset of a jump.
fn jump_offset(number: i64) -> Option<i32>
    ensures { result ≡ (if is_jump_offset number then Some number else None) }
{
    let offset = between(-0x10_0000, 0xf_ffff, number)?;
    if number.unsigned_abs() % 2 == 0 {
        Some(offset)
    } else {
        None
    }
}

/// A number in two's complement.
fn word(number: i64) -> u64
    ensures { result ≡ word_of number }
{
    if number < 0 {
        0x1_0000_0000_u64.saturating_sub(number.unsigned_abs())
    } else {
        number as u64
    }
}

/// LUI and ADDI that put a word into a register.
fn constant(rd: u8, word: u64) -> Piece
    requires rd_fits { rd < 32 }
    requires word_fits { word < 9223372036854775808 }
    ensures { bytes_in result ≡ constant_bytes rd word }
{
    let high = ((word + 0x800) % 0x1_0000_0000 / 0x1000) as u32;
    let low = (word % 0x1000) as i32;
    let imm = if low < 0x800 { low } else { low - 0x1000 };
    Piece::Words(
        encode(&Instr::Lui { rd, imm: high }),
        encode(&Instr::OpImm {
            kind: ImmKind::Addi,
            rd,
            rs1: rd,
            imm,
        }),
    )
}

/// The bytes of an instruction.
fn one(instruction: Instr) -> Option<Piece>
    requires { InRange instruction }
    ensures { option_map bytes_in result ≡ Some (word_bytes (encoded instruction)) }
{
    Some(Piece::Word(encode(&instruction)))
}

/// The bytes of an operation; None where its number does not fit.
pub fn encode_operation(operation: Operation, number: i64) -> Option<Piece>
    requires { HasRegisters operation }
    ensures exact { option_map bytes_in result ≡ bytes_with operation number }
    ensures size { IfSome result (λ piece. size_with operation number ≡ Some (length (bytes_in piece))) }
{
    piece_of(operation, number)
}

/// What an operation puts into a program; None where its number does not fit.
fn piece_of(operation: Operation, number: i64) -> Option<Piece>
    requires { HasRegisters operation }
    ensures { option_map bytes_in result ≡ bytes_with operation number }
{
    match operation {
        Operation::Nothing => Some(Piece::Nothing),
        Operation::Op { kind, rd, rs1, rs2 } => one(Instr::Op { kind, rd, rs1, rs2 }),
        Operation::Ecall => one(Instr::Ecall),
        Operation::Ebreak => one(Instr::Ebreak),
        Operation::Immediate { kind, rd, rs1 } => {
            let imm = operand(kind, number)?;
            one(Instr::OpImm { kind, rd, rs1, imm })
        }
        Operation::Load { kind, rd, rs1 } => {
            let imm = immediate(number)?;
            one(Instr::Load { kind, rd, rs1, imm })
        }
        Operation::Store { kind, rs1, rs2 } => {
            let imm = immediate(number)?;
            one(Instr::Store {
                kind,
                rs1,
                rs2,
                imm,
            })
        }
        Operation::Jalr { rd, rs1 } => {
            let imm = immediate(number)?;
            one(Instr::Jalr { rd, rs1, imm })
        }
        Operation::Lui { rd } => {
            let imm = up_to(0xf_ffff, number)?;
            one(Instr::Lui { rd, imm })
        }
        Operation::Auipc { rd } => {
            let imm = up_to(0xf_ffff, number)?;
            one(Instr::Auipc { rd, imm })
        }
        Operation::Fence { rd, rs1 } => {
            let imm = up_to(0xfff, number)?;
            one(Instr::Fence { rd, rs1, imm })
        }
        Operation::Branch { kind, rs1, rs2 } => {
            let offset = branch_offset(number)?;
            one(Instr::Branch {
                kind,
                rs1,
                rs2,
                offset,
            })
        }
        Operation::Jal { rd } => {
            let offset = jump_offset(number)?;
            one(Instr::Jal { rd, offset })
        }
        Operation::Constant { rd } => Some(constant(rd, word(number))),
        Operation::Word => Some(Piece::Word((word(number) % 0x1_0000_0000) as u32)),
        Operation::Byte => {
            let _ = between(-128, 255, number)?;
            Some(Piece::Byte((word(number) % 256) as u8))
        }
        Operation::Zero => Some(Piece::Zeros(up_to(0x10_0000, number)?)),
    }
}
