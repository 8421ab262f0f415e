//! From words to instructions.

ghost use Rattle.std.specs.Prelude.{◌≡◌};
ghost use Rattle.rv32im_decode.specs.Encoding.{IsDecoded};
ghost use Rattle.rv32im_decode.specs.Listings.{is_shift};
ghost use Rattle.rv32im_decode.specs.Kinds.{branch_kind, load_kind, store_kind, imm_kind};
ghost use Rattle.rv32im_decode.specs.Kinds.{op_kind};
ghost use Rattle.rv32im_decode.specs.Decoding.{decoded_jalr, decoded_branch, decoded_load};
ghost use Rattle.rv32im_decode.specs.Decoding.{decoded_store, decoded_op_imm, decoded_op};
ghost use Rattle.rv32im_decode.specs.Decoding.{decoded, decoded_fence, decoded_system, immediate_of};

use crate::fields::{
    branch_offset, fence_immediate, funct3, funct7, immediate, jump_offset, opcode, rd, rs1, rs2,
    store_immediate, upper_immediate,
};
use crate::instructions::{ImmKind, Instr};
use crate::kinds::{find_branch, find_imm, find_load, find_op, find_store};
use crate::opcodes::{AUIPC, BRANCH, JAL, JALR, LOAD, LUI, MISC_MEM, OP, OP_IMM, STORE};

/// The instruction of a word; `None` where the word is no instruction, which is exactly where no instruction in range
/// has it as its word (RISC-V Unprivileged ISA, "RV32/64G Instruction Set Listings").
#[inline(always)]
pub fn decode(word: u32) -> Option<Instr>
    ensures exact { result ≡ decoded word }
    ensures told { IsDecoded word result }
{
    decode_by_opcode(word)
}

#[tactic(auto, unfolding(crate::specs::Decoding::decoded))]
#[inline(always)]
fn decode_by_opcode(word: u32) -> Option<Instr>
    ensures { result ≡ decoded word }
{
    match opcode(word) {
        LUI => Some(Instr::Lui {
            rd: rd(word),
            imm: upper_immediate(word),
        }),
        AUIPC => Some(Instr::Auipc {
            rd: rd(word),
            imm: upper_immediate(word),
        }),
        JAL => Some(Instr::Jal {
            rd: rd(word),
            offset: jump_offset(word),
        }),
        JALR => decode_jalr(word),
        BRANCH => decode_branch(word),
        LOAD => decode_load(word),
        STORE => decode_store(word),
        OP_IMM => decode_op_imm(word),
        OP => decode_op(word),
        MISC_MEM => decode_fence(word),
        _ => decode_system(word),
    }
}

#[inline(always)]
fn decode_jalr(word: u32) -> Option<Instr>
    ensures { result ≡ decoded_jalr word }
{
    if funct3(word) == 0 {
        Some(Instr::Jalr {
            rd: rd(word),
            rs1: rs1(word),
            imm: immediate(word),
        })
    } else {
        None
    }
}

#[inline(always)]
fn decode_branch(word: u32) -> Option<Instr>
    ensures { result ≡ decoded_branch word }
{
    let kind = find_branch(funct3(word))?;
    Some(Instr::Branch {
        kind,
        rs1: rs1(word),
        rs2: rs2(word),
        offset: branch_offset(word),
    })
}

#[inline(always)]
fn decode_load(word: u32) -> Option<Instr>
    ensures { result ≡ decoded_load word }
{
    let kind = find_load(funct3(word))?;
    Some(Instr::Load {
        kind,
        rd: rd(word),
        rs1: rs1(word),
        imm: immediate(word),
    })
}

#[inline(always)]
fn decode_store(word: u32) -> Option<Instr>
    ensures { result ≡ decoded_store word }
{
    let kind = find_store(funct3(word))?;
    Some(Instr::Store {
        kind,
        rs1: rs1(word),
        rs2: rs2(word),
        imm: store_immediate(word),
    })
}

#[inline(always)]
fn decode_op_imm(word: u32) -> Option<Instr>
    ensures { result ≡ decoded_op_imm word }
{
    let kind = find_imm(funct7(word), funct3(word))?;
    Some(Instr::OpImm {
        kind,
        rd: rd(word),
        rs1: rs1(word),
        imm: operand(kind, word),
    })
}

#[inline(always)]
fn decode_op(word: u32) -> Option<Instr>
    ensures { result ≡ decoded_op word }
{
    let kind = find_op(funct7(word), funct3(word))?;
    Some(Instr::Op {
        kind,
        rd: rd(word),
        rs1: rs1(word),
        rs2: rs2(word),
    })
}

#[inline(always)]
fn decode_fence(word: u32) -> Option<Instr>
    ensures { result ≡ decoded_fence word }
{
    if funct3(word) == 0 {
        Some(Instr::Fence {
            rd: rd(word),
            rs1: rs1(word),
            imm: fence_immediate(word),
        })
    } else {
        None
    }
}

#[inline(always)]
fn decode_system(word: u32) -> Option<Instr>
    ensures { result ≡ decoded_system word }
{
    match word {
        0x0000_0073 => Some(Instr::Ecall),
        0x0010_0073 => Some(Instr::Ebreak),
        _ => None,
    }
}

#[inline(always)]
fn operand(kind: ImmKind, word: u32) -> i32
    ensures { result ≡ immediate_of kind word }
{
    if kind.is_shift() {
        i32::from(rs2(word))
    } else {
        immediate(word)
    }
}
