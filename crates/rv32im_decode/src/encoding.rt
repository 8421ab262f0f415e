//! From instructions to words.

ghost use Rattle.std.specs.Prelude.{◌≡◌, ◌<◌, ◌^◌, ◌≤ℤ◌, ◌<ℤ◌, ◌↔◌, IsTrue, pos, neg_ℤ};
ghost use Rattle.rv32im_decode.specs.Listings.{op_funct3, op_funct7, op_opcode};
ghost use Rattle.rv32im_decode.specs.Formats.{bits_of, r_word, i_word, s_word, b_word, u_word};
ghost use Rattle.rv32im_decode.specs.Formats.{j_word};
ghost use Rattle.rv32im_decode.specs.Encoding.{InRange, IsWithin, IsEven, IsImmediate, encoded};
ghost use Rattle.rv32im_decode.specs.Encoding.{immediate_bits};
ghost use Rattle.rv32im_decode.specs.Decoding.{decoded};

use crate::instructions::{ImmKind, Instr, OpKind};
use crate::opcodes::{AUIPC, BRANCH, JAL, JALR, LOAD, LUI, MISC_MEM, OP, OP_IMM, STORE};

/// Whether each field of the instruction fits its format: registers are below 32; the immediates of LUI and AUIPC are
/// below 2^20, that of FENCE is below 4,096, shifts are by 0 to 31 places, branch offsets are even and from -4,096 to
/// 4,094, jump offsets even and from -1,048,576 to 1,048,574, and other immediates are from -2,048 to 2,047 (RISC-V
/// Unprivileged ISA, "Base Instruction Formats" and "Immediate Encoding Variants").
pub fn in_range(instr: &Instr) -> bool
    ensures { IsTrue result ↔ InRange instr.now }
{
    match *instr {
        Instr::Lui { rd, imm } | Instr::Auipc { rd, imm } => rd < 32 && imm < 0x10_0000,
        Instr::Jal { rd, offset } => rd < 32 && is_jump_offset(offset),
        Instr::Jalr { rd, rs1, imm } => rd < 32 && rs1 < 32 && is_immediate(imm),
        Instr::Branch {
            rs1,
            rs2,
            offset,
            ..
        } => rs1 < 32 && rs2 < 32 && is_branch_offset(offset),
        Instr::Load { rd, rs1, imm, .. } => rd < 32 && rs1 < 32 && is_immediate(imm),
        Instr::Store { rs1, rs2, imm, .. } => rs1 < 32 && rs2 < 32 && is_immediate(imm),
        Instr::OpImm { kind, rd, rs1, imm } => rd < 32 && rs1 < 32 && is_operand(kind, imm),
        Instr::Op { rd, rs1, rs2, .. } => rd < 32 && rs1 < 32 && rs2 < 32,
        Instr::Fence { rd, rs1, imm } => rd < 32 && rs1 < 32 && imm < 0x1000,
        Instr::Ecall | Instr::Ebreak => true,
    }
}

fn is_immediate(imm: i32) -> bool
    ensures { IsTrue result ↔ IsWithin (2 ^ 11) imm }
{
    -2048 <= imm && imm < 2048
}

fn is_operand(kind: ImmKind, imm: i32) -> bool
    ensures { IsTrue result ↔ IsImmediate kind imm }
{
    if kind.is_shift() {
        0 <= imm && imm < 32
    } else {
        is_immediate(imm)
    }
}

fn is_branch_offset(offset: i32) -> bool
    ensures { IsTrue result ↔ (IsWithin (2 ^ 12) offset × IsEven offset) }
{
    -4096 <= offset && offset < 4096 && offset.cast_unsigned() % 2 == 0
}

fn is_jump_offset(offset: i32) -> bool
    ensures { IsTrue result ↔ (IsWithin (2 ^ 20) offset × IsEven offset) }
{
    -1_048_576 <= offset && offset < 1_048_576 && offset.cast_unsigned() % 2 == 0
}

/// The word of an instruction whose fields are in range (see [`in_range`]), from which [`crate::decode`] gives it back
/// (RISC-V Unprivileged ISA, "RV32/64G Instruction Set Listings").
pub fn encode(instr: &Instr) -> u32
    requires { InRange instr.now }
    ensures exact { result ≡ encoded instr.now }
    ensures decodes { decoded result ≡ Some instr.now }
{
    join_fields(instr)
}

#[tactic(auto, unfolding(crate::specs::Encoding::encoded))]
fn join_fields(instr: &Instr) -> u32
    requires { InRange instr.now }
    ensures { result ≡ encoded instr.now }
{
    match *instr {
        Instr::Lui { rd, imm } => u_type(imm, rd, LUI),
        Instr::Auipc { rd, imm } => u_type(imm, rd, AUIPC),
        Instr::Jal { rd, offset } => j_type(offset, rd, JAL),
        Instr::Jalr { rd, rs1, imm } => i_type(bits_12(imm), rs1, 0, rd, JALR),
        Instr::Branch {
            kind,
            rs1,
            rs2,
            offset,
        } => b_type(offset, rs2, rs1, kind.funct3(), BRANCH),
        Instr::Load { kind, rd, rs1, imm } => i_type(bits_12(imm), rs1, kind.funct3(), rd, LOAD),
        Instr::Store {
            kind,
            rs1,
            rs2,
            imm,
        } => s_type(bits_12(imm), rs2, rs1, kind.funct3(), STORE),
        Instr::OpImm { kind, rd, rs1, imm } => i_type(
            operand_bits(kind, imm),
            rs1,
            kind.funct3(),
            rd,
            OP_IMM,
        ),
        Instr::Op { kind, rd, rs1, rs2 } => op_word(kind, rd, rs1, rs2),
        Instr::Fence { rd, rs1, imm } => i_type(imm, rs1, 0, rd, MISC_MEM),
        Instr::Ecall => 0x0000_0073,
        Instr::Ebreak => 0x0010_0073,
    }
}

fn op_word(kind: OpKind, rd: u8, rs1: u8, rs2: u8) -> u32
    requires rd_fits { rd < 32 }
    requires rs1_fits { rs1 < 32 }
    requires rs2_fits { rs2 < 32 }
    ensures { result ≡ r_word (op_funct7 kind) rs2 rs1 (op_funct3 kind) rd op_opcode }
{
    r_type(
        kind.funct7(),
        u32::from(rs2),
        u32::from(rs1),
        kind.funct3(),
        u32::from(rd),
        OP,
    )
}

fn bits_12(imm: i32) -> u32
    ensures { result ≡ bits_of (2 ^ 11) imm }
{
    imm.cast_unsigned() % 4096
}

fn operand_bits(kind: ImmKind, imm: i32) -> u32
    requires { IsImmediate kind imm }
    ensures exact { result ≡ immediate_bits kind imm }
    ensures below { result < 4096 }
{
    if kind.is_shift() {
        kind.funct7() * 32 + imm.cast_unsigned()
    } else {
        bits_12(imm)
    }
}

fn r_type(funct7: u32, rs2: u32, rs1: u32, funct3: u32, rd: u32, opcode: u32) -> u32
    requires funct7_fits { funct7 < 128 }
    requires rs2_fits { rs2 < 32 }
    requires rs1_fits { rs1 < 32 }
    requires funct3_fits { funct3 < 8 }
    requires rd_fits { rd < 32 }
    requires opcode_fits { opcode < 128 }
    ensures { result ≡ r_word funct7 rs2 rs1 funct3 rd opcode }
{
    (funct7 << 25) + (rs2 << 20) + (rs1 << 15) + (funct3 << 12) + (rd << 7) + opcode
}

fn i_type(bits: u32, rs1: u8, funct3: u32, rd: u8, opcode: u32) -> u32
    requires bits_fits { bits < 4096 }
    requires rs1_fits { rs1 < 32 }
    requires funct3_fits { funct3 < 8 }
    requires rd_fits { rd < 32 }
    requires opcode_fits { opcode < 128 }
    ensures { result ≡ i_word bits rs1 funct3 rd opcode }
{
    (bits << 20) + (u32::from(rs1) << 15) + (funct3 << 12) + (u32::from(rd) << 7) + opcode
}

fn s_type(bits: u32, rs2: u8, rs1: u8, funct3: u32, opcode: u32) -> u32
    requires bits_fits { bits < 4096 }
    requires rs2_fits { rs2 < 32 }
    requires rs1_fits { rs1 < 32 }
    requires funct3_fits { funct3 < 8 }
    requires opcode_fits { opcode < 128 }
    ensures { result ≡ s_word bits rs2 rs1 funct3 opcode }
{
    r_type(
        bits >> 5,
        u32::from(rs2),
        u32::from(rs1),
        funct3,
        bits & 31,
        opcode,
    )
}

fn b_type(offset: i32, rs2: u8, rs1: u8, funct3: u32, opcode: u32) -> u32
    requires rs2_fits { rs2 < 32 }
    requires rs1_fits { rs1 < 32 }
    requires funct3_fits { funct3 < 8 }
    requires opcode_fits { opcode < 128 }
    ensures { result ≡ b_word (bits_of (2 ^ 12) offset) rs2 rs1 funct3 opcode }
{
    let bits = offset.cast_unsigned() % 8192;
    let high = (bits >> 12) * 64 + (bits >> 5 & 63);
    let low = (bits >> 1 & 15) * 2 + (bits >> 11) % 2;
    r_type(high, u32::from(rs2), u32::from(rs1), funct3, low, opcode)
}

fn u_type(bits: u32, rd: u8, opcode: u32) -> u32
    requires bits_fits { bits < 1048576 }
    requires rd_fits { rd < 32 }
    requires opcode_fits { opcode < 128 }
    ensures { result ≡ u_word bits rd opcode }
{
    (bits << 12) + (u32::from(rd) << 7) + opcode
}

fn j_type(offset: i32, rd: u8, opcode: u32) -> u32
    requires rd_fits { rd < 32 }
    requires opcode_fits { opcode < 128 }
    ensures { result ≡ j_word (bits_of (2 ^ 20) offset) rd opcode }
{
    let bits = offset.cast_unsigned() % 2_097_152;
    let upper = (bits >> 20) * 524_288
        + (bits >> 1 & 1023) * 512
        + (bits >> 11) % 2 * 256
        + (bits >> 12 & 255);
    u_type(upper, rd, opcode)
}
