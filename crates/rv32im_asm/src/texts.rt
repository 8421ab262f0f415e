ghost use Rattle.std.specs.Prelude.{◌≡◌, IfOk};
ghost use Rattle.rv32im_decode.specs.declared.instructions.Instr.TheVariants.{Fence, Jal};
ghost use Rattle.rv32im_asm.specs.Texts.{instruction_text, registers_text as registers_text_of};
ghost use Rattle.rv32im_asm.specs.Texts.{immediate_text as immediate_text_of, memory_text as memory_text_of};
ghost use Rattle.rv32im_asm.specs.Texts.{upper_text as upper_text_of};

use crate::mnemonics::{branch_name, immediate_name, load_name, operation_name, store_name};
use flow_base::{Bytes, NoMemory};
use rv32im_decode::Instr;
use std::alloc::Global;

/// Three registers after a mnemonic.
fn registers_text(
    alloc: Global,
    name: &str,
    first: u8,
    second: u8,
    third: u8,
) -> Result<Bytes, NoMemory>
    ensures { IfOk result (λ text. text ≡ registers_text_of name.now first second third) }
{
    let text = format!(in alloc; "{name} x{first}, x{second}, x{third}")?;
    Ok(Bytes::from_vec(text.into_bytes()))
}

/// Two registers and a number.
fn immediate_text(
    alloc: Global,
    name: &str,
    first: u8,
    second: u8,
    number: i32,
) -> Result<Bytes, NoMemory>
    ensures { IfOk result (λ text. text ≡ immediate_text_of name.now first second number) }
{
    let text = format!(in alloc; "{name} x{first}, x{second}, {number}")?;
    Ok(Bytes::from_vec(text.into_bytes()))
}

/// A register, and the place of memory at an offset from another.
fn memory_text(
    alloc: Global,
    name: &str,
    register: u8,
    offset: i32,
    base: u8,
) -> Result<Bytes, NoMemory>
    ensures { IfOk result (λ text. text ≡ memory_text_of name.now register offset base) }
{
    let text = format!(in alloc; "{name} x{register}, {offset}(x{base})")?;
    Ok(Bytes::from_vec(text.into_bytes()))
}

/// A register and the upper bits of a word.
fn upper_text(alloc: Global, name: &str, register: u8, number: u32) -> Result<Bytes, NoMemory>
    ensures { IfOk result (λ text. text ≡ upper_text_of name.now register number) }
{
    let text = format!(in alloc; "{name} x{register}, {number}")?;
    Ok(Bytes::from_vec(text.into_bytes()))
}

/// A jump.
fn jump_text(alloc: Global, rd: u8, offset: i32) -> Result<Bytes, NoMemory>
    ensures { IfOk result (λ text. text ≡ instruction_text (Jal rd offset)) }
{
    let text = format!(in alloc; "jal x{rd}, {offset}")?;
    Ok(Bytes::from_vec(text.into_bytes()))
}

/// A fence.
fn fence_text(alloc: Global, rd: u8, rs1: u8, imm: u32) -> Result<Bytes, NoMemory>
    ensures { IfOk result (λ text. text ≡ instruction_text (Fence rd rs1 imm)) }
{
    let text = format!(in alloc; "fence x{rd}, x{rs1}, {imm}")?;
    Ok(Bytes::from_vec(text.into_bytes()))
}

/// The text of an instruction: its mnemonic (RISC-V Unprivileged ISA, "RV32/64G Instruction Set Listings"), one space,
/// and its operands, with registers `x0` to `x31`, decimal numbers, `, ` between operands, and offsets of jumps and
/// branches in bytes. ECALL and EBREAK are their mnemonic alone. Lack of memory answers [`NoMemory`].
pub fn instr_text(alloc: Global, instr: &Instr) -> Result<Bytes, NoMemory>
    ensures { IfOk result (λ text. text ≡ instruction_text instr.now) }
{
    match *instr {
        Instr::Lui { rd, imm } => upper_text(alloc, "lui", rd, imm),
        Instr::Auipc { rd, imm } => upper_text(alloc, "auipc", rd, imm),
        Instr::Jal { rd, offset } => jump_text(alloc, rd, offset),
        Instr::Jalr { rd, rs1, imm } => memory_text(alloc, "jalr", rd, imm, rs1),
        Instr::Branch {
            kind,
            rs1,
            rs2,
            offset,
        } => immediate_text(alloc, branch_name(kind), rs1, rs2, offset),
        Instr::Load { kind, rd, rs1, imm } => memory_text(alloc, load_name(kind), rd, imm, rs1),
        Instr::Store {
            kind,
            rs1,
            rs2,
            imm,
        } => memory_text(alloc, store_name(kind), rs2, imm, rs1),
        Instr::OpImm { kind, rd, rs1, imm } => {
            immediate_text(alloc, immediate_name(kind), rd, rs1, imm)
        }
        Instr::Op { kind, rd, rs1, rs2 } => {
            registers_text(alloc, operation_name(kind), rd, rs1, rs2)
        }
        Instr::Fence { rd, rs1, imm } => fence_text(alloc, rd, rs1, imm),
        Instr::Ecall => Bytes::from_slice(alloc, b"ecall"),
        Instr::Ebreak => Bytes::from_slice(alloc, b"ebreak"),
    }
}
