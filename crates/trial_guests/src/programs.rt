ghost use Rattle.std.specs.Prelude.{◌≡◌, ◌≤◌, ◌<◌, ◌++◌, ◌-◌, ◌^◌, ℕ, pos, length, IfOk, OnOk};
ghost use Rattle.std.specs.Int.{to_le_bytes, w32};
ghost use Rattle.std.specs.List.{AllByRecursion};
ghost use Rattle.elf32_loader.specs.Images.{image_picture};
ghost use Rattle.rv32im_decode.specs.Encoding.{InRange, encoded};
ghost use Rattle.trial_guests.specs.Programs.{closing, code_of, masking, maskings, one_segment, opening, program_of};
ghost use Rattle.trial_guests.specs.Programs.{width_of as width_of_of};

use crate::secrets::length_of;
use elf32_loader::{Image, Segment};
use flow_base::{Bytes, List, NoMemory};
use rv32im_decode::{ImmKind, Instr, LoadKind, StoreKind, encode};
use std::alloc::Global;

/// Where the program stands, which is its entry.
const START: u32 = 0x0001_0000;

/// Puts the word of an instruction at the end of a code.
fn put(code: &mut Vec<u8>, instr: Instr) -> Result<(), NoMemory>
    requires { InRange instr }
    ensures { OnOk result (code.new.items ≡ code.old.items ++ to_le_bytes w32 (encoded instr)) }
{
    code.extend_from_slice(&encode(&instr).to_le_bytes())?;
    Ok(())
}

/// Puts instructions at the end of a code.
fn put_all(code: &mut Vec<u8>, instrs: &[Instr]) -> Result<(), NoMemory>
    requires { AllByRecursion InRange instrs.now }
    ensures { OnOk result (code.new.items ≡ code.old.items ++ code_of instrs.now) }
{
    let mut rest = instrs;
    while let [instr, more @ ..] = rest {
        put(code, *instr)?;
        rest = more;
    }
    Ok(())
}

/// Puts the call that reads the secret to 0x80000.
fn put_opening(code: &mut Vec<u8>) -> Result<(), NoMemory>
    ensures { OnOk result (code.new.items ≡ code.old.items ++ code_of opening) }
{
    put_all(
        code,
        &[
            Instr::OpImm {
                kind: ImmKind::Addi,
                rd: 10,
                rs1: 0,
                imm: 3,
            },
            Instr::Lui { rd: 11, imm: 128 },
            Instr::OpImm {
                kind: ImmKind::Addi,
                rd: 12,
                rs1: 0,
                imm: 2000,
            },
            Instr::OpImm {
                kind: ImmKind::Addi,
                rd: 17,
                rs1: 0,
                imm: 63,
            },
            Instr::Ecall,
        ],
    )
}

/// Puts the call that writes the bytes, and the exit.
fn put_closing(code: &mut Vec<u8>) -> Result<(), NoMemory>
    ensures { OnOk result (code.new.items ≡ code.old.items ++ code_of closing) }
{
    put_all(
        code,
        &[
            Instr::OpImm {
                kind: ImmKind::Addi,
                rd: 12,
                rs1: 10,
                imm: 0,
            },
            Instr::OpImm {
                kind: ImmKind::Addi,
                rd: 10,
                rs1: 0,
                imm: 1,
            },
            Instr::OpImm {
                kind: ImmKind::Addi,
                rd: 17,
                rs1: 0,
                imm: 64,
            },
            Instr::Ecall,
            Instr::OpImm {
                kind: ImmKind::Addi,
                rd: 10,
                rs1: 0,
                imm: 0,
            },
            Instr::OpImm {
                kind: ImmKind::Addi,
                rd: 17,
                rs1: 0,
                imm: 93,
            },
            Instr::Ecall,
        ],
    )
}

/// The mask of the lowest bits.
fn mask(width: u32) -> i32
    requires { width ≤ 7 }
    ensures { result ≡ pos (2 ^ width - 1) }
{
    ((1u32 << width) - 1) as i32
}

/// How many bits are kept of the byte at an index.
fn width_of(number: u32, index: u32) -> u32
    ensures is { result ≡ width_of_of number index }
    ensures few { result ≤ 7 }
{
    1 + ((u64::from(number) + u64::from(index)) % 7) as u32
}

/// Puts what keeps the lowest bits of the byte at an index.
fn put_masking(code: &mut Vec<u8>, index: u32, width: u32) -> Result<(), NoMemory>
    requires near { index < 2000 }
    requires few { width ≤ 7 }
    ensures { OnOk result (code.new.items ≡ code.old.items ++ code_of (masking index width)) }
{
    let imm = index as i32;
    put_all(
        code,
        &[
            Instr::Load {
                kind: LoadKind::Lbu,
                rd: 6,
                rs1: 11,
                imm,
            },
            Instr::OpImm {
                kind: ImmKind::Andi,
                rd: 6,
                rs1: 6,
                imm: mask(width),
            },
            Instr::Store {
                kind: StoreKind::Sb,
                rs1: 11,
                rs2: 6,
                imm,
            },
        ],
    )
}

/// Puts the same for each byte of so many.
fn put_maskings(code: &mut Vec<u8>, number: u32, count: u32) -> Result<(), NoMemory>
    requires { count ≤ 2000 }
    ensures { OnOk result (code.new.items ≡ code.old.items ++ code_of (maskings count number 0)) }
{
    for index in 0..count {
        put_masking(code, index, width_of(number, index))?;
    }
    Ok(())
}

/// The code of the program of a number.
fn code(alloc: Global, number: u32) -> Result<Bytes, NoMemory>
    ensures code { IfOk result (λ code. code ≡ code_of (program_of number)) }
    ensures some { IfOk result (λ code. 0 < length code) }
    ensures few { IfOk result (λ code. length code ≤ 1048576) }
{
    let mut code = Vec::new(alloc);
    put_opening(&mut code)?;
    put_maskings(&mut code, number, length_of(number))?;
    put_closing(&mut code)?;
    Ok(Bytes::from_vec(code))
}

/// The program of a number: one segment at 0x00010000, which is its base and its entry. Its error is lack of memory.
pub fn image(alloc: Global, number: u32) -> Result<Image, NoMemory>
    ensures { IfOk result (λ image. image_picture image ≡ one_segment (code_of (program_of number))) }
{
    let bytes = code(alloc, number)?;
    let mut segments = List::new(alloc);
    segments.push(Segment {
        address: START,
        bytes,
    })?;
    Ok(Image {
        base: START,
        entry: START,
        segments,
    })
}
