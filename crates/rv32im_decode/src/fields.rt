//! The fields and immediates of a word (RISC-V Unprivileged ISA, "Base Instruction Formats" and "Immediate Encoding
//! Variants").

ghost use Rattle.std.specs.Prelude.{◌≡◌, ◌<◌, ◌^◌};
ghost use Rattle.rv32im_decode.specs.Formats.{sign_extended};
ghost use Rattle.rv32im_decode.specs.Fields.{opcode_of, rd_of, funct3_of, rs1_of, rs2_of};
ghost use Rattle.rv32im_decode.specs.Fields.{funct7_of, i_bits, s_bits, b_bits, u_bits};
ghost use Rattle.rv32im_decode.specs.Fields.{j_bits};

/// Bits 6 to 0 of a word ("Base Instruction Formats").
pub fn opcode(word: u32) -> u32
    ensures { result ≡ opcode_of word }
{
    word & 0x7f
}

/// Bits 11 to 7 of a word: the register of the result.
pub fn rd(word: u32) -> u8
    ensures { result ≡ rd_of word }
{
    (word >> 7 & 31) as u8
}

/// Bits 14 to 12 of a word.
pub fn funct3(word: u32) -> u32
    ensures { result ≡ funct3_of word }
{
    word >> 12 & 7
}

/// Bits 19 to 15 of a word: the first source register.
pub fn rs1(word: u32) -> u8
    ensures { result ≡ rs1_of word }
{
    (word >> 15 & 31) as u8
}

/// Bits 24 to 20 of a word: the second source register.
pub fn rs2(word: u32) -> u8
    ensures { result ≡ rs2_of word }
{
    (word >> 20 & 31) as u8
}

/// Bits 31 to 25 of a word.
pub fn funct7(word: u32) -> u32
    ensures { result ≡ funct7_of word }
{
    word >> 25
}

/// The immediate of U-type, a number below 2^20 ("Immediate Encoding Variants").
pub fn upper_immediate(word: u32) -> u32
    ensures { result ≡ u_bits word }
{
    word >> 12
}

/// Bits 31 to 20 as a number below 4,096.
pub fn fence_immediate(word: u32) -> u32
    ensures { result ≡ i_bits word }
{
    word >> 20
}

/// The immediate of I-type, sign-extended ("Immediate Encoding Variants").
pub fn immediate(word: u32) -> i32
    ensures { result ≡ sign_extended (2 ^ 11) (i_bits word) }
{
    extend_12(word >> 20)
}

/// The immediate of S-type, sign-extended ("Immediate Encoding Variants").
pub fn store_immediate(word: u32) -> i32
    ensures { result ≡ sign_extended (2 ^ 11) (s_bits word) }
{
    extend_12((word >> 25) * 32 + (word >> 7 & 31))
}

/// The offset of B-type in bytes, sign-extended ("Immediate Encoding Variants").
pub fn branch_offset(word: u32) -> i32
    ensures { result ≡ sign_extended (2 ^ 12) (b_bits word) }
{
    extend_13(
        (word >> 31) * 4096
            + (word >> 7) % 2 * 2048
            + (word >> 25 & 63) * 32
            + (word >> 8 & 15) * 2,
    )
}

/// The offset of J-type in bytes, sign-extended ("Immediate Encoding Variants").
pub fn jump_offset(word: u32) -> i32
    ensures { result ≡ sign_extended (2 ^ 20) (j_bits word) }
{
    extend_21(
        (word >> 31) * 1048576
            + (word >> 12 & 255) * 4096
            + (word >> 20) % 2 * 2048
            + (word >> 21 & 1023) * 2,
    )
}

fn extend_12(bits: u32) -> i32
    requires { bits < 4096 }
    ensures { result ≡ sign_extended (2 ^ 11) bits }
{
    if bits < 2048 {
        bits.cast_signed()
    } else {
        bits.cast_signed() - 4096
    }
}

fn extend_13(bits: u32) -> i32
    requires { bits < 8192 }
    ensures { result ≡ sign_extended (2 ^ 12) bits }
{
    if bits < 4096 {
        bits.cast_signed()
    } else {
        bits.cast_signed() - 8192
    }
}

fn extend_21(bits: u32) -> i32
    requires { bits < 2097152 }
    ensures { result ≡ sign_extended (2 ^ 20) bits }
{
    if bits < 1048576 {
        bits.cast_signed()
    } else {
        bits.cast_signed() - 2097152
    }
}
