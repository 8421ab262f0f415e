//! What the operations, branches, loads and stores compute.

ghost use Rattle.std.specs.Prelude.{◌≡◌, ◌<◌, ◌+◌, nat_lt, if◌then◌else◌, pos, neg_ℤ, ◌≤ℤ◌, ◌*ℤ◌};
ghost use Rattle.rv32im_decode.specs.Operations.{word_of, operation_of, op_result, is_taken, address_of, target_of};
ghost use Rattle.rv32im_decode.specs.Operations.{load_size, extended, store_size, upper_of, upper_word};
ghost use Rattle.rv32im_decode.specs.Operations.{word_of_truth};
ghost use Rattle.rv32im_decode.specs.Operations.{shifted_with_sign, signed_quotient, signed_remainder};

use crate::instructions::{BranchKind, ImmKind, LoadKind, OpKind, StoreKind};

impl ImmKind {
    /// The register-register operation that computes the same with the immediate as its second word (RISC-V
    /// Unprivileged ISA, "Integer Register-Immediate Instructions").
    pub fn operation(self) -> OpKind
        ensures { result ≡ operation_of self }
    {
        match self {
            ImmKind::Addi => OpKind::Add,
            ImmKind::Slti => OpKind::Slt,
            ImmKind::Sltiu => OpKind::Sltu,
            ImmKind::Xori => OpKind::Xor,
            ImmKind::Ori => OpKind::Or,
            ImmKind::Andi => OpKind::And,
            ImmKind::Slli => OpKind::Sll,
            ImmKind::Srli => OpKind::Srl,
            ImmKind::Srai => OpKind::Sra,
        }
    }
}

impl OpKind {
    /// What the operation computes from the words of rs1 and rs2 (RISC-V Unprivileged ISA, "Integer Register-Register
    /// Operations", "Multiplication Operations" and "Division Operations").
    #[inline(always)]
    pub fn result(self, first: u32, second: u32) -> u32
        ensures { result ≡ op_result self first second }
    {
        match self {
            OpKind::Add => first.wrapping_add(second),
            OpKind::Sub => first.wrapping_sub(second),
            OpKind::Sll => first << (second & 31),
            OpKind::Slt => truth(first.cast_signed() < second.cast_signed()),
            OpKind::Sltu => truth(first < second),
            OpKind::Xor => first ^ second,
            OpKind::Srl => first >> (second & 31),
            OpKind::Sra => shift_with_sign(first, second & 31),
            OpKind::Or => first | second,
            OpKind::And => first & second,
            OpKind::Mul => first.wrapping_mul(second),
            OpKind::Mulh => multiply_upper(first.cast_signed(), i64::from(second.cast_signed())),
            OpKind::Mulhsu => multiply_upper(first.cast_signed(), i64::from(second)),
            OpKind::Mulhu => (u64::from(first) * u64::from(second) >> 32) as u32,
            OpKind::Div => quotient(first, second),
            OpKind::Divu => if second == 0 {
                u32::MAX
            } else {
                first / second
            },
            OpKind::Rem => remainder(first, second),
            OpKind::Remu => if second == 0 { first } else { first % second },
        }
    }
}

fn truth(truth: bool) -> u32
    ensures { result ≡ word_of_truth truth }
{
    if truth { 1 } else { 0 }
}

fn shift_with_sign(word: u32, places: u32) -> u32
    requires { places < 32 }
    ensures { result ≡ shifted_with_sign word places }
{
    if word < 0x8000_0000 {
        word >> places
    } else {
        !(!word >> places)
    }
}

fn multiply_upper(first: i32, second: i64) -> u32
    requires at_least { neg_ℤ (pos 4294967295) ≤ℤ second }
    requires at_most { second ≤ℤ pos 4294967295 }
    ensures { result ≡ upper_word (first *ℤ second) }
{
    let product = i64::from(first) * second;
    (product.cast_unsigned() >> 32) as u32
}

fn quotient(first: u32, second: u32) -> u32
    ensures { result ≡ signed_quotient first second }
{
    if second == 0 {
        return u32::MAX;
    }
    first
        .cast_signed()
        .wrapping_div(second.cast_signed())
        .cast_unsigned()
}

fn remainder(first: u32, second: u32) -> u32
    ensures { result ≡ signed_remainder first second }
{
    if second == 0 {
        return first;
    }
    first
        .cast_signed()
        .wrapping_rem(second.cast_signed())
        .cast_unsigned()
}

impl BranchKind {
    /// Whether the branch is taken at the words of rs1 and rs2 (RISC-V Unprivileged ISA, "Conditional Branches").
    pub fn is_taken(self, first: u32, second: u32) -> bool
        ensures { result ≡ is_taken self first second }
    {
        match self {
            BranchKind::Beq => first == second,
            BranchKind::Bne => first != second,
            BranchKind::Blt => first.cast_signed() < second.cast_signed(),
            BranchKind::Bge => first.cast_signed() >= second.cast_signed(),
            BranchKind::Bltu => first < second,
            BranchKind::Bgeu => first >= second,
        }
    }
}

/// The address of a load or store: the word of rs1 plus the immediate, modulo 2^32 (RISC-V Unprivileged ISA, "Load and
/// Store Instructions").
pub fn address(first: u32, immediate: i32) -> u32
    ensures { result ≡ address_of first (word_of immediate) }
{
    first.wrapping_add_signed(immediate)
}

/// The target of JALR: the word of rs1 plus the immediate, modulo 2^32, with its lowest bit cleared (RISC-V
/// Unprivileged ISA, "Unconditional Jumps").
pub fn target(first: u32, immediate: i32) -> u32
    ensures { result ≡ target_of first (word_of immediate) }
{
    let sum = address(first, immediate);
    sum - sum % 2
}

impl LoadKind {
    /// How many bytes the load reads (RISC-V Unprivileged ISA, "Load and Store Instructions").
    pub fn size(self) -> u32
        ensures { result ≡ load_size self }
    {
        match self {
            LoadKind::Lb | LoadKind::Lbu => 1,
            LoadKind::Lh | LoadKind::Lhu => 2,
            LoadKind::Lw => 4,
        }
    }

    /// The loaded bytes, given as a little-endian number, extended to a word: by the sign for LB and LH, by zeros for
    /// LBU and LHU (RISC-V Unprivileged ISA, "Load and Store Instructions").
    pub fn extend(self, loaded: u32) -> u32
        ensures { result ≡ extended self loaded }
    {
        match self {
            LoadKind::Lb => extend_byte(loaded % 256),
            LoadKind::Lh => extend_half(loaded % 65536),
            LoadKind::Lw | LoadKind::Lbu | LoadKind::Lhu => loaded,
        }
    }
}

fn extend_byte(byte: u32) -> u32
    requires { byte < 256 }
    ensures { result ≡ (if nat_lt byte 128 then byte else byte + 4294967040) }
{
    if byte < 128 { byte } else { byte + 0xffff_ff00 }
}

fn extend_half(half: u32) -> u32
    requires { half < 65536 }
    ensures { result ≡ (if nat_lt half 32768 then half else half + 4294901760) }
{
    if half < 32768 {
        half
    } else {
        half + 0xffff_0000
    }
}

impl StoreKind {
    /// How many bytes the store writes (RISC-V Unprivileged ISA, "Load and Store Instructions").
    pub fn size(self) -> u32
        ensures { result ≡ store_size self }
    {
        match self {
            StoreKind::Sb => 1,
            StoreKind::Sh => 2,
            StoreKind::Sw => 4,
        }
    }
}

/// The immediate of LUI and AUIPC as the upper 20 bits of a word (RISC-V Unprivileged ISA, "Integer Register-Immediate
/// Instructions").
pub fn upper(imm: u32) -> u32
    ensures { result ≡ upper_of imm }
{
    imm << 12
}
