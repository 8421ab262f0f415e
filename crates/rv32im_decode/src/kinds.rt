//! The numbers by which words tell the kinds of one opcode apart (RISC-V Unprivileged ISA, "RV32/64G Instruction Set
//! Listings").

ghost use Rattle.std.specs.Prelude.{◌≡◌, ◌<◌};
ghost use Rattle.rv32im_decode.specs.Listings.{is_shift, branch_funct3, load_funct3};
ghost use Rattle.rv32im_decode.specs.Listings.{store_funct3, imm_funct3, shift_funct7, op_funct3};
ghost use Rattle.rv32im_decode.specs.Listings.{op_funct7};
ghost use Rattle.rv32im_decode.specs.Kinds.{branch_kind, load_kind, store_kind, imm_kind};
ghost use Rattle.rv32im_decode.specs.Kinds.{op_kind, left_shift, right_shift, plain_op};
ghost use Rattle.rv32im_decode.specs.Kinds.{other_op, multiply_op};

use crate::instructions::{BranchKind, ImmKind, LoadKind, OpKind, StoreKind};

impl BranchKind {
    /// The number that tells the kinds apart.
    pub(crate) fn funct3(self) -> u32
        ensures exact { result ≡ branch_funct3 self }
        ensures below { result < 8 }
    {
        match self {
            BranchKind::Beq => 0b000,
            BranchKind::Bne => 0b001,
            BranchKind::Blt => 0b100,
            BranchKind::Bge => 0b101,
            BranchKind::Bltu => 0b110,
            BranchKind::Bgeu => 0b111,
        }
    }
}

impl LoadKind {
    /// The number that tells the kinds apart.
    pub(crate) fn funct3(self) -> u32
        ensures exact { result ≡ load_funct3 self }
        ensures below { result < 8 }
    {
        match self {
            LoadKind::Lb => 0b000,
            LoadKind::Lh => 0b001,
            LoadKind::Lw => 0b010,
            LoadKind::Lbu => 0b100,
            LoadKind::Lhu => 0b101,
        }
    }
}

impl StoreKind {
    /// The number that tells the kinds apart.
    pub(crate) fn funct3(self) -> u32
        ensures exact { result ≡ store_funct3 self }
        ensures below { result < 8 }
    {
        match self {
            StoreKind::Sb => 0b000,
            StoreKind::Sh => 0b001,
            StoreKind::Sw => 0b010,
        }
    }
}

impl ImmKind {
    /// Whether the immediate is a number of places to shift by (RISC-V Unprivileged ISA, "Integer Register-Immediate
    /// Instructions").
    pub fn is_shift(self) -> bool
        ensures { result ≡ is_shift self }
    {
        match self {
            ImmKind::Slli | ImmKind::Srli | ImmKind::Srai => true,
            _ => false,
        }
    }

    /// The upper 7 bits of a shift's immediate.
    pub(crate) fn funct7(self) -> u32
        ensures exact { result ≡ shift_funct7 self }
        ensures below { result < 128 }
    {
        if self == ImmKind::Srai { 0b0100000 } else { 0 }
    }

    /// The number that tells the kinds apart.
    pub(crate) fn funct3(self) -> u32
        ensures exact { result ≡ imm_funct3 self }
        ensures below { result < 8 }
    {
        match self {
            ImmKind::Addi => 0b000,
            ImmKind::Slti => 0b010,
            ImmKind::Sltiu => 0b011,
            ImmKind::Xori => 0b100,
            ImmKind::Ori => 0b110,
            ImmKind::Andi => 0b111,
            ImmKind::Slli => 0b001,
            ImmKind::Srli | ImmKind::Srai => 0b101,
        }
    }
}

impl OpKind {
    /// The number that tells the kinds of one funct7 apart.
    pub(crate) fn funct3(self) -> u32
        ensures exact { result ≡ op_funct3 self }
        ensures below { result < 8 }
    {
        match self {
            OpKind::Add | OpKind::Sub | OpKind::Mul => 0b000,
            OpKind::Sll | OpKind::Mulh => 0b001,
            OpKind::Slt | OpKind::Mulhsu => 0b010,
            OpKind::Sltu | OpKind::Mulhu => 0b011,
            OpKind::Xor | OpKind::Div => 0b100,
            OpKind::Srl | OpKind::Sra | OpKind::Divu => 0b101,
            OpKind::Or | OpKind::Rem => 0b110,
            OpKind::And | OpKind::Remu => 0b111,
        }
    }

    /// The upper 7 bits of the word.
    pub(crate) fn funct7(self) -> u32
        ensures exact { result ≡ op_funct7 self }
        ensures below { result < 128 }
    {
        match self {
            OpKind::Sub | OpKind::Sra => 0b0100000,
            OpKind::Mul | OpKind::Mulh | OpKind::Mulhsu | OpKind::Mulhu => 0b0000001,
            OpKind::Div | OpKind::Divu | OpKind::Rem | OpKind::Remu => 0b0000001,
            _ => 0b0000000,
        }
    }
}

/// The branch with this funct3.
#[inline(always)]
pub fn find_branch(funct3: u32) -> Option<BranchKind>
    ensures { result ≡ branch_kind funct3 }
{
    match funct3 {
        0b000 => Some(BranchKind::Beq),
        0b001 => Some(BranchKind::Bne),
        0b100 => Some(BranchKind::Blt),
        0b101 => Some(BranchKind::Bge),
        0b110 => Some(BranchKind::Bltu),
        0b111 => Some(BranchKind::Bgeu),
        _ => None,
    }
}

/// The load with this funct3.
#[inline(always)]
pub fn find_load(funct3: u32) -> Option<LoadKind>
    ensures { result ≡ load_kind funct3 }
{
    match funct3 {
        0b000 => Some(LoadKind::Lb),
        0b001 => Some(LoadKind::Lh),
        0b010 => Some(LoadKind::Lw),
        0b100 => Some(LoadKind::Lbu),
        0b101 => Some(LoadKind::Lhu),
        _ => None,
    }
}

/// The store with this funct3.
#[inline(always)]
pub fn find_store(funct3: u32) -> Option<StoreKind>
    ensures { result ≡ store_kind funct3 }
{
    match funct3 {
        0b000 => Some(StoreKind::Sb),
        0b001 => Some(StoreKind::Sh),
        0b010 => Some(StoreKind::Sw),
        _ => None,
    }
}

/// The register-immediate operation with this funct3 and, if it is a shift, this funct7.
#[inline(always)]
pub fn find_imm(funct7: u32, funct3: u32) -> Option<ImmKind>
    ensures { result ≡ imm_kind funct7 funct3 }
{
    match funct3 {
        0b000 => Some(ImmKind::Addi),
        0b010 => Some(ImmKind::Slti),
        0b011 => Some(ImmKind::Sltiu),
        0b100 => Some(ImmKind::Xori),
        0b110 => Some(ImmKind::Ori),
        0b111 => Some(ImmKind::Andi),
        0b001 => find_left_shift(funct7),
        0b101 => find_right_shift(funct7),
        _ => None,
    }
}

#[inline(always)]
fn find_left_shift(funct7: u32) -> Option<ImmKind>
    ensures { result ≡ left_shift funct7 }
{
    if funct7 == 0b0000000 {
        Some(ImmKind::Slli)
    } else {
        None
    }
}

#[inline(always)]
fn find_right_shift(funct7: u32) -> Option<ImmKind>
    ensures { result ≡ right_shift funct7 }
{
    match funct7 {
        0b0000000 => Some(ImmKind::Srli),
        0b0100000 => Some(ImmKind::Srai),
        _ => None,
    }
}

/// The register-register operation with this funct7 and funct3.
#[inline(always)]
pub fn find_op(funct7: u32, funct3: u32) -> Option<OpKind>
    ensures { result ≡ op_kind funct7 funct3 }
{
    match funct7 {
        0b0000000 => find_plain_op(funct3),
        0b0100000 => find_other_op(funct3),
        0b0000001 => find_multiply_op(funct3),
        _ => None,
    }
}

#[inline(always)]
fn find_plain_op(funct3: u32) -> Option<OpKind>
    ensures { result ≡ plain_op funct3 }
{
    match funct3 {
        0b000 => Some(OpKind::Add),
        0b001 => Some(OpKind::Sll),
        0b010 => Some(OpKind::Slt),
        0b011 => Some(OpKind::Sltu),
        0b100 => Some(OpKind::Xor),
        0b101 => Some(OpKind::Srl),
        0b110 => Some(OpKind::Or),
        0b111 => Some(OpKind::And),
        _ => None,
    }
}

#[inline(always)]
fn find_other_op(funct3: u32) -> Option<OpKind>
    ensures { result ≡ other_op funct3 }
{
    match funct3 {
        0b000 => Some(OpKind::Sub),
        0b101 => Some(OpKind::Sra),
        _ => None,
    }
}

#[inline(always)]
fn find_multiply_op(funct3: u32) -> Option<OpKind>
    ensures { result ≡ multiply_op funct3 }
{
    match funct3 {
        0b000 => Some(OpKind::Mul),
        0b001 => Some(OpKind::Mulh),
        0b010 => Some(OpKind::Mulhsu),
        0b011 => Some(OpKind::Mulhu),
        0b100 => Some(OpKind::Div),
        0b101 => Some(OpKind::Divu),
        0b110 => Some(OpKind::Rem),
        0b111 => Some(OpKind::Remu),
        _ => None,
    }
}
