//! The classes of operations that share a mask rule, and the class of each instruction.

ghost use Rattle.std.specs.Prelude.{◌≡◌};
ghost use Rattle.transfer_rules.specs.Classes.{operation_class, branch_class, instruction_class};

use rv32im_decode::{BranchKind, Instr, OpKind};

/// The nineteen classes of operations of RV32IM; those of a class share a mask rule (RISC-V Unprivileged ISA, RV32I and
/// "M" extension).
#[derive(Clone, Copy)]
pub enum Class {
    /// ADD, ADDI, and the addresses of loads and stores.
    Add,
    /// SUB.
    Sub,
    /// AND, ANDI.
    And,
    /// OR, ORI.
    Or,
    /// XOR, XORI.
    Xor,
    /// SLL, SLLI.
    Sll,
    /// SRL, SRLI.
    Srl,
    /// SRA, SRAI.
    Sra,
    /// SLT, SLTI, BLT, BGE.
    Slt,
    /// SLTU, SLTIU, BLTU, BGEU.
    Sltu,
    /// BEQ, BNE.
    Equal,
    /// MUL.
    Mul,
    /// MULH.
    Mulh,
    /// MULHSU.
    Mulhsu,
    /// MULHU.
    Mulhu,
    /// DIV.
    Div,
    /// DIVU.
    Divu,
    /// REM.
    Rem,
    /// REMU.
    Remu,
}

/// The class of an instruction; `None` exactly for those of no class, which are the loads, the stores, JALR, LUI,
/// AUIPC, JAL, FENCE, ECALL and EBREAK.
pub fn class_of(instr: &Instr) -> Option<Class>
    ensures { result ≡ instruction_class instr.now }
{
    match *instr {
        Instr::Op { kind, .. } => Some(class_of_operation(kind)),
        Instr::OpImm { kind, .. } => Some(class_of_operation(kind.operation())),
        Instr::Branch { kind, .. } => Some(class_of_branch(kind)),
        _ => None,
    }
}

/// The class of an operation on registers; one with an immediate has the same.
pub fn class_of_operation(kind: OpKind) -> Class
    ensures { result ≡ operation_class kind }
{
    match kind {
        OpKind::Add => Class::Add,
        OpKind::Sub => Class::Sub,
        OpKind::And => Class::And,
        OpKind::Or => Class::Or,
        OpKind::Xor => Class::Xor,
        OpKind::Sll => Class::Sll,
        OpKind::Srl => Class::Srl,
        OpKind::Sra => Class::Sra,
        OpKind::Slt => Class::Slt,
        OpKind::Sltu => Class::Sltu,
        OpKind::Mul => Class::Mul,
        OpKind::Mulh => Class::Mulh,
        OpKind::Mulhsu => Class::Mulhsu,
        OpKind::Mulhu => Class::Mulhu,
        OpKind::Div => Class::Div,
        OpKind::Divu => Class::Divu,
        OpKind::Rem => Class::Rem,
        OpKind::Remu => Class::Remu,
    }
}

/// The class of a branch.
pub fn class_of_branch(kind: BranchKind) -> Class
    ensures { result ≡ branch_class kind }
{
    match kind {
        BranchKind::Blt | BranchKind::Bge => Class::Slt,
        BranchKind::Bltu | BranchKind::Bgeu => Class::Sltu,
        BranchKind::Beq | BranchKind::Bne => Class::Equal,
    }
}
