ghost use Rattle.std.specs.Prelude.{◌≡◌};
ghost use Rattle.rv32im_asm.specs.Mnemonics.{branch_name as branch_name_of, load_name as load_name_of};
ghost use Rattle.rv32im_asm.specs.Mnemonics.{store_name as store_name_of, immediate_name as immediate_name_of};
ghost use Rattle.rv32im_asm.specs.Mnemonics.{operation_name as operation_name_of};

use rv32im_decode::{BranchKind, ImmKind, LoadKind, OpKind, StoreKind};

/// The mnemonic of a branch.
pub(crate) fn branch_name(kind: BranchKind) -> &'static str
    ensures { result.now ≡ branch_name_of kind }
{
    match kind {
        BranchKind::Beq => "beq",
        BranchKind::Bne => "bne",
        BranchKind::Blt => "blt",
        BranchKind::Bge => "bge",
        BranchKind::Bltu => "bltu",
        BranchKind::Bgeu => "bgeu",
    }
}

/// The mnemonic of a load.
pub(crate) fn load_name(kind: LoadKind) -> &'static str
    ensures { result.now ≡ load_name_of kind }
{
    match kind {
        LoadKind::Lb => "lb",
        LoadKind::Lh => "lh",
        LoadKind::Lw => "lw",
        LoadKind::Lbu => "lbu",
        LoadKind::Lhu => "lhu",
    }
}

/// The mnemonic of a store.
pub(crate) fn store_name(kind: StoreKind) -> &'static str
    ensures { result.now ≡ store_name_of kind }
{
    match kind {
        StoreKind::Sb => "sb",
        StoreKind::Sh => "sh",
        StoreKind::Sw => "sw",
    }
}

/// The mnemonic of a register-immediate operation.
pub(crate) fn immediate_name(kind: ImmKind) -> &'static str
    ensures { result.now ≡ immediate_name_of kind }
{
    match kind {
        ImmKind::Addi => "addi",
        ImmKind::Slti => "slti",
        ImmKind::Sltiu => "sltiu",
        ImmKind::Xori => "xori",
        ImmKind::Ori => "ori",
        ImmKind::Andi => "andi",
        ImmKind::Slli => "slli",
        ImmKind::Srli => "srli",
        ImmKind::Srai => "srai",
    }
}

/// The mnemonic of a register-register operation.
pub(crate) fn operation_name(kind: OpKind) -> &'static str
    ensures { result.now ≡ operation_name_of kind }
{
    match kind {
        OpKind::Add => "add",
        OpKind::Sub => "sub",
        OpKind::Sll => "sll",
        OpKind::Slt => "slt",
        OpKind::Sltu => "sltu",
        OpKind::Xor => "xor",
        OpKind::Srl => "srl",
        OpKind::Sra => "sra",
        OpKind::Or => "or",
        OpKind::And => "and",
        OpKind::Mul => "mul",
        OpKind::Mulh => "mulh",
        OpKind::Mulhsu => "mulhsu",
        OpKind::Mulhu => "mulhu",
        OpKind::Div => "div",
        OpKind::Divu => "divu",
        OpKind::Rem => "rem",
        OpKind::Remu => "remu",
    }
}
