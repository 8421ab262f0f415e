/// An instruction of RV32IM (RISC-V Unprivileged ISA, RV32I base and "M" extension). Registers are 0 to 31. The
/// immediate of LUI and AUIPC is the upper 20 bits as a number below 2^20, that of FENCE a number below 4,096, a shift's
/// 0 to 31; offsets and the other immediates are signed, in bytes where they move the program counter.
#[derive(Clone, Copy)]
pub enum Instr {
    Lui {
        rd: u8,
        imm: u32,
    },
    Auipc {
        rd: u8,
        imm: u32,
    },
    Jal {
        rd: u8,
        offset: i32,
    },
    Jalr {
        rd: u8,
        rs1: u8,
        imm: i32,
    },
    Branch {
        kind: BranchKind,
        rs1: u8,
        rs2: u8,
        offset: i32,
    },
    Load {
        kind: LoadKind,
        rd: u8,
        rs1: u8,
        imm: i32,
    },
    Store {
        kind: StoreKind,
        rs1: u8,
        rs2: u8,
        imm: i32,
    },
    OpImm {
        kind: ImmKind,
        rd: u8,
        rs1: u8,
        imm: i32,
    },
    Op {
        kind: OpKind,
        rd: u8,
        rs1: u8,
        rs2: u8,
    },
    Fence {
        rd: u8,
        rs1: u8,
        imm: u32,
    },
    Ecall,
    Ebreak,
}

/// The conditional branches (section "Conditional Branches" of the RV32I chapter).
#[derive(Clone, Copy)]
pub enum BranchKind {
    Beq,
    Bne,
    Blt,
    Bge,
    Bltu,
    Bgeu,
}

/// The loads (section "Load and Store Instructions" of the RV32I chapter).
#[derive(Clone, Copy)]
pub enum LoadKind {
    Lb,
    Lh,
    Lw,
    Lbu,
    Lhu,
}

/// The stores (section "Load and Store Instructions" of the RV32I chapter).
#[derive(Clone, Copy)]
pub enum StoreKind {
    Sb,
    Sh,
    Sw,
}

/// The register-immediate operations (section "Integer Register-Immediate Instructions" of the RV32I chapter).
#[derive(Clone, Copy)]
pub enum ImmKind {
    Addi,
    Slti,
    Sltiu,
    Xori,
    Ori,
    Andi,
    Slli,
    Srli,
    Srai,
}

/// The register-register operations (section "Integer Register-Register Operations" of the RV32I chapter, and the "M"
/// extension).
#[derive(Clone, Copy)]
pub enum OpKind {
    Add,
    Sub,
    Sll,
    Slt,
    Sltu,
    Xor,
    Srl,
    Sra,
    Or,
    And,
    Mul,
    Mulh,
    Mulhsu,
    Mulhu,
    Div,
    Divu,
    Rem,
    Remu,
}
