use rv32im_decode::{BranchKind, ImmKind, LoadKind, OpKind, StoreKind};

/// The first word of a statement.
#[derive(Clone, Copy)]
pub enum Mnemonic {
    Op(OpKind),
    Immediate(ImmKind),
    Load(LoadKind),
    Store(StoreKind),
    Branch(BranchKind),
    Lui,
    Auipc,
    Jal,
    Jalr,
    Fence,
    Ecall,
    Ebreak,
    Nop,
    Ret,
    Mv,
    J,
    Li,
    La,
    Word,
    Byte,
    Zero,
}

/// What a statement puts into the program, where its number is left open.
#[derive(Clone, Copy)]
pub enum Operation {
    /// No byte.
    Nothing,
    /// The instructions that take no number.
    Op {
        kind: OpKind,
        rd: u8,
        rs1: u8,
        rs2: u8,
    },
    Ecall,
    Ebreak,
    /// The instructions whose immediate is the number.
    Immediate {
        kind: ImmKind,
        rd: u8,
        rs1: u8,
    },
    Load {
        kind: LoadKind,
        rd: u8,
        rs1: u8,
    },
    Store {
        kind: StoreKind,
        rs1: u8,
        rs2: u8,
    },
    Jalr {
        rd: u8,
        rs1: u8,
    },
    Lui {
        rd: u8,
    },
    Auipc {
        rd: u8,
    },
    Fence {
        rd: u8,
        rs1: u8,
    },
    /// The instructions whose offset is the number.
    Branch {
        kind: BranchKind,
        rs1: u8,
        rs2: u8,
    },
    Jal {
        rd: u8,
    },
    /// The two instructions that put the number into a register.
    Constant {
        rd: u8,
    },
    /// The number in four bytes.
    Word,
    /// The number in one byte.
    Byte,
    /// As many zero bytes.
    Zero,
}

/// What may stand for the value of a statement.
#[derive(Clone, Copy)]
pub enum Wanted {
    Number,
    Label,
    Target,
}

/// The value of a statement: the number is that of a label's address where one is named.
#[derive(Clone, Copy)]
pub struct Value<'a> {
    pub number: i64,
    pub label: Option<&'a [u8]>,
}

/// A statement.
#[derive(Clone, Copy)]
pub struct Statement<'a> {
    pub operation: Operation,
    pub value: Value<'a>,
}

/// The form of the operands of a statement.
#[derive(Clone, Copy)]
pub enum Form {
    /// None.
    Nothing,
    ThreeRegisters,
    TwoRegisters,
    /// Two registers and a value.
    Registers(Wanted),
    /// A register and a value.
    Register(Wanted),
    /// A register, and a number with a register in parentheses.
    Place,
    /// A value alone.
    Value(Wanted),
}

/// Operands of any form: the registers in their order, 0 where there are fewer, and the value.
#[derive(Clone, Copy)]
pub struct Operands<'a> {
    pub first: u8,
    pub second: u8,
    pub third: u8,
    pub value: Value<'a>,
}
