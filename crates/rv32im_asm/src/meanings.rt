//! What statements say.

ghost use Rattle.std.specs.Prelude.{◌≡◌, ◌<◌, option_map, IfSome};
ghost use Rattle.rv32im_asm.specs.Lines.{operands_in};
ghost use Rattle.rv32im_asm.specs.Private.Forms.{form_of, operation_of};
ghost use Rattle.rv32im_asm.specs.declared.statements.Operation.TheVariants.{Immediate};
ghost use Rattle.rv32im_decode.specs.declared.instructions.ImmKind.TheVariants.{Addi};
ghost use Rattle.rv32im_asm.specs.Statements.{HasRegisters, meaning_in, meaning_of, said_by, statement_of};

use crate::cutting::cut_word;
use crate::first_words::mnemonic;
use crate::forms::{operands, plain};
use crate::lines::body;
use crate::statements::{Form, Mnemonic, Operation, Statement, Wanted};
use rv32im_decode::ImmKind;

/// The form of the operands of a mnemonic or directive.
fn form(mnemonic: Mnemonic) -> Form
    ensures { result ≡ form_of mnemonic }
{
    match mnemonic {
        Mnemonic::Op(_) => Form::ThreeRegisters,
        Mnemonic::Mv => Form::TwoRegisters,
        Mnemonic::Immediate(_) | Mnemonic::Fence => Form::Registers(Wanted::Number),
        Mnemonic::Branch(_) => Form::Registers(Wanted::Target),
        Mnemonic::Lui | Mnemonic::Auipc | Mnemonic::Li => Form::Register(Wanted::Number),
        Mnemonic::Jal => Form::Register(Wanted::Target),
        Mnemonic::La => Form::Register(Wanted::Label),
        Mnemonic::Load(_) | Mnemonic::Store(_) | Mnemonic::Jalr => Form::Place,
        Mnemonic::J => Form::Value(Wanted::Target),
        Mnemonic::Word | Mnemonic::Byte | Mnemonic::Zero => Form::Value(Wanted::Number),
        Mnemonic::Ecall | Mnemonic::Ebreak | Mnemonic::Nop | Mnemonic::Ret => Form::Nothing,
    }
}

/// The operation that copies a register, where its number is 0.
fn add_zero(rd: u8, rs1: u8) -> Operation
    ensures { result ≡ Immediate Addi rd rs1 }
{
    Operation::Immediate {
        kind: ImmKind::Addi,
        rd,
        rs1,
    }
}

/// The operation of a mnemonic or directive with the registers among its operands, in their order.
fn operation(mnemonic: Mnemonic, first: u8, second: u8, third: u8) -> Operation
    requires first { first < 32 }
    requires second { second < 32 }
    requires third { third < 32 }
    ensures exact { result ≡ operation_of mnemonic first second third }
    ensures registers { HasRegisters result }
{
    match mnemonic {
        Mnemonic::Op(kind) => Operation::Op {
            kind,
            rd: first,
            rs1: second,
            rs2: third,
        },
        Mnemonic::Immediate(kind) => Operation::Immediate {
            kind,
            rd: first,
            rs1: second,
        },
        Mnemonic::Load(kind) => Operation::Load {
            kind,
            rd: first,
            rs1: second,
        },
        Mnemonic::Store(kind) => Operation::Store {
            kind,
            rs1: second,
            rs2: first,
        },
        Mnemonic::Branch(kind) => Operation::Branch {
            kind,
            rs1: first,
            rs2: second,
        },
        Mnemonic::Lui => Operation::Lui { rd: first },
        Mnemonic::Auipc => Operation::Auipc { rd: first },
        Mnemonic::Jal => Operation::Jal { rd: first },
        Mnemonic::Jalr => Operation::Jalr {
            rd: first,
            rs1: second,
        },
        Mnemonic::Fence => Operation::Fence {
            rd: first,
            rs1: second,
        },
        Mnemonic::Ecall => Operation::Ecall,
        Mnemonic::Ebreak => Operation::Ebreak,
        Mnemonic::Nop => add_zero(0, 0),
        Mnemonic::Ret => Operation::Jalr { rd: 0, rs1: 1 },
        Mnemonic::Mv => add_zero(first, second),
        Mnemonic::J => Operation::Jal { rd: 0 },
        Mnemonic::Li | Mnemonic::La => Operation::Constant { rd: first },
        Mnemonic::Word => Operation::Word,
        Mnemonic::Byte => Operation::Byte,
        Mnemonic::Zero => Operation::Zero,
    }
}

/// What a mnemonic or directive says of its operands; None where they are not of its form.
fn statement<'a>(mnemonic: Mnemonic, text: &'a [u8]) -> Option<Statement<'a>>
    ensures exact { option_map meaning_of result ≡ statement_of mnemonic (operands_in text.entry.now) }
    ensures registers { IfSome result (λ statement. HasRegisters statement.operation) }
{
    let found = operands(form(mnemonic), text)?;
    Some(Statement {
        operation: operation(mnemonic, found.first, found.second, found.third),
        value: found.value,
    })
}

/// What a statement says; the empty one says nothing.
fn meaning<'a>(body: &'a [u8]) -> Option<Statement<'a>>
    ensures exact { option_map meaning_of result ≡ meaning_in body.entry.now }
    ensures registers { IfSome result (λ statement. HasRegisters statement.operation) }
{
    if body.is_empty() {
        return Some(Statement {
            operation: Operation::Nothing,
            value: plain(0),
        });
    }
    let (word, operands) = cut_word(body);
    statement(mnemonic(word)?, operands)
}

/// What a line says; None where it is not of a form.
pub fn statement_in<'a>(line: &'a [u8]) -> Option<Statement<'a>>
    ensures exact { option_map meaning_of result ≡ said_by line.entry.now }
    ensures registers { IfSome result (λ statement. HasRegisters statement.operation) }
{
    meaning(body(line)?)
}
