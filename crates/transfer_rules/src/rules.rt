//! The mask of what an instruction computes, by a book.

ghost use Rattle.std.specs.Prelude.{◌≡◌, ◌≢◌, ◌%◌, None, IfSome, IsTrue};
ghost use Rattle.rv32im_decode.specs.Operations.{target_of, word_of};
ghost use Rattle.transfer_rules.specs.Classes.{instruction_class, takes_address};
ghost use Rattle.transfer_rules.specs.Rules.{computed};
ghost use Rattle.transfer_rules.specs.Soundness.{IsEvenForTarget, IsSoundAddress, IsSoundSum, KeepsMask};
ghost use Rattle.transfer_rules.specs.Tables.{IsByTable, mask_of_address, mask_of_target, sum_operands};
ghost use Rattle.transfer_rules.specs.declared.classes.Class.TheVariants.{Add};

use crate::book::RuleBook;
use crate::classes::{Class, class_of};
use crate::operands::Operands;
use rv32im_decode::Instr;

/// The mask of what an instruction of a class (see [`class_of`]) computes from its operands, by the book's rule of the
/// class; for a branch, of whether it is taken. An immediate is the second operand, sign-extended and with mask 0.
pub fn mask_of(book: &RuleBook, instr: &Instr, operands: Operands) -> u32
    requires { instruction_class instr.now ≢ None }
    ensures sound { KeepsMask operands result (computed instr.now) }
    ensures table { IfSome (instruction_class instr.now) (λ class.
        IsByTable book.now.table (λ masks. masks class operands) result) }
{
    match class_of(instr) {
        Some(class) => book.mask(class, operands),
        None => unreachable!(),
    }
}

/// The mask of the address that a load, a store or JALR computes from the first operand and its mask, by the book's
/// rule of sums (RISC-V Unprivileged ISA, "Load and Store Instructions" and "Unconditional Jumps").
pub fn address_mask(book: &RuleBook, instr: &Instr, first: u32, mask: u32) -> u32
    requires { IsTrue (takes_address instr.now) }
    ensures sound { IsSoundAddress instr.now first mask result }
    ensures table { IsByTable book.now.table (mask_of_address instr.now first mask) result }
    ensures even { IsEvenForTarget instr.now result }
{
    match *instr {
        Instr::Load { imm, .. } => book.mask(Class::Add, sum_operands(first, mask, imm)),
        Instr::Store { imm, .. } => book.mask(Class::Add, sum_operands(first, mask, imm)),
        Instr::Jalr { imm, .. } => target_mask(book, sum_operands(first, mask, imm)),
        _ => unreachable!(),
    }
}

/// The mask of the sum of two operands whose lowest bit is cleared, as JALR computes its target from a register and an
/// immediate, by the book's rule of sums.
pub fn target_mask(book: &RuleBook, operands: Operands) -> u32
    ensures sound { KeepsMask operands result target_of }
    ensures table { IsByTable book.now.table (mask_of_target operands) result }
    ensures even { result % 2 ≡ 0 }
{
    let sum = book.mask(Class::Add, operands);
    sum - sum % 2
}

/// The operands of the sum of a word, with its mask, and an immediate.
fn sum_operands(first: u32, mask: u32, imm: i32) -> Operands
    ensures { result ≡ sum_operands first mask imm }
{
    Operands {
        v1: first,
        m1: mask,
        v2: imm.cast_unsigned(),
        m2: 0,
    }
}
