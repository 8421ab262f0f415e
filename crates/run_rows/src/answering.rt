//! Which function answers a row, and by which book of mask rules. A book is built where it is used: who hands out a
//! function pointer hides what it may do.

ghost use Rattle.transfer_rules.specs.Soundness.{IsSound};
ghost use Rattle.transfer_rules.specs.declared.classes.Class.{Class as AnyClass};

use crate::guests::{Guest, Held};
use crate::rows::{Row, row_of};
use crate::{bounds, learning, measures, taints};
use std::io;
use transfer_rules::{Class, Operands, Rule, RuleBook, book_1, book_2, book_3, high_1};

/// Prints the answer of a row by a book; whether there is one, and it is printed.
fn print_by(rt: &HostRuntime, row: &Row<'_>, guest: &Guest<'_>, book: &RuleBook) -> bool {
    match row.table {
        "taint" => taints::print(rt, row, guest, book),
        "learn" => learning::print(rt, row, guest),
        "measure" => measures::print_one(rt, row, guest, book),
        "many" => measures::print_all(rt, row, guest, book),
        "bound" => bounds::print(rt, row, guest, book),
        _ => false,
    }
}

/// Prints the answer of a row by the rules of table 1.
fn print_by_1(rt: &HostRuntime, row: &Row<'_>, guest: &Guest<'_>) -> bool {
    let book = book_1!();
    print_by(rt, row, guest, &book)
}

/// Prints the answer of a row by the rules of table 2.
fn print_by_2(rt: &HostRuntime, row: &Row<'_>, guest: &Guest<'_>) -> bool {
    let book = book_2!();
    print_by(rt, row, guest, &book)
}

/// Prints the answer of a row by the rules of table 3.
fn print_by_3(rt: &HostRuntime, row: &Row<'_>, guest: &Guest<'_>) -> bool {
    let book = book_3!();
    print_by(rt, row, guest, &book)
}

/// All bits where any bit of the operands is secret, which no table says.
#[tactic(auto, using(transfer_rules::proofs::Masks::all_is_sound))]
fn widest(operands: Operands) -> u32
    ensures { (class : AnyClass) → IsSound class operands result }
{
    high_1(operands)
}

/// Prints the answer of a row by rules of no table, which answer all bits where any bit is secret.
fn print_by_widest(rt: &HostRuntime, row: &Row<'_>, guest: &Guest<'_>) -> bool {
    let book = RuleBook::new(
        0,
        [
            Rule::new(Class::Add, 0, widest),
            Rule::new(Class::Sub, 0, widest),
            Rule::new(Class::And, 0, widest),
            Rule::new(Class::Or, 0, widest),
            Rule::new(Class::Xor, 0, widest),
            Rule::new(Class::Sll, 0, widest),
            Rule::new(Class::Srl, 0, widest),
            Rule::new(Class::Sra, 0, widest),
            Rule::new(Class::Slt, 0, widest),
            Rule::new(Class::Sltu, 0, widest),
            Rule::new(Class::Equal, 0, widest),
            Rule::new(Class::Mul, 0, widest),
            Rule::new(Class::Mulh, 0, widest),
            Rule::new(Class::Mulhsu, 0, widest),
            Rule::new(Class::Mulhu, 0, widest),
            Rule::new(Class::Div, 0, widest),
            Rule::new(Class::Divu, 0, widest),
            Rule::new(Class::Rem, 0, widest),
            Rule::new(Class::Remu, 0, widest),
        ],
    );
    print_by(rt, row, guest, &book)
}

/// Prints the answer of a row by the book that it names.
fn print_by_book(rt: &HostRuntime, row: &Row<'_>, guest: &Guest<'_>) -> bool {
    match row.limits.book {
        1 => print_by_1(rt, row, guest),
        2 => print_by_2(rt, row, guest),
        3 => print_by_3(rt, row, guest),
        _ => print_by_widest(rt, row, guest),
    }
}

/// Prints the answer of a row by what its files hold; whether all are there, and it is printed.
fn print_held(rt: &HostRuntime, row: &Row<'_>, held: &Held) -> bool {
    match held.guest() {
        Some(guest) => print_by_book(rt, row, &guest),
        None => false,
    }
}

/// Prints the answer of a row; whether there is one, and it is printed.
fn print_row(rt: &HostRuntime, row: &Row<'_>) -> bool {
    let held = Held::new(rt, row);
    print_held(rt, row, &held)
}

/// Prints the answer of a line.
pub fn print_answer(rt: &HostRuntime, line: &str) -> io::Result<()> {
    if print_row(rt, &row_of(line)) {
        return Ok(());
    }
    println!(rt; "{line}: no row, no files, or memory is short")
}
