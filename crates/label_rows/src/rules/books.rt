use crate::rules::rows::agrees_with;
use crate::rules::widest::widest;
use transfer_rules::{Class, Rule, RuleBook, book_1, book_2, book_3};

/// The same for a row of table 0, whose book's rules all answer all bits where any bit is secret.
fn holds_in_0(row: &str) -> Option<bool> {
    let book = RuleBook::new(
        0,
        [
            Rule::new(Class::Add, 0, widest),
            Rule::new(Class::Sub, 0, widest),
            Rule::new(Class::And, 0, widest),
            Rule::new(Class::Or, 0, widest),
            Rule::new(Class::Xor, 0, widest),
            Rule::new(Class::Sll, 0, widest),
            Rule::new(Class::Srl, 0, widest),
            Rule::new(Class::Sra, 0, widest),
            Rule::new(Class::Slt, 0, widest),
            Rule::new(Class::Sltu, 0, widest),
            Rule::new(Class::Equal, 0, widest),
            Rule::new(Class::Mul, 0, widest),
            Rule::new(Class::Mulh, 0, widest),
            Rule::new(Class::Mulhsu, 0, widest),
            Rule::new(Class::Mulhu, 0, widest),
            Rule::new(Class::Div, 0, widest),
            Rule::new(Class::Divu, 0, widest),
            Rule::new(Class::Rem, 0, widest),
            Rule::new(Class::Remu, 0, widest),
        ],
    );
    agrees_with(&book, row)
}

/// The same for a row of table 1.
fn holds_in_1(row: &str) -> Option<bool> {
    let book = book_1!();
    agrees_with(&book, row)
}

/// The same for a row of table 2.
fn holds_in_2(row: &str) -> Option<bool> {
    let book = book_2!();
    agrees_with(&book, row)
}

/// The same for a row of table 3.
fn holds_in_3(row: &str) -> Option<bool> {
    let book = book_3!();
    agrees_with(&book, row)
}

/// Whether a row `TABLE WORD V1 M1 V2 M2 -> CHANGED MASK` agrees with the book of its table; None where it is no such
/// row, or its instruction has no rule.
pub fn holds(row: &str) -> Option<bool> {
    let (table, row) = row.split_once(' ')?;
    match table {
        "0" => holds_in_0(row),
        "1" => holds_in_1(row),
        "2" => holds_in_2(row),
        "3" => holds_in_3(row),
        _ => None,
    }
}
