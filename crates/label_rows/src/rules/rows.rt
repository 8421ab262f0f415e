use crate::rules::agreeing::agrees;
use rv32im_decode::decode;
use transfer_rules::{Operands, RuleBook};

/// So many numbers in hexadecimal digits, with a blank between them; None where a text has others, more or fewer.
fn numbers<const N: usize>(text: &str) -> Option<[u32; N]> {
    let mut numbers = [0; N];
    let mut fields = text.split(' ');
    for number in numbers.iter_mut() {
        *number = u32::from_str_radix(fields.next()?, 16).ok()?;
    }
    match fields.next() {
        Some(_) => None,
        None => Some(numbers),
    }
}

/// Whether a row `WORD V1 M1 V2 M2 -> CHANGED MASK` agrees with a book; None where it is no such row, or its
/// instruction has no rule.
pub fn agrees_with(book: &RuleBook, row: &str) -> Option<bool> {
    let (given, found) = row.split_once(" -> ")?;
    let [word, v1, m1, v2, m2] = numbers::<5>(given)?;
    let [changed, wanted] = numbers::<2>(found)?;
    let instr = decode(word)?;
    let operands = Operands { v1, m1, v2, m2 };
    agrees(book, &instr, operands, changed, wanted)
}
