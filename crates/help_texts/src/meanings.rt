//! How the meaning of a text that the program has put is looked up.
//!
//! A table of meanings is a text with a row in each line. A row has three cells with `|` between them: how a text
//! begins, a part that it has, which is empty where the beginning is enough, and what it means and what to change.

/// The meaning in a row; None where the text is another.
fn meaning_in<'a>(row: &'a str, fault: &str) -> Option<&'a str> {
    let (start, rest) = row.split_once('|')?;
    let (part, meaning) = rest.split_once('|')?;
    if fault.starts_with(start) && fault.contains(part) {
        return Some(meaning);
    }
    None
}

/// The first meaning of a text in a table; an empty one where the table has none.
pub fn meaning_of<'a>(table: &'a str, fault: &str) -> &'a str {
    for row in table.lines() {
        if let Some(meaning) = meaning_in(row, fault) {
            return meaning;
        }
    }
    ""
}
