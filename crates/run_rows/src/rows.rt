//! The words of a row.

ghost use Rattle.std.specs.Prelude.{◌≤◌};

/// No row is given more turns.
const MOST_TURNS: u32 = 20_000_000;

/// A row: which answer is asked for, the row's name, the names of the files of a program, regions and a cut, the number of
/// a book of mask rules, limits, and the names of files of secrets. The public input is empty. An answer passes over what
/// it does not ask for.
#[derive(Clone, Copy)]
pub struct Row<'a> {
    pub table: &'a str,
    pub name: &'a str,
    pub program: &'a str,
    pub regions: &'a str,
    pub cut: &'a str,
    pub limits: Limits,
    pub secrets: &'a str,
}

/// The numbers of a row.
#[derive(Clone, Copy)]
pub struct Limits {
    pub book: u32,
    pub turns: u32,
    pub budget: u32,
    pub paths: u32,
    ghost few: { turns ≤ 20000000 },
}

/// The first word of a text, and what follows it.
fn word<'a>(text: &'a str) -> (&'a str, &'a str) {
    text.split_once(' ').unwrap_or((text, ""))
}

/// The number that the first word of a text spells, 0 where it spells none, and what follows it.
fn number<'a>(text: &'a str) -> (u32, &'a str) {
    let (first, rest) = word(text);
    (first.parse::<u32>().unwrap_or(0), rest)
}

/// The numbers at the head of a text, and what follows them.
fn limits_of<'a>(text: &'a str) -> (Limits, &'a str) {
    let (book, rest) = number(text);
    let (turns, rest) = number(rest);
    let (budget, rest) = number(rest);
    let (paths, rest) = number(rest);
    let limits = Limits {
        book,
        turns: turns.min(MOST_TURNS),
        budget,
        paths,
    };
    (limits, rest)
}

/// The row of a line: nine words, and then the names of secrets, with a space between them.
pub fn row_of<'a>(line: &'a str) -> Row<'a> {
    let (table, rest) = word(line);
    let (name, rest) = word(rest);
    let (program, rest) = word(rest);
    let (regions, rest) = word(rest);
    let (cut, rest) = word(rest);
    let (limits, secrets) = limits_of(rest);
    Row {
        table,
        name,
        program,
        regions,
        cut,
        limits,
        secrets,
    }
}
