use std::fmt;

/// What a case sets of a guest before its step, and what it expects after it: the program counter, x5, x6 and x7, and
/// eight bytes of memory as one number, the lowest first.
#[derive(Clone, Copy, PartialEq)]
pub(crate) struct Seen {
    pub(crate) pc: u32,
    pub(crate) x5: u32,
    pub(crate) x6: u32,
    pub(crate) x7: u32,
    pub(crate) bytes: u64,
}

/// One step of a guest: the word of its instruction, the address of the eight bytes, and what there is before and
/// after.
#[derive(Clone, Copy)]
pub(crate) struct Case {
    pub(crate) word: u32,
    pub(crate) address: u32,
    pub(crate) before: Seen,
    pub(crate) after: Seen,
}

impl fmt::Display for Seen {
    ghost use Rattle.std.specs.Prelude.{Some};
    ghost use Rattle.machine_rows.specs.Trials.{seen_text};

    ghost output = { λ seen. Some (seen_text seen) };

    fn fmt<W: fmt::Write>(&self, f: &mut fmt::Formatter<W>) -> fmt::Result {
        let Seen {
            pc,
            x5,
            x6,
            x7,
            bytes,
        } = *self;
        write!(f, "{pc:x} {x5:x} {x6:x} {x7:x} {bytes:x}")
    }
}

/// So many numbers in hexadecimal digits, with a blank between them; None where a text has others, more or fewer.
fn numbers<const N: usize>(text: &str) -> Option<[u32; N]> {
    let mut numbers = [0; N];
    let mut fields = text.split(' ');
    for number in numbers.iter_mut() {
        *number = u32::from_str_radix(fields.next()?, 16).ok()?;
    }
    match fields.next() {
        Some(_) => None,
        None => Some(numbers),
    }
}

/// So many numbers of 32 bits, and after them one of 64.
fn numbers_and_bytes<const N: usize>(text: &str) -> Option<([u32; N], u64)> {
    let (front, bytes) = text.rsplit_once(' ')?;
    let bytes = u64::from_str_radix(bytes, 16).ok()?;
    Some((numbers(front)?, bytes))
}

/// The case of a line `PC WORD X5 X6 X7 ADDRESS BEFORE -> NEXT X5 X6 X7 AFTER`; None where it is no such line.
pub(crate) fn parse(line: &str) -> Option<Case> {
    let (given, wanted) = line.split_once(" -> ")?;
    let ([pc, word, x5, x6, x7, address], bytes) = numbers_and_bytes::<6>(given)?;
    let before = Seen {
        pc,
        x5,
        x6,
        x7,
        bytes,
    };
    Some(Case {
        word,
        address,
        before,
        after: parse_seen(wanted)?,
    })
}

/// What `NEXT X5 X6 X7 AFTER` says.
fn parse_seen(text: &str) -> Option<Seen> {
    let ([pc, x5, x6, x7], bytes) = numbers_and_bytes::<4>(text)?;
    Some(Seen {
        pc,
        x5,
        x6,
        x7,
        bytes,
    })
}
