//! The lines of a table.

/// A part of a guest.
#[derive(Clone, Copy)]
pub enum Part {
    /// `code WORD ..`: words of the program, which stands at 0x10000 and begins there.
    Code,
    /// `public BYTE ..`: bytes of the public input.
    Public,
    /// `secret BYTE ..`: bytes of the secret.
    Secret,
    /// `regions JSON`: a region file.
    Regions,
}

/// What a line asks for; words and bytes are hexadecimal.
#[derive(Clone, Copy)]
pub enum Line<'a> {
    /// `guest NAME`: a new guest, of which nothing is said yet.
    Guest(&'a str),
    /// A part of the guest, with what it says.
    Part(Part, &'a str),
    /// `turns COUNT`: the guest's first turns are asked for, up to its end, but at most so many.
    Turns(u32),
}

/// The line of a text; None where it is none.
pub fn read_line<'a>(text: &'a str) -> Option<Line<'a>> {
    let (word, rest) = text.split_once(' ')?;
    match word {
        "guest" => Some(Line::Guest(rest)),
        "code" => Some(Line::Part(Part::Code, rest)),
        "public" => Some(Line::Part(Part::Public, rest)),
        "secret" => Some(Line::Part(Part::Secret, rest)),
        "regions" => Some(Line::Part(Part::Regions, rest)),
        "turns" => Some(Line::Turns(rest.parse().ok()?)),
        _ => None,
    }
}
