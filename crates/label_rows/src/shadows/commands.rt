//! The commands of a line.

/// What a line asks for; all numbers are hexadecimal.
#[derive(Drop)]
pub enum Command {
    /// `range ADDRESS LENGTH MASK POINT`: sets the label of a range of bytes; POINT is the address of its point.
    Range(u32, u32, u8, u32),
    /// `word ADDRESS MASK POINT`: sets the labels of four bytes, the lowest byte of the mask first.
    Word(u32, u32, u32),
    /// `ask ADDRESS COUNT`: reads the labels of up to four bytes.
    Ask(u32, u32),
    /// `clean ADDRESS LENGTH`: asks whether bytes are clean.
    Clean(u32, u32),
}

fn number(field: Option<&str>) -> Option<u32> {
    u32::from_str_radix(field?, 16).ok()
}

fn mask(field: Option<&str>) -> Option<u8> {
    u8::from_str_radix(field?, 16).ok()
}

/// The command of a line; None where it is none.
pub fn read_command(line: &str) -> Option<Command> {
    let mut fields = line.split(' ');
    let name = fields.next()?;
    let address = number(fields.next())?;
    let command = match name {
        "range" => Command::Range(
            address,
            number(fields.next())?,
            mask(fields.next())?,
            number(fields.next())?,
        ),
        "word" => Command::Word(address, number(fields.next())?, number(fields.next())?),
        "ask" => Command::Ask(address, number(fields.next())?),
        "clean" => Command::Clean(address, number(fields.next())?),
        _ => return None,
    };
    match fields.next() {
        Some(_) => None,
        None => Some(command),
    }
}
