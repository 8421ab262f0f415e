//! What a command does to a shadow, and what it answers.

ghost use Rattle.std.specs.Prelude.{◌≤◌};
ghost use Rattle.shadow_masks.specs.Labels.{IsByteLabel};

use crate::shadows::commands::Command;
use flow_base::{Point, Slot};
use shadow_masks::{Label, Shadow};
use std::fmt;

/// The answer of a command.
#[derive(Drop)]
pub enum Answer {
    /// It is done.
    Done,
    /// The labels that are asked for.
    Labels([Label; 4]),
    /// Whether the bytes are clean.
    Clean(bool),
    /// An address is outside memory, or a count is not 1 to 4.
    Refused,
    /// There was not enough memory.
    Short,
}

impl fmt::Display for Answer {
    fn fmt<W: fmt::Write>(&self, f: &mut fmt::Formatter<W>) -> fmt::Result {
        match self {
            Answer::Done => write!(f, "done"),
            Answer::Labels([a, b, c, d]) => {
                write!(f, "{:02x}@{:x} ", a.mask, a.point.address)?;
                write!(f, "{:02x}@{:x} ", b.mask, b.point.address)?;
                write!(f, "{:02x}@{:x} ", c.mask, c.point.address)?;
                write!(f, "{:02x}@{:x}", d.mask, d.point.address)
            }
            Answer::Clean(true) => write!(f, "clean"),
            Answer::Clean(false) => write!(f, "labelled"),
            Answer::Refused => write!(f, "refused"),
            Answer::Short => write!(f, "memory is short"),
        }
    }
}

/// The label of a mask and a point at an address; of mask 0 the clean one.
fn label_of(mask: u8, address: u32) -> Label
    ensures { IsByteLabel result }
{
    if mask == 0 {
        return Label::clean();
    }
    Label {
        mask: u32::from(mask),
        point: Point {
            region: 0,
            address,
            slot: Slot::Second,
        },
    }
}

fn set_word(shadow: &mut Shadow, address: u32, mask: u32, point: u32) -> Answer {
    if !shadow.is_inside(address, 4) {
        return Answer::Refused;
    }
    let [a, b, c, d] = mask.to_le_bytes();
    let labels = [
        label_of(a, point),
        label_of(b, point),
        label_of(c, point),
        label_of(d, point),
    ];
    match shadow.set_bytes(address, &labels) {
        Ok(()) => Answer::Done,
        Err(_) => Answer::Short,
    }
}

fn set_range(shadow: &mut Shadow, address: u32, length: u32, label: Label) -> Answer
    requires { IsByteLabel label }
{
    if !shadow.is_inside(address, length) {
        return Answer::Refused;
    }
    match shadow.set_range(address, length, label) {
        Ok(()) => Answer::Done,
        Err(_) => Answer::Short,
    }
}

fn ask(shadow: &Shadow, address: u32, count: u32) -> Answer {
    if !shadow.is_inside(address, count) || count == 0 || count > 4 {
        return Answer::Refused;
    }
    Answer::Labels(shadow.bytes(address, count))
}

fn ask_clean(shadow: &Shadow, address: u32, length: u32) -> Answer {
    if !shadow.is_inside(address, length) {
        return Answer::Refused;
    }
    Answer::Clean(shadow.is_clean(address, length))
}

/// Performs a command.
pub fn perform(shadow: &mut Shadow, command: Command) -> Answer {
    match command {
        Command::Range(address, length, mask, point) => set_range(
            shadow,
            address,
            length,
            label_of(mask, point),
        ),
        Command::Word(address, mask, point) => set_word(shadow, address, mask, point),
        Command::Ask(address, count) => ask(shadow, address, count),
        Command::Clean(address, length) => ask_clean(shadow, address, length),
    }
}
