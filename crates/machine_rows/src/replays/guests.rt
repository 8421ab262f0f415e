use crate::replays::stepping::machine_of;
use cut_file::{Cut, read_cut};
use elf32_loader::{Image, Segment};
use enclosure_regions::{Regions, read_regions};
use flow_base::{Bytes, List};
use replay_machine::{CutTable, Replay};
use rv32im_machine::Machine;
use std::alloc::Global;

/// Where a program stands, and where it is entered.
const START: u32 = 0x1_0000;

/// The most bytes that a program or a cut may have.
const LONGEST: usize = 65_536;

/// What a table says of the replays that follow.
#[derive(Drop)]
pub struct Guest {
    image: Option<Image>,
    regions: Regions,
    cut: Option<Cut>,
    machine: Option<Machine>,
}

/// The bytes of words in hexadecimal digits, the lowest of each first; None where a text is no such words, or memory is
/// short.
fn bytes_of(alloc: Global, text: &str) -> Option<Bytes> {
    let mut bytes = Bytes::new(alloc);
    for word in text.split(' ') {
        let word = u32::from_str_radix(word, 16).ok()?;
        for byte in word.to_le_bytes() {
            bytes.push(byte).ok()?;
        }
    }
    Some(bytes)
}

/// The program of these bytes, which is entered at its first; None where there are none or too many, or memory is short.
fn image_with(alloc: Global, bytes: Bytes) -> Option<Image> {
    if bytes.len() == 0 || bytes.len() > LONGEST {
        return None;
    }
    let mut segments = List::new(alloc);
    let segment = Segment {
        address: START,
        bytes,
    };
    segments.push(segment).ok()?;
    Some(Image {
        base: START,
        entry: START,
        segments,
    })
}

/// The program of words in hexadecimal digits; None where there is none, or memory is short.
fn image_of(alloc: Global, text: &str) -> Option<Image> {
    image_with(alloc, bytes_of(alloc, text)?)
}

/// The cut of a text without its first line, in which a semicolon stands for the end of a line; None where there is
/// none, or memory is short.
fn cut_of(alloc: Global, text: &str) -> Option<Cut> {
    let mut file = Bytes::from_slice(alloc, b"flowcheck-cut 1\n").ok()?;
    for byte in text.as_bytes() {
        let byte = if *byte == b';' { b'\n' } else { *byte };
        file.push(byte).ok()?;
    }
    if file.len() > LONGEST {
        return None;
    }
    read_cut(alloc, file.as_slice()).ok()
}

impl Guest {
    /// A guest without a program, a cut and a machine.
    pub fn new(alloc: Global) -> Guest {
        Guest {
            image: None,
            regions: Regions::none(alloc),
            cut: None,
            machine: None,
        }
    }

    /// Puts a part in place of the one before: `code WORD ..`, `regions JSON`, `cut LINE;LINE;..`, or `machine LIMIT`,
    /// the machine of the code with room for so many bytes of output; None where it is no part or memory is short.
    pub fn put(&mut self, alloc: Global, part: &str, text: &str) -> Option<()> {
        match part {
            "code" => self.image = Some(image_of(alloc, text)?),
            "regions" => self.regions = read_regions(alloc, text.as_bytes()).ok()?,
            "cut" => self.cut = Some(cut_of(alloc, text)?),
            "machine" => {
                let image = self.image.as_ref()?;
                self.machine = Some(machine_of(alloc, image, text.parse().ok()?)?);
            }
            _ => return None,
        }
        Some(())
    }

    /// The table of the guest's cut; None where it has none or memory is short.
    pub fn table(&self, alloc: Global) -> Option<CutTable> {
        let cut = self.cut.as_ref()?;
        CutTable::new(alloc, cut).ok()
    }

    /// The replay of the guest with the masks of a table, before its first turn.
    pub fn replay<'c>(&self, alloc: Global, table: &'c CutTable) -> Option<Replay<'c>> {
        let image = self.image.as_ref()?;
        let cut = self.cut.as_ref()?;
        let public = Bytes::new(alloc);
        Replay::new(alloc, image, &public, &self.regions, cut, table).ok()
    }

    /// The guest's machine.
    pub fn machine(&mut self) -> Option<&mut Machine> {
        self.machine.as_mut()
    }
}
