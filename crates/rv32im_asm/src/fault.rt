ghost use Rattle.std.specs.Prelude.{◌≡◌};
ghost use Rattle.rv32im_asm.specs.Kinds.{kind_number};

use flow_base::NoMemory;
use std::fmt;
use thiserror::Error;

/// Why a line gives no bytes, whatever the labels are.
#[derive(Clone, Copy, Debug)]
pub enum LineKind {
    /// The line is not of a form that the language has.
    Malformed,
    /// An instruction or a word does not stand at a multiple of 4.
    Misplaced,
    /// The program exceeds 1 MiB with this line.
    TooLong,
    /// The program has no byte.
    Empty,
}

impl LineKind {
    /// The number of the kind, from 1 to 4.
    fn number(self) -> u8
        ensures { result ≡ kind_number self }
    {
        match self {
            LineKind::Malformed => 1,
            LineKind::Misplaced => 2,
            LineKind::TooLong => 3,
            LineKind::Empty => 4,
        }
    }
}

impl fmt::Display for LineKind {
    ghost use Rattle.std.specs.Prelude.{Some};
    ghost use Rattle.std.specs.Fmt.{decimal};
    ghost use Rattle.rv32im_asm.specs.Kinds.{kind_number};

    ghost output = { λ kind. Some (decimal (kind_number kind)) };

    fn fmt<W: fmt::Write>(&self, f: &mut fmt::Formatter<W>) -> fmt::Result {
        let number = self.number();
        write!(f, "{number}")
    }
}

/// Why a source gives no program. Lines are counted from 1.
#[derive(Debug, Drop, Error)]
pub enum AsmFault {
    /// The line fails by its form, its place or its size; or the program has no byte, with number 0.
    Line { number: u32, kind: LineKind },
    /// An earlier line begins with the same label.
    LabelTwice { number: u32 },
    /// No line begins with the label that is named.
    LabelMissing { number: u32 },
    /// A number or an offset does not fit its field, or an offset is odd.
    ImmediateRange { number: u32 },
    /// There was not enough memory.
    Memory,
}

impl From<NoMemory> for AsmFault {
    ghost use Rattle.std.specs.Prelude.{◌≡◌};
    ghost use Rattle.rv32im_asm.specs.declared.fault.AsmFault.TheVariants.{Memory};
    ghost use Rattle.flow_base.specs.declared.lists.NoMemory.{NoMemory as TheNoMemory};

    ghost from_gives = { λ _ fault. fault ≡ Memory };

    fn from(_: NoMemory) -> AsmFault {
        AsmFault::Memory
    }
}

impl fmt::Display for AsmFault {
    ghost use Rattle.std.specs.Prelude.{Some};
    ghost use Rattle.rv32im_asm.specs.FaultTexts.{source_fault_text};

    ghost output = { λ fault. Some (source_fault_text fault) };

    fn fmt<W: fmt::Write>(&self, f: &mut fmt::Formatter<W>) -> fmt::Result {
        let (word, number) = match *self {
            AsmFault::Line { number, kind } => return write!(f, "line {number} kind {kind}"),
            AsmFault::LabelTwice { number } => ("label-twice", number),
            AsmFault::LabelMissing { number } => ("label-missing", number),
            AsmFault::ImmediateRange { number } => ("range", number),
            AsmFault::Memory => return f.write_str("memory"),
        };
        write!(f, "{word} {number}")
    }
}
