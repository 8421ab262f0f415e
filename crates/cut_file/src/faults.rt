use flow_base::NoMemory;
use std::fmt;

/// Why a file gives no cut: what is wrong with the first line that fails.
#[derive(Clone, Copy)]
pub enum CutFault {
    /// The first line is whole and neither `flowcheck-cut 1` nor `flowcheck-cut 2`.
    Version,
    /// A whole line is of no form that may stand there.
    Line {
        /// The line's number, counted from 1.
        number: u32,
    },
    /// A skip or a point does not exceed the one before it.
    Order {
        /// The line's number, counted from 1.
        number: u32,
    },
    /// The file ends within a line or before the line `end`.
    Truncated,
    /// Bytes follow the line `end`.
    Trailing {
        /// The place in bytes of the first of them.
        offset: u32,
    },
    /// There was not enough memory.
    Memory,
}

impl From<NoMemory> for CutFault {
    ghost use Rattle.std.specs.Prelude.{◌≡◌};
    ghost use Rattle.cut_file.specs.declared.faults.CutFault.TheVariants.{Memory};
    ghost use Rattle.flow_base.specs.declared.lists.NoMemory.{NoMemory as TheNoMemory};

    ghost from_gives = { λ _ fault. fault ≡ Memory };

    fn from(_: NoMemory) -> CutFault {
        CutFault::Memory
    }
}

impl fmt::Display for CutFault {
    ghost use Rattle.std.specs.Prelude.{Some};
    ghost use Rattle.cut_file.specs.FaultTexts.{cut_fault_text};

    ghost output = { λ fault. Some (cut_fault_text fault) };

    fn fmt<W: fmt::Write>(&self, f: &mut fmt::Formatter<W>) -> fmt::Result {
        let (word, number) = match *self {
            CutFault::Version => return f.write_str("version"),
            CutFault::Line { number } => ("line", number),
            CutFault::Order { number } => ("order", number),
            CutFault::Truncated => return f.write_str("truncated"),
            CutFault::Trailing { offset } => ("trailing", offset),
            CutFault::Memory => return f.write_str("memory"),
        };
        write!(f, "{word} {number}")
    }
}
