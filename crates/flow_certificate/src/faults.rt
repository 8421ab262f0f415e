use flow_base::NoMemory;
use std::fmt;

/// Why a file gives no certificate.
#[derive(Clone, Copy)]
pub enum FormFault {
    /// The file is the text of no certificate.
    Line {
        /// The first line that fails, counted from 1. A missing line counts as the line after the last.
        line: u32,
    },
    /// There was not enough memory.
    Memory,
}

impl From<NoMemory> for FormFault {
    ghost use Rattle.std.specs.Prelude.{◌≡◌};
    ghost use Rattle.flow_certificate.specs.declared.faults.FormFault.TheVariants.{Memory};
    ghost use Rattle.flow_base.specs.declared.lists.NoMemory.{NoMemory as TheNoMemory};

    ghost from_gives = { λ _ fault. fault ≡ Memory };

    fn from(_: NoMemory) -> FormFault {
        FormFault::Memory
    }
}

impl fmt::Display for FormFault {
    ghost use Rattle.std.specs.Prelude.{Some};
    ghost use Rattle.flow_certificate.specs.VerdictTexts.{form_fault_text};

    ghost output = { λ fault. Some (form_fault_text fault) };

    fn fmt<W: fmt::Write>(&self, f: &mut fmt::Formatter<W>) -> fmt::Result {
        match *self {
            FormFault::Line { line } => write!(f, "line {line}"),
            FormFault::Memory => f.write_str("out of memory"),
        }
    }
}
