use flow_base::{HexWord, NoMemory};
use rv32im_machine::Fault;
use std::fmt;
use thiserror::Error;

/// Why no declaration is learnt of a run. The first three are decided by the first turn in which one of them comes: a call
/// inside a region before any other stop of the guest. `Ranges` and `Bytes` come only of a run that exits, for the first
/// region in the list, and `Ranges` first; `TextSize` comes last.
#[derive(Clone, Copy, Debug, Error)]
pub enum LearnFault {
    /// The guest is stopped.
    Guest(Fault),
    /// The instruction at the address `pc` inside the region is a call.
    Call { region: u16, pc: u32 },
    /// So many turns were made without an exit.
    TurnLimit { limit: u32 },
    /// The region would have more than 64 ranges.
    Ranges { region: u16, count: u32 },
    /// The ranges of the region would have more than 65,536 bytes.
    Bytes { region: u16, count: u32 },
    /// The text of the region file would have more than 65,536 bytes.
    TextSize { size: u32 },
    /// There is not enough memory.
    Memory,
}

impl fmt::Display for LearnFault {
    ghost use Rattle.std.specs.Prelude.{Some};
    ghost use Rattle.region_learn.specs.Faults.{learn_fault_text};

    ghost output = { λ fault. Some (learn_fault_text fault) };

    fn fmt<W: fmt::Write>(&self, f: &mut fmt::Formatter<W>) -> fmt::Result {
        match *self {
            LearnFault::Guest(fault) => write!(f, "{fault}"),
            LearnFault::Call { region, pc } => {
                write!(f, "region {region} call at {}", HexWord(pc))
            }
            LearnFault::TurnLimit { limit } => write!(f, "turns {limit}"),
            LearnFault::Ranges { region, count } => write!(f, "region {region} ranges {count}"),
            LearnFault::Bytes { region, count } => write!(f, "region {region} bytes {count}"),
            LearnFault::TextSize { size } => write!(f, "text-size {size}"),
            LearnFault::Memory => write!(f, "memory"),
        }
    }
}

impl From<NoMemory> for LearnFault {
    ghost use Rattle.std.specs.Prelude.{◌≡◌};
    ghost use Rattle.region_learn.specs.declared.faults.LearnFault.TheVariants.{Memory};
    ghost use Rattle.flow_base.specs.declared.lists.NoMemory.{NoMemory as TheNoMemory};

    ghost from_gives = { λ _ fault. fault ≡ Memory };

    fn from(_: NoMemory) -> LearnFault {
        LearnFault::Memory
    }
}
