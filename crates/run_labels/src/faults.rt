use enclosure_regions::Break;
use flow_base::HexWord;
use rv32im_machine::Fault;
use std::fmt;
use thiserror::Error;

/// Why a run is not measured, by the first turn that is refused. Within one instruction a fetch outside of guest memory
/// comes before secret code, that before the break of a region, and that before every other stop of the guest; at an
/// entry a secret base register comes before a range outside of guest memory. `TurnLimit` comes only where no turn
/// within the limit is refused or exits, and `GraphLimit` only where none is refused and one exits.
#[derive(Clone, Copy, Debug, Error)]
pub enum MeasureFault {
    /// The guest is stopped.
    Guest(Fault),
    /// The run breaks a region.
    Region(Break),
    /// So many turns were made without an exit.
    TurnLimit { limit: u32 },
    /// A bit of the four bytes that are fetched from this address may depend on the secret.
    SecretCode { pc: u32 },
    /// At the entry of a region a bit of the base register of one of its ranges may depend on the secret; the register
    /// of the first such range.
    BaseSecret { region: u16, register: u8 },
    /// The graph of the run has more than 65,536 points, more than 1,048,576 links or a capacity of 2^48 bits or more.
    GraphLimit,
    /// There is not enough memory.
    Memory,
}

impl fmt::Display for MeasureFault {
    ghost use Rattle.std.specs.Prelude.{Some};
    ghost use Rattle.run_labels.specs.Faults.{run_fault_text};

    ghost output = { λ fault. Some (run_fault_text fault) };

    fn fmt<W: fmt::Write>(&self, f: &mut fmt::Formatter<W>) -> fmt::Result {
        match *self {
            MeasureFault::Guest(fault) => write!(f, "{fault}"),
            MeasureFault::Region(broken) => write!(f, "{broken}"),
            MeasureFault::TurnLimit { limit } => write!(f, "turns {limit}"),
            MeasureFault::SecretCode { pc } => write!(f, "secret-code {}", HexWord(pc)),
            MeasureFault::BaseSecret { region, register } => {
                write!(f, "region {region} base x{register} secret")
            }
            MeasureFault::GraphLimit => write!(f, "graph-limit"),
            MeasureFault::Memory => write!(f, "memory"),
        }
    }
}
