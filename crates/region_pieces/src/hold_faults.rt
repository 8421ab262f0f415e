use enclosure_regions::Break;
use flow_base::{HexWord, Point};
use rv32im_machine::Fault;
use std::fmt;
use thiserror::Error;

/// Why a region was not shown to hold: the first of these at which the run of pieces ended.
#[derive(Clone, Copy, Debug, Error)]
pub enum HoldFault {
    /// The address of a load or a store has more than 12 bits that may differ, or a jump's target has one and is not by
    /// table: the point of the address and the mask.
    Left { point: Point, mask: u32 },
    /// A bit that may differ is in one of the four bytes that are fetched from this address.
    SecretCode { pc: u32 },
    /// Some state may be stopped.
    Guest(Fault),
    /// Some state may break the region.
    Broken(Break),
    /// Some state may make more turns than are left of so many.
    Turns { limit: u32 },
    /// The pieces made so many turns together.
    Steps { limit: u32 },
}

impl fmt::Display for HoldFault {
    ghost use Rattle.std.specs.Prelude.{Some};
    ghost use Rattle.region_pieces.specs.HoldFaults.{hold_fault_text};

    ghost output = { λ fault. Some (hold_fault_text fault) };

    fn fmt<W: fmt::Write>(&self, f: &mut fmt::Formatter<W>) -> fmt::Result {
        match *self {
            HoldFault::Left { point, mask } => {
                write!(f, "hold left {point} mask {}", HexWord(mask))
            }
            HoldFault::SecretCode { pc } => write!(f, "hold secret-code {}", HexWord(pc)),
            HoldFault::Guest(fault) => write!(f, "hold guest {fault}"),
            HoldFault::Broken(broken) => write!(f, "hold {broken}"),
            HoldFault::Turns { limit } => write!(f, "hold turns {limit}"),
            HoldFault::Steps { limit } => write!(f, "hold steps {limit}"),
        }
    }
}
