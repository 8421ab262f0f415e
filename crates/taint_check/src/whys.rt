use enclosure_regions::Break;
use flow_base::{HexWord, Point};
use rv32im_machine::Fault;
use std::fmt;
use thiserror::Error;

/// Why a check with one machine is unclear: the first reason, by turn. Within one instruction a fetch outside of guest
/// memory comes before secret code, that before the break of a region and every other stop of the guest, that before the
/// budget, and that before what is left; at an entry a secret base register comes before a range outside of guest memory.
/// The limit of turns comes after the last turn that may be made, and the length of the secret is tested before the first.
#[derive(Clone, Copy, Debug, Error)]
pub enum TaintWhy {
    /// The guest is stopped.
    RealFault(Fault),
    /// The run breaks a region.
    RegionBreak(Break),
    /// The crossing bits up to and with this turn exceed the budget; `needed` is their number, or 4,294,967,295 where
    /// there are more.
    BudgetOverrun { budget: u32, needed: u32 },
    /// The turn decides at this point by bits that may depend on the secret and have not crossed: the mask that is left.
    Left { point: Point, mask: u32 },
    /// Such a bit is in one of the four bytes that are fetched from this address.
    SecretCode { pc: u32 },
    /// Such a bit is in the base register of a range, at the entry of this region: the register of the first such range.
    BaseSecret { region: u16, register: u8 },
    /// So many turns were made without exit.
    TurnLimit { limit: u32 },
    /// The secret does not have the cut's length, in bytes.
    SecretLength { cut: u32, got: u32 },
}

impl fmt::Display for TaintWhy {
    ghost use Rattle.std.specs.Prelude.{Some};
    ghost use Rattle.taint_check.specs.Whys.{taint_text};

    ghost output = { λ why. Some (taint_text why) };

    fn fmt<W: fmt::Write>(&self, f: &mut fmt::Formatter<W>) -> fmt::Result {
        match *self {
            TaintWhy::RealFault(fault) => write!(f, "guest {fault}"),
            TaintWhy::RegionBreak(broken) => write!(f, "{broken}"),
            TaintWhy::BudgetOverrun { budget, needed } => {
                write!(f, "budget {budget} needed {needed}")
            }
            TaintWhy::Left { point, mask } => write!(f, "left {point} mask {}", HexWord(mask)),
            TaintWhy::SecretCode { pc } => write!(f, "secret-code {}", HexWord(pc)),
            TaintWhy::BaseSecret { region, register } => {
                write!(f, "region {region} base x{register} secret")
            }
            TaintWhy::TurnLimit { limit } => write!(f, "turns {limit}"),
            TaintWhy::SecretLength { cut, got } => write!(f, "secret-length cut {cut} got {got}"),
        }
    }
}
