use flow_base::{HexWord, Point};
use std::fmt;
use thiserror::Error;

/// Why it is not known which outputs arise: on the first path, in their order, that is unclear, the first of these that
/// comes, by turn and within a turn as it is walked. The limit of outputs comes after whatever else a path shows.
#[derive(Clone, Copy, Debug, Error)]
pub enum UnclearWhy {
    /// A bit that may depend on the secret and has not crossed is in one of the four bytes that are fetched from this
    /// address.
    SecretCode { pc: u32 },
    /// Such a bit is in the base register of a range, at the entry or the skip of this region: the register of the first
    /// such range.
    BaseSecret { region: u16, register: u8 },
    /// The turn decides at this point by such bits: the mask that is left.
    Left { point: Point, mask: u32 },
    /// The bits that cross on this path exceed the budget; `needed` is their number up to and with the turn, or
    /// 4,294,967,295 where there are more.
    Budget { budget: u32, needed: u32 },
    /// The different patterns have more than so many bytes together, each having its bytes and one more.
    Outputs { limit: u32 },
}

impl fmt::Display for UnclearWhy {
    ghost use Rattle.std.specs.Prelude.{Some};
    ghost use Rattle.every_secret.specs.BoundTexts.{unclear_text};

    ghost output = { λ why. Some (unclear_text why) };

    fn fmt<W: fmt::Write>(&self, f: &mut fmt::Formatter<W>) -> fmt::Result {
        match *self {
            UnclearWhy::SecretCode { pc } => write!(f, "secret-code {}", HexWord(pc)),
            UnclearWhy::BaseSecret { region, register } => {
                write!(f, "region {region} base x{register} secret")
            }
            UnclearWhy::Left { point, mask } => write!(f, "left {point} mask {}", HexWord(mask)),
            UnclearWhy::Budget { budget, needed } => write!(f, "budget {budget} needed {needed}"),
            UnclearWhy::Outputs { limit } => write!(f, "outputs {limit}"),
        }
    }
}
