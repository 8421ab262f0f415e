use crossing_bits::Bits;
use enclosure_regions::Break;
use flow_base::Output;
use replay_machine::Mark;
use rv32im_machine::Fault;
use std::fmt;
use thiserror::Error;

/// Why a replay stops.
#[derive(Clone, Copy, Debug)]
pub enum ReplayStop {
    /// The replayed guest is stopped.
    Guest(Fault),
    /// At an entry or a skip of the region with this number a range is not inside guest memory: the first such, counted
    /// from 0.
    RangeOutside { region: u16, range: u32 },
    /// A mask needs so many bits more than are left.
    Short { missing: u32 },
}

/// Why a secret is rejected: the first condition that fails, by turn, and within a turn in this order, but that the
/// break of a region comes before a stop. The limit of turns comes after the last turn that may be made, and the length
/// of the secret is tested before the first turn.
#[derive(Clone, Copy, Debug, Error)]
pub enum Why {
    /// The real run is stopped in this turn, and breaks no region in it.
    RealFault(Fault),
    /// The real run breaks a region in this turn.
    RegionBreak(Break),
    /// The crossing bits up to and with this turn exceed the budget; `needed` is their number, or 4,294,967,295 where
    /// there are more.
    BudgetOverrun { budget: u32, needed: u32 },
    /// The replay stops in this turn.
    ReplayFault(ReplayStop),
    /// The marks of the two runs differ after this turn.
    Parted { real: Mark, replay: Mark },
    /// After this turn the outputs differ, at this index first, where they have these bytes. Where only the exit
    /// statuses differ, the index is the length of the output, and the two are the statuses.
    OutputDiffers { index: u32, real: u8, replay: u8 },
    /// So many turns of the real run were made without exit.
    TurnLimit { limit: u32 },
    /// The secret does not have the cut's length, in bytes.
    SecretLength { cut: u32, got: u32 },
}

/// The verdict on one secret.
#[derive(Drop)]
pub enum Verdict {
    /// The secret is accepted, with its crossing bits and the output of its run.
    Accepted { bits: Bits, output: Output },
    /// The secret is rejected, for this reason.
    Rejected(Why),
}

impl fmt::Display for ReplayStop {
    ghost use Rattle.std.specs.Prelude.{Some};
    ghost use Rattle.lockstep_replay.specs.VerdictTexts.{replay_stop_text};

    ghost output = { λ stop. Some (replay_stop_text stop) };

    fn fmt<W: fmt::Write>(&self, f: &mut fmt::Formatter<W>) -> fmt::Result {
        match *self {
            ReplayStop::Guest(fault) => write!(f, "guest {fault}"),
            ReplayStop::RangeOutside { region, range } => {
                write!(f, "{}", Break::RangeOutside { region, range })
            }
            ReplayStop::Short { missing } => write!(f, "short {missing}"),
        }
    }
}

impl fmt::Display for Why {
    ghost use Rattle.std.specs.Prelude.{Some};
    ghost use Rattle.lockstep_replay.specs.VerdictTexts.{why_text};

    ghost output = { λ why. Some (why_text why) };

    fn fmt<W: fmt::Write>(&self, f: &mut fmt::Formatter<W>) -> fmt::Result {
        match *self {
            Why::RealFault(fault) => write!(f, "guest {fault}"),
            Why::RegionBreak(broken) => write!(f, "{broken}"),
            Why::BudgetOverrun { budget, needed } => write!(f, "budget {budget} needed {needed}"),
            Why::ReplayFault(stop) => write!(f, "replay {stop}"),
            Why::Parted { real, replay } => write!(f, "parted real {real} replay {replay}"),
            Why::OutputDiffers {
                index,
                real,
                replay,
            } => write!(f, "output index {index} real {real} replay {replay}"),
            Why::TurnLimit { limit } => write!(f, "turns {limit}"),
            Why::SecretLength { cut, got } => write!(f, "secret-length cut {cut} got {got}"),
        }
    }
}
