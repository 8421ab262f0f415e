ghost use Rattle.std.specs.Prelude.{◌≡◌};
ghost use Rattle.tracked_run.specs.Outcomes.{answer_of, spent_by};

use flow_base::NoMemory;
use run_labels::MeasureFault;

/// What a turn of a measured run answers.
#[derive(Clone, Copy)]
pub enum TrackedTurn {
    /// The turn is made, and the run goes on.
    Ran,
    /// The guest has exited with this status.
    Exited(u8),
    /// The run is not measured, for this reason.
    Refused(MeasureFault),
}

/// Why a measured run makes no more turns.
#[derive(Clone, Copy)]
pub enum Spent {
    /// The guest has exited with this status.
    Exited(u8),
    /// The run is not measured, for this reason.
    Refused(MeasureFault),
    /// There was not enough memory.
    Memory,
}

impl Spent {
    /// What each further turn answers.
    pub(crate) fn answer(self) -> Result<TrackedTurn, NoMemory>
        ensures { result ≡ answer_of self }
    {
        match self {
            Spent::Exited(status) => Ok(TrackedTurn::Exited(status)),
            Spent::Refused(fault) => Ok(TrackedTurn::Refused(fault)),
            Spent::Memory => Err(NoMemory),
        }
    }
}

/// Whether a run makes no more turns after an answer, and why.
pub(crate) fn spent_after(answer: Result<TrackedTurn, NoMemory>) -> Option<Spent>
    ensures { result ≡ spent_by answer }
{
    match answer {
        Ok(TrackedTurn::Ran) => None,
        Ok(TrackedTurn::Exited(status)) => Some(Spent::Exited(status)),
        Ok(TrackedTurn::Refused(fault)) => Some(Spent::Refused(fault)),
        Err(_) => Some(Spent::Memory),
    }
}
