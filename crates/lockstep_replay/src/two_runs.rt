ghost use Rattle.std.specs.Prelude.{◌≡◌};

use crate::memories::Memories;
use crate::tallies::Tallying;
use replay_machine::Replay;
use rv32im_machine::Machine;

/// The two runs of a lockstep: the real run with what has crossed in it so far, and the replay.
#[derive(Drop)]
pub(crate) struct TwoRuns<'c> {
    pub real: Machine,
    pub tally: Tallying<'c>,
    pub replay: Replay<'c>,
}

/// The guest memories of two runs that have come to their end. It takes no memory.
pub(crate) fn memories_of(real: Machine, replay: Replay<'_>) -> Memories
    ensures real { result.real ≡ real.store.memory }
    ensures replay { result.replay ≡ replay.entry.state.store.memory }
{
    let (_output, real) = real.into_parts();
    Memories {
        real,
        replay: replay.into_memory(),
    }
}
