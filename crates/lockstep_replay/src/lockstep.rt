ghost use Rattle.std.specs.Prelude.{◌≡◌, ℕ, ◌<◌, ◌^◌, List, [], length, false, IfOk, IsTrue};
ghost use Rattle.rv32im_machine.specs.declared.stepping.Stepped.TheVariants.{Exited};
ghost use Rattle.lockstep_replay.specs.Judgements.{judgement_of};
ghost use Rattle.lockstep_replay.specs.Beginnings.{Begins};
ghost use Rattle.lockstep_replay.specs.Tasks.{Task, Limits};
ghost use Rattle.lockstep_replay.specs.Private.Turning.{Ends, Keeps};
ghost use Rattle.lockstep_replay.specs.Verdicts.{Accepts, First, judged_from};
ghost use Rattle.region_machine.specs.Within.{may_leave};

use crate::lent_tasks::LentTask;
use crate::memories::Memories;
use crate::rounds::{Round, make_round};
use crate::tallies::Tallying;
use crate::two_runs::{TwoRuns, memories_of};
use crate::verdicts::{Verdict, Why};
use flow_base::{Bytes, NoMemory, Output};
use region_machine::OUTPUT_LIMIT;
use replay_machine::Replay;
use rv32im_machine::{Machine, Stepped};
use std::alloc::Global;

/// A check of one secret before its first turn: the real run on the secret beside the replay, with all the memory that
/// the check takes.
#[derive(Drop)]
pub struct Lockstep<'c> {
    pub(crate) runs: TwoRuns<'c>,
    /// The length of the secrets that the cut is for, in bytes.
    pub(crate) wanted: u32,
    /// The length of the secret, in bytes.
    pub(crate) got: u32,
    pub(crate) turns: u32,
    ghost got_is: { got ≡ runs.real.setting.secret_length },
    ghost empty: { runs.tally.bits.bits ≡ [] },
    ghost untaken: { runs.tally.bits.taken ≡ 0 },
    ghost uncounted: { runs.tally.needed ≡ 0 },
    ghost lacks_none: { runs.replay.missing ≡ 0 },
    ghost unused: { runs.replay.taken ≡ 0 },
    ghost leaves: { IsTrue (may_leave runs.replay.enclosures.regions runs.real) },
    ghost alike: { runs.real.control.output ≡ runs.replay.state.control.output },
}

impl<'c> Lockstep<'c> {
    ghost use Rattle.lockstep_replay.specs.Checks.{IsLockstepOf};
    ghost use Rattle.lockstep_replay.specs.LentTasks.{limits_in, task_in};

    /// A check of one secret of fewer than 2^32 bytes against the cut of a task, within its limits.
    /// `NoMemory` where there is not enough; [`Lockstep::run`] takes none.
    pub fn new(alloc: Global, task: &LentTask<'c>, secret: &Bytes) -> Result<Lockstep<'c>, NoMemory>
        requires { length secret.now < 2 ^ 32 }
        ensures { IfOk result (λ lockstep. IsLockstepOf lockstep (task_in task.now) (limits_in task.now) secret.now) }
    {
        let memories = Memories::new(alloc)?;
        Lockstep::new_in(memories, alloc, task, secret)
    }

    /// The same check in the guest memories that [`Lockstep::run_keeping`] has handed out: nothing of the check before
    /// is left in them, so the verdict is that of a fresh start. It takes the time of what that check has written in
    /// place of 32 MiB. `NoMemory` where there is not enough; the guest memories are then freed.
    pub fn new_in(
        memories: Memories,
        alloc: Global,
        task: &LentTask<'c>,
        secret: &Bytes,
    ) -> Result<Lockstep<'c>, NoMemory>
        requires { length secret.now < 2 ^ 32 }
        ensures { IfOk result (λ lockstep. IsLockstepOf lockstep (task_in task.now) (limits_in task.now) secret.now) }
    {
        let (image, public, regions) = (task.image, task.public, task.regions);
        let (cut, table) = (task.cut, task.table);
        let real = Machine::new_in(memories.real, alloc, image, public, secret, OUTPUT_LIMIT)?;
        let tally = Tallying::new(alloc, table, task.budget)?;
        let replay = Replay::new_in(memories.replay, alloc, image, public, regions, cut, table)?;
        let got = secret.len() as u32;
        Ok(Lockstep {
            runs: TwoRuns {
                real,
                tally,
                replay,
            },
            wanted: cut.secret_len,
            got,
            turns: task.turns,
        })
    }

    /// The verdict on the secret: accepted, or the first condition that fails. It takes no memory.
    pub fn run(self) -> Verdict
        ensures { (task : Task) (limits : Limits) (secret : List ℕ) → IsLockstepOf self.entry task limits secret →
            judgement_of result ≡ First task limits secret }
    {
        let (verdict, _memories) = self.run_keeping();
        verdict
    }

    /// The verdict on the secret, with the guest memories for the next check. It takes no memory.
    pub fn run_keeping(self) -> (Verdict, Memories)
        ensures { (task : Task) (limits : Limits) (secret : List ℕ) → IsLockstepOf self.entry task limits secret →
            judgement_of result.0 ≡ First task limits secret }
    {
        let Lockstep {
            runs,
            wanted,
            got,
            turns,
        } = self;
        if got == wanted {
            run_turns(runs, turns)
        } else {
            let TwoRuns { real, replay, .. } = runs;
            let why = Why::SecretLength { cut: wanted, got };
            (Verdict::Rejected(why), memories_of(real, replay))
        }
    }
}

/// The verdict of a real run that has exited with this status, with the guest memories.
fn accepted(
    real: Machine,
    tally: Tallying<'_>,
    replay: Replay<'_>,
    status: u8,
) -> (Verdict, Memories)
    ensures { judgement_of result.0 ≡ Accepts tally.entry.bits.bits
        (record { bytes = real.control.output; status = status }) }
{
    let Tallying { bits, .. } = tally;
    let (bytes, real) = real.into_parts();
    let output = Output { bytes, status };
    let memories = Memories {
        real,
        replay: replay.into_memory(),
    };
    (Verdict::Accepted { bits, output }, memories)
}

/// The status with which a run has exited in a turn that is not enclosed, if it has.
fn exit_status(enclosed: bool, mode: Stepped) -> Option<u8>
    ensures { Ends result enclosed mode }
{
    if enclosed {
        return None;
    }
    match mode {
        Stepped::Ran => None,
        Stepped::Exited(status) => Some(status),
        Stepped::Stopped(_) => None,
    }
}

/// The verdict of so many turns of the real run, with the guest memories.
fn run_turns(runs: TwoRuns<'_>, turns: u32) -> (Verdict, Memories)
    requires empty { runs.tally.bits.bits ≡ [] }
    requires keeps { Keeps runs.real runs.replay runs.tally.bits runs.tally.needed runs.tally.budget }
    ensures { (task : Task) (limits : Limits) (secret : List ℕ) → Begins runs.entry task limits secret →
        turns ≡ limits.turns → judgement_of result.0 ≡ judged_from task limits secret turns 0 }
{
    let TwoRuns {
        real,
        tally,
        replay,
    } = runs;
    let mut real = real;
    let mut tally = tally;
    let mut replay = replay;
    let mut made = Round {
        enclosed: false,
        why: None,
    };
    for _ in 0..turns {
        make_round(&mut real, &mut tally, &mut replay, &mut made);
        if let Some(why) = made.why {
            return (Verdict::Rejected(why), memories_of(real, replay));
        }
        if let Some(status) = exit_status(made.enclosed, real.mode()) {
            return accepted(real, tally, replay, status);
        }
    }
    let why = Why::TurnLimit { limit: turns };
    (Verdict::Rejected(why), memories_of(real, replay))
}
