ghost use Rattle.std.specs.Prelude.{◌≡◌};
ghost use Rattle.region_machine.specs.Runs.{has_exited as is_over};
ghost use Rattle.lockstep_replay.specs.Marks.{mark_of, is_same_mark};

use replay_machine::Mark;
use rv32im_machine::{Machine, Stepped};

fn has_exited(mode: Stepped) -> bool
    ensures { result ≡ is_over mode }
{
    match mode {
        Stepped::Exited(_) => true,
        Stepped::Ran | Stepped::Stopped(_) => false,
    }
}

/// The mark of a run of which so many bits have crossed.
#[inline(always)]
pub(crate) fn mark_at(machine: &Machine, bits: u32) -> Mark
    ensures { result ≡ mark_of machine.now bits }
{
    Mark {
        address: machine.pc(),
        bits: u64::from(bits),
        output: machine.written(),
        exited: has_exited(machine.mode()),
    }
}

/// Whether two marks are equal.
#[inline(always)]
pub(crate) fn is_same(first: Mark, second: Mark) -> bool
    ensures { result ≡ is_same_mark first second }
{
    first.address == second.address
        && first.bits == second.bits
        && first.output == second.output
        && first.exited == second.exited
}
