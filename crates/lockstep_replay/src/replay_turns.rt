ghost use Rattle.std.specs.Prelude.{◌≡◌, ℕ, ◌+◌, ◌≤◌, ◌<◌, ◌^◌, ◌++◌, List, length, take, None, IsTrue};
ghost use Rattle.crossing_bits.specs.Strings.{left_of};
ghost use Rattle.replay_machine.specs.declared.turns.ReplayTurn.TheVariants.{Ran as ReplayRan};
ghost use Rattle.replay_machine.specs.Standing.{Stands};
ghost use Rattle.replay_machine.specs.Runs.{Masks, ReplayPlace as APlace};
ghost use Rattle.lockstep_replay.specs.Differences.{byte_difference, status_difference as difference_of_ends};
ghost use Rattle.rv32im_machine.specs.declared.stepping.Stepped.TheVariants.{Ran};
ghost use Rattle.lockstep_replay.specs.Private.Standings.{why_answered, why_beside};
ghost use Rattle.lockstep_replay.specs.Private.Turning.{fed_turn, why_compared, Joins, InStep};
ghost use Rattle.lockstep_replay.specs.Verdicts.{why_output, why_replay};
ghost use Rattle.std.specs.Option.{option_or};

use crate::differences::{Difference, output_difference, status_difference};
use crate::marks::{is_same, mark_at};
use crate::verdicts::{ReplayStop, Why};
use crossing_bits::Bits;
use replay_machine::{Replay, ReplayTurn};
use rv32im_machine::{Machine, Stepped};

fn first_difference(first: Option<Difference>, second: Option<Difference>) -> Option<Difference>
    ensures { result ≡ option_or first second }
{
    first.or(second)
}

fn output_reason(difference: Option<Difference>) -> Option<Why>
    ensures { result ≡ why_output difference }
{
    match difference {
        None => None,
        Some(difference) => Some(Why::OutputDiffers {
            index: difference.index,
            real: difference.real,
            replay: difference.replay,
        }),
    }
}

/// How the output and the end of a replay differ from those of the real run.
fn compared_output(real: &Machine, output: &[u8], mode: Stepped) -> Option<Why>
    ensures { result ≡ why_output (option_or (byte_difference 0 real.now.control.output output.now)
        (difference_of_ends (length real.now.control.output) real.now.control.mode mode)) }
{
    let index = real.written();
    let bytes = output_difference(real.output(), output, 0);
    let ends = status_difference(index, real.mode(), mode);
    output_reason(first_difference(bytes, ends))
}

/// Where the marks differ, or else the outputs, of a real run and a replay that ends its turn in this mode.
fn compared(real: &Machine, needed: u32, replay: &Replay<'_>, mode: Stepped) -> Option<Why>
    ensures { result ≡ why_compared real.now needed replay.now mode }
{
    let mark = mark_at(real, needed);
    let other = replay.mark();
    if is_same(mark, other) {
        compared_output(real, replay.output(), mode)
    } else {
        Some(Why::Parted {
            real: mark,
            replay: other,
        })
    }
}

/// What fails of a replay that has made its turn beside a real run of which so many bits have crossed.
#[cold]
#[inline(never)]
pub(crate) fn replay_reason(real: &Machine, needed: u32, replay: &Replay<'_>) -> Option<Why>
    ensures { result ≡ why_beside real.now needed replay.now }
{
    match replay.answer() {
        ReplayTurn::Ran => compared(real, needed, replay, Stepped::Ran),
        ReplayTurn::Exited(status) => compared(real, needed, replay, Stepped::Exited(status)),
        ReplayTurn::Wants(missing) => Some(Why::ReplayFault(ReplayStop::Short {
            missing: u32::from(missing),
        })),
        ReplayTurn::Stopped(fault) => Some(Why::ReplayFault(ReplayStop::Guest(fault))),
        ReplayTurn::RangeOutside { region, range } => {
            Some(Why::ReplayFault(ReplayStop::RangeOutside { region, range }))
        }
    }
}

/// Whether two outputs are equal as far as both go, where their first `from` bytes are equal.
#[inline(always)]
fn is_same_output(real: &[u8], replay: &[u8], from: usize) -> bool
    requires real { from ≤ length real.now }
    requires replay { from ≤ length replay.now }
    requires same { take from real.now ≡ take from replay.now }
    requires few { length real.now < 2 ^ 32 }
    ensures { IsTrue result → byte_difference 0 real.now replay.now ≡ None }
{
    match output_difference(real, replay, from) {
        None => true,
        Some(_) => false,
    }
}

/// Whether the marks and the outputs, whose first `from` bytes are equal, of two runs that have not exited are equal.
#[inline(always)]
fn is_in_step(real: &Machine, needed: u32, replay: &Replay<'_>, from: usize) -> bool
    requires real { from ≤ length real.now.control.output }
    requires replay { from ≤ length replay.now.state.control.output }
    requires same { take from real.now.control.output ≡ take from replay.now.state.control.output }
    ensures { IsTrue result → why_compared real.now needed replay.now Ran ≡ None }
{
    is_same(mark_at(real, needed), replay.mark())
        && is_same_output(real.output(), replay.output(), from)
}

/// Whether a quick look tells that nothing fails of a replay that has answered this, where the first `from` bytes of the
/// outputs are equal if it runs on.
#[inline(always)]
fn is_fine(
    real: &Machine,
    needed: u32,
    replay: &Replay<'_>,
    answer: ReplayTurn,
    from: usize,
) -> bool
    requires real { from ≤ length real.now.control.output }
    requires replay { answer ≡ ReplayRan → from ≤ length replay.now.state.control.output }
    requires same { answer ≡ ReplayRan →
        take from real.now.control.output ≡ take from replay.now.state.control.output }
    ensures { IsTrue result → why_answered real.now needed replay.now answer ≡ None }
{
    match answer {
        ReplayTurn::Ran => is_in_step(real, needed, replay, from),
        ReplayTurn::Exited(_) => false,
        ReplayTurn::Wants(_) => false,
        ReplayTurn::Stopped(_) => false,
        ReplayTurn::RangeOutside { .. } => false,
    }
}

/// One turn of the replay on the bits that are left, beside a real run that has come through its turn; whether a quick
/// look tells that nothing fails, and else [`replay_reason`] says what does. Before the turn the real run's output
/// begins with the replay's, and `needed` is the number of bits that the replay has used with those that are left.
#[inline(always)]
pub(crate) fn keeps_up(
    real: &Machine,
    replay: &mut Replay<'_>,
    bits: &mut Bits,
    needed: u32,
) -> bool
    requires begins { (more : List ℕ) × (real.now.control.output ≡ replay.old.state.control.output ++ more) }
    requires wanted { replay.old.missing ≡ 0 }
    requires used { replay.old.taken + length (left_of bits.old) ≡ needed }
    ensures why { (masks : Masks) (place : APlace) → Stands replay.old masks place →
        why_beside real.now needed replay.new
        ≡ why_replay real.now needed (fed_turn replay.old.enclosures masks place (left_of bits.old)) }
    ensures joins { (masks : Masks) (place : APlace) → Stands replay.old masks place →
        why_beside real.now needed replay.new ≡ None →
        Joins replay.new masks (fed_turn replay.old.enclosures masks place (left_of bits.old)) }
    ensures enclosures { replay.new.enclosures ≡ replay.old.enclosures }
    ensures bits { bits.new.bits ≡ bits.old.bits }
    ensures room { bits.new.room ≡ bits.old.room }
    ensures agrees { why_beside real.now needed replay.new ≡ None → InStep real.now replay.new bits.new needed }
    ensures fine { IsTrue result → why_beside real.now needed replay.new ≡ None }
{
    let from = replay.output().len();
    let turned = replay.turn(bits);
    prove!(bits.left() <= bits.count());
    is_fine(real, needed, replay, turned, from)
}
