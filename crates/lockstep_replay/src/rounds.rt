ghost use Rattle.std.specs.Prelude.{◌≡◌, ℕ, List as Seq, None, IsTrue, nat_lt, false};
ghost use Rattle.region_machine.specs.Enclosures.{Steps, kind_of};
ghost use Rattle.region_machine.specs.Within.{may_leave};
ghost use Rattle.lockstep_replay.specs.Private.Standings.{why_standing};
ghost use Rattle.lockstep_replay.specs.Private.Turning.{Keeps, MakesReal, Rounds};
ghost use Rattle.lockstep_replay.specs.Verdicts.{why_broken, why_budget, why_mode};

use crate::replay_turns::{keeps_up, replay_reason};
use crate::tallies::Tallying;
use crate::verdicts::Why;
use enclosure_regions::Break;
use region_machine::{MarkedRegions, RealTurn, real_turn_by};
use replay_machine::Replay;
use rv32im_machine::{Machine, Stepped, turn_by};

/// What a turn of the real run leaves beside its tally, with the replay's turn beside it.
#[derive(Clone, Copy)]
pub(crate) struct Round {
    /// The turn is the entry of a skipped region or inside it: the replay makes none.
    pub enclosed: bool,
    /// What fails, if something does.
    pub why: Option<Why>,
}

/// Whether so many bits exceed the budget.
#[inline(always)]
fn budget_reason(budget: u32, needed: u32) -> Option<Why>
    ensures { result ≡ why_budget (nat_lt budget needed) budget needed None }
{
    if budget < needed {
        Some(Why::BudgetOverrun { budget, needed })
    } else {
        None
    }
}

/// Whether the real run is stopped, or else has more bits than the budget.
#[inline(always)]
fn mode_reason(mode: Stepped, budget: u32, needed: u32) -> Option<Why>
    ensures { result ≡ why_mode mode budget needed None }
{
    match mode {
        Stepped::Ran => budget_reason(budget, needed),
        Stepped::Exited(_) => budget_reason(budget, needed),
        Stepped::Stopped(fault) => Some(Why::RealFault(fault)),
    }
}

/// What fails of the real run alone: it breaks a region, or is stopped, or has more bits than the budget.
#[inline(always)]
fn real_reason(broken: Option<Break>, mode: Stepped, budget: u32, needed: u32) -> Option<Why>
    ensures { result ≡ why_broken broken (why_mode mode budget needed None) }
{
    match broken {
        Some(broken) => Some(Why::RegionBreak(broken)),
        None => mode_reason(mode, budget, needed),
    }
}

/// One turn of the real run with these regions, of which those with these numbers are skipped; its bits are tallied.
fn real_turn(
    real: &mut Machine,
    tally: &mut Tallying<'_>,
    marked: &MarkedRegions,
    skip: &[u16],
) -> RealTurn
    requires { IsTrue (may_leave marked.now.regions.items real.old) }
    ensures { MakesReal (record { regions = marked.now.regions.items; skip = skip.now })
        (kind_of marked.now.regions.items real.old.control) real.old tally.old real.new tally.new result }
{
    match real_turn_by(real, tally, marked, skip) {
        Ok(turn) => turn,
        Err(never) => match never {},
    }
}

/// One turn of the real run, and unless it is the entry of a skipped region or inside it one turn of the replay, which
/// is lent the bits that crossed since its last turn.
fn make_region_round(real: &mut Machine, tally: &mut Tallying<'_>, replay: &mut Replay<'_>) -> Round
    requires { Keeps real.old replay.old tally.old.bits tally.old.needed tally.old.budget }
    ensures { Rounds replay.old.enclosures real.old tally.old replay.old real.new tally.new replay.new result }
{
    let turn = real_turn(real, tally, replay.marked(), replay.skip());
    let RealTurn { enclosed, broken } = turn;
    if let Some(why) = real_reason(broken, real.mode(), tally.budget, tally.needed) {
        return Round {
            enclosed,
            why: Some(why),
        };
    }
    if enclosed {
        return Round {
            enclosed,
            why: None,
        };
    }
    let needed = tally.needed;
    if keeps_up(real, replay, &mut tally.bits, needed) {
        return Round {
            enclosed,
            why: None,
        };
    }
    let why = replay_reason(real, needed, replay);
    Round { enclosed, why }
}

/// The same, put into a round.
#[inline(never)]
fn put_region_round(
    real: &mut Machine,
    tally: &mut Tallying<'_>,
    replay: &mut Replay<'_>,
    round: &mut Round,
)
    requires { Keeps real.old replay.old tally.old.bits tally.old.needed tally.old.budget }
    ensures { Rounds replay.old.enclosures real.old tally.old replay.old real.new tally.new replay.new round.new }
{
    let made = make_region_round(real, tally, replay);
    round.enclosed = made.enclosed;
    round.why = made.why;
}

/// One step of the real run outside of these regions; its bits are tallied.
#[inline(always)]
fn real_step(real: &mut Machine, tally: &mut Tallying<'_>, _marked: &MarkedRegions)
    requires { kind_of _marked.now.regions.items real.old.control ≡ Steps None }
    ensures { (skip : Seq ℕ) → MakesReal (record { regions = _marked.now.regions.items; skip = skip })
        (kind_of _marked.now.regions.items real.old.control) real.old tally.old real.new tally.new
        (record { enclosed = false; broken = None }) }
{
    match turn_by(real, tally) {
        Ok(()) => {}
        Err(never) => match never {},
    }
}

/// One step of each run outside of regions, the replay being lent the bits that crossed since its last turn; whether a
/// quick look tells that nothing fails, and else [`put_reason`] says what does.
#[inline(always)]
fn make_step(real: &mut Machine, tally: &mut Tallying<'_>, replay: &mut Replay<'_>) -> bool
    requires keeps { Keeps real.old replay.old tally.old.bits tally.old.needed tally.old.budget }
    requires outside { kind_of replay.old.enclosures.regions real.old.control ≡ Steps None }
    ensures rounds { Rounds replay.old.enclosures real.old tally.old replay.old real.new tally.new replay.new
        (record { enclosed = false; why = why_standing real.new tally.new replay.new }) }
    ensures fine { IsTrue result → why_standing real.new tally.new replay.new ≡ None }
{
    real_step(real, tally, replay.marked());
    if let Some(_) = mode_reason(real.mode(), tally.budget, tally.needed) {
        return false;
    }
    let needed = tally.needed;
    keeps_up(real, replay, &mut tally.bits, needed)
}

/// What fails after a step of each run outside of regions is put into a round.
#[cold]
#[inline(never)]
fn put_reason(real: &Machine, tally: &Tallying<'_>, replay: &Replay<'_>, round: &mut Round)
    ensures { round.new ≡ record { enclosed = round.old.enclosed; why = why_standing real.now tally.now replay.now } }
{
    round.why = match mode_reason(real.mode(), tally.budget, tally.needed) {
        Some(why) => Some(why),
        None => replay_reason(real, tally.needed, replay),
    };
}

/// One turn of the real run, and unless it is the entry of a skipped region or inside it one turn of the replay, which
/// is lent the bits that crossed since its last turn. What it leaves is put into a round that has not failed.
#[inline(always)]
pub(crate) fn make_round(
    real: &mut Machine,
    tally: &mut Tallying<'_>,
    replay: &mut Replay<'_>,
    round: &mut Round,
)
    requires keeps { Keeps real.old replay.old tally.old.bits tally.old.needed tally.old.budget }
    requires fine { round.old.why ≡ None }
    ensures { Rounds replay.old.enclosures real.old tally.old replay.old real.new tally.new replay.new round.new }
{
    if replay.is_outside(real) {
        round.enclosed = false;
        if !make_step(real, tally, replay) {
            put_reason(real, tally, replay, round);
        }
    } else {
        put_region_round(real, tally, replay, round);
    }
}
