ghost use Rattle.std.specs.Prelude.{◌≡◌, ◌<◌, nat_lt};
ghost use Rattle.every_secret.specs.Private.Walks.{ending_after, ending_met, ending_mode, ending_within};

use crate::stops::PathStop;
use crate::whys::UnclearWhy;
use replay_machine::Outside;
use rv32im_machine::Stepped;

/// How a walk has ended.
#[derive(Clone, Copy)]
pub(crate) enum Ending {
    Exited(u8),
    Stopped(PathStop),
    Unclear(UnclearWhy),
}

/// Whether more bits have crossed than the budget, or else the later ending.
#[inline(always)]
fn within(budget: u32, crossed: u32, later: Option<Ending>) -> Option<Ending>
    ensures { result ≡ ending_within (nat_lt budget crossed) budget crossed later }
{
    if budget < crossed {
        Some(Ending::Unclear(UnclearWhy::Budget {
            budget,
            needed: crossed,
        }))
    } else {
        later
    }
}

/// Or before that a stop of the guest.
#[inline(always)]
fn by_mode(mode: Stepped, budget: u32, crossed: u32) -> Option<Ending>
    ensures { result ≡ ending_mode mode budget crossed }
{
    match mode {
        Stepped::Ran => within(budget, crossed, None),
        Stepped::Exited(status) => within(budget, crossed, Some(Ending::Exited(status))),
        Stepped::Stopped(fault) => Some(Ending::Stopped(PathStop::Guest(fault))),
    }
}

/// Or before that what is met in the turn.
#[inline(always)]
fn by_met(met: Option<UnclearWhy>, mode: Stepped, budget: u32, crossed: u32) -> Option<Ending>
    ensures { result ≡ ending_met met mode budget crossed }
{
    match met {
        None => by_mode(mode, budget, crossed),
        Some(why) => Some(Ending::Unclear(why)),
    }
}

/// How a walk has ended after a turn that tells of this range outside of guest memory, if it does, and has met this, if
/// it has.
#[inline(always)]
pub(crate) fn ended(
    outside: Option<Outside>,
    met: Option<UnclearWhy>,
    mode: Stepped,
    budget: u32,
    crossed: u32,
) -> Option<Ending>
    ensures { result ≡ ending_after outside met mode budget crossed }
{
    match outside {
        None => by_met(met, mode, budget, crossed),
        Some(outside) => Some(Ending::Stopped(PathStop::RangeOutside(outside))),
    }
}
