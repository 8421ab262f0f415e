ghost use Rattle.std.specs.Prelude.{◌≡◌, ◌<◌, nat_lt};
ghost use Rattle.taint_check.specs.Reasons.{unclear_of, unclear_broken, unclear_budget, unclear_left, unclear_looked, unclear_mode};

use crate::whys::TaintWhy;
use enclosure_regions::Break;
use masked_turns::{LeftBits, SecretLook};
use rv32im_machine::Stepped;

/// Bits that are left decide.
fn left_reason(left: Option<LeftBits>) -> Option<TaintWhy>
    ensures { result ≡ unclear_left left }
{
    left.map(|left| TaintWhy::Left {
        point: left.point,
        mask: left.mask,
    })
}

/// Or before that more bits have crossed than the budget.
fn budget_reason(budget: u32, needed: u32, left: Option<LeftBits>) -> Option<TaintWhy>
    ensures { result ≡ unclear_budget (nat_lt budget needed) budget needed left }
{
    if budget < needed {
        Some(TaintWhy::BudgetOverrun { budget, needed })
    } else {
        left_reason(left)
    }
}

/// Or before that the run is stopped.
fn mode_reason(mode: Stepped, budget: u32, needed: u32, left: Option<LeftBits>) -> Option<TaintWhy>
    ensures { result ≡ unclear_mode mode budget needed left }
{
    match mode {
        Stepped::Ran => budget_reason(budget, needed, left),
        Stepped::Exited(_) => budget_reason(budget, needed, left),
        Stepped::Stopped(fault) => Some(TaintWhy::RealFault(fault)),
    }
}

/// Or before that it breaks a region.
fn break_reason(broken: Option<Break>, later: Option<TaintWhy>) -> Option<TaintWhy>
    ensures { result ≡ unclear_broken broken later }
{
    match broken {
        Some(broken) => Some(TaintWhy::RegionBreak(broken)),
        None => later,
    }
}

/// Or before that it looks at what may differ.
fn look_reason(look: Option<SecretLook>, later: Option<TaintWhy>) -> Option<TaintWhy>
    ensures { result ≡ unclear_looked look later }
{
    match look {
        Some(SecretLook::Code { pc }) => Some(TaintWhy::SecretCode { pc }),
        Some(SecretLook::BaseRegister { region, register }) => {
            Some(TaintWhy::BaseSecret { region, register })
        }
        None => later,
    }
}

/// Why a turn leaves the check unclear, if it does.
#[cold]
#[inline(never)]
pub(crate) fn reason(
    look: Option<SecretLook>,
    broken: Option<Break>,
    mode: Stepped,
    budget: u32,
    needed: u32,
    left: Option<LeftBits>,
) -> Option<TaintWhy>
    ensures { result ≡ unclear_of look broken mode budget needed left }
{
    look_reason(
        look,
        break_reason(broken, mode_reason(mode, budget, needed, left)),
    )
}
