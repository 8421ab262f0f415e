//! Turns in which nothing comes of most visits: no bit crosses at the instruction, and no register may differ.

ghost use Rattle.std.specs.Prelude.{◌≡◌, IsTrue, List as Seq, None, false};
ghost use Rattle.cut_file.specs.declared.points.CutPoint.{CutPoint as TheCutPoint};
ghost use Rattle.run_labels.specs.TurnLabels.{TurnLabels as Labels};
ghost use Rattle.tracked_run.specs.Labels.{clean_held, labels_of};
ghost use Rattle.every_secret.specs.Private.Resting.{AreInner, IsInner, IsInnerAim, IsInnerSource, PassesInside, Rests};

use crate::idle_visits::is_unseen;
use crate::watched_shadows::WatchedShadow;
use replay_machine::LentVisits;
use rv32im_machine::{Aim, Passing, Place, Source, Sources};

/// The number that is no address.
pub(crate) const NO_REST: u64 = 4_294_967_296;

/// The address of the instruction of a turn, if no bit crosses there and no register may differ.
#[inline(always)]
pub(crate) fn rest_of(masks: &LentVisits<'_>, shadow: &WatchedShadow, address: u32) -> u64
    ensures { Rests result false masks.now (labels_of shadow.now clean_held) None }
{
    if masks.is_marked(address) {
        return NO_REST;
    }
    if shadow.has_clean_registers() {
        u64::from(address)
    } else {
        NO_REST
    }
}

/// The same in a turn that may be the skip of a region: in that none is told.
#[inline(always)]
pub(crate) fn rest_unless(skipped: bool, rest: u64) -> u64
    ensures { (ahead : Seq TheCutPoint) (labels : Labels) → Rests rest false ahead labels None →
        Rests result skipped ahead labels None }
{
    if skipped { NO_REST } else { rest }
}

/// Whether a place is a register or an operand of the turn.
#[inline(always)]
fn is_inner(place: Place) -> bool
    ensures { IsTrue result → IsInner place }
{
    match place {
        Place::Register(_) => true,
        Place::Byte(_) => false,
        Place::First => true,
        Place::Second => true,
    }
}

/// The same of what a value goes to.
#[inline(always)]
fn is_inner_aim(aim: Aim) -> bool
    ensures { IsTrue result → IsInnerAim aim }
{
    match aim {
        Aim::Put(place) => is_inner(place),
        Aim::Decide => true,
        Aim::Give(_) => false,
    }
}

/// The same of a source, which may also be a number.
#[inline(always)]
fn is_inner_source(source: Source) -> bool
    ensures { IsTrue result → IsInnerSource source }
{
    match source {
        Source::At(place) => is_inner(place),
        Source::Constant(_) => true,
        Source::Secret(_) => false,
    }
}

/// The same of all sources.
#[inline(always)]
fn are_inner(sources: Sources) -> bool
    ensures { IsTrue result → AreInner sources }
{
    match sources {
        Sources::One(source) => is_inner_source(source),
        Sources::Two(first, second) => is_inner_source(first) && is_inner_source(second),
        Sources::Byte(_) => false,
        Sources::Half(_) => false,
        Sources::Word(_) => false,
    }
}

/// Whether a visit passes nothing but registers, operands and numbers, in a turn that rests.
#[inline(always)]
pub(crate) fn passes_inside(rest: u64, passing: &Passing) -> bool
    ensures { IsTrue result → PassesInside rest passing.now }
{
    rest == u64::from(passing.point.address)
        && is_unseen(passing.point.slot)
        && is_inner_aim(passing.aim)
        && are_inner(passing.sources)
}
