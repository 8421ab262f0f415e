//! What a walk that goes no further adds to what is found.

ghost use Rattle.std.specs.Prelude.{◌≡◌, IfOk, OnOk, option_map};
ghost use Rattle.every_secret.specs.declared.path_ends.PathEnd.TheVariants.{Exits};
ghost use Rattle.every_secret.specs.Bounds.{first_stop_of, halt_of};
ghost use Rattle.every_secret.specs.Private.Searching.{FitsCame, JudgesSo};
ghost use Rattle.every_secret.specs.Private.Sums.{stop_repeats};
ghost use Rattle.every_secret.specs.Private.Tapes.{ruling_of, tape_of};
ghost use Rattle.every_secret.specs.Private.Walks.{end_of};
ghost use Rattle.rv32im_machine.specs.State.{State};

use crate::bit_strings::copied;
use crate::endings::Ending;
use crate::findings::Findings;
use crate::pattern_set::PATTERN_LIMIT;
use crate::patterns::Pattern;
use crate::searching::Came;
use crate::stops::PathStop;
use crate::sums::Sum;
use crate::verdicts::StoppedPath;
use crate::walking::Walking;
use crate::whys::UnclearWhy;
use crossing_bits::Bits;
use flow_base::{Bytes, List, NoMemory};
use rv32im_machine::Machine;
use std::alloc::Global;

/// What is made of a walk that goes no further.
#[derive(Clone, Copy)]
pub(crate) enum Judged {
    Unclear(UnclearWhy),
    Add(Sum),
}

/// The pattern of a guest that has exited. `NoMemory` where there is not enough.
fn pattern_shown(
    alloc: Global,
    machine: &Machine,
    side: &Walking<'_>,
    status: u8,
) -> Result<Pattern, NoMemory>
    ensures { IfOk result (λ pattern. Exits pattern ≡ end_of (Ending.Exited status) machine.now
        (tape_of (ruling_of side.now.book.now.table side.now.known) side.now.shadow side.now.masks side.now.bits side.now.crossed side.now.byte_masks.items
        side.now.status_mask side.now.unclear)) }
{
    Ok(Pattern {
        bytes: Bytes::from_slice(alloc, machine.output())?,
        status,
        byte_masks: List::from_slice(alloc, side.byte_masks.as_slice())?,
        status_mask: side.status_mask,
    })
}

/// The first of two paths that stop, the second with these choices, is noted. `NoMemory` where there is not enough.
fn note_stop(
    alloc: Global,
    first: &mut Option<StoppedPath>,
    path: &Bits,
    stop: PathStop,
) -> Result<(), NoMemory>
    ensures { OnOk result (option_map (λ stopped. halt_of stopped) first.new
        ≡ first_stop_of (option_map (λ stopped. halt_of stopped) first.old) path.now.bits stop) }
{
    if first.is_none() {
        let bits = copied(alloc, path)?;
        *first = Some(StoppedPath { bits, stop });
    }
    Ok(())
}

/// An exit with so many turns left. `NoMemory` where there is not enough.
fn judge_exit(
    alloc: Global,
    findings: &mut Findings,
    machine: &Machine,
    side: &Walking<'_>,
    status: u8,
    after: u32,
) -> Result<Judged, NoMemory>
    ensures { IfOk result (λ judged. JudgesSo (Came.Ended (Ending.Exited status) after) machine.now
        (tape_of (ruling_of side.now.book.now.table side.now.known) side.now.shadow side.now.masks side.now.bits side.now.crossed side.now.byte_masks.items
        side.now.status_mask side.now.unclear)
        findings.old findings.new judged) }
{
    let pattern = pattern_shown(alloc, machine, side, status)?;
    findings.patterns.insert(pattern)?;
    if findings.patterns.is_large() {
        return Ok(Judged::Unclear(UnclearWhy::Outputs {
            limit: PATTERN_LIMIT,
        }));
    }
    Ok(Judged::Add(Sum {
        paths: Some(1),
        stopped: Some(0),
        after,
        crossed: side.crossed,
        repeats: true,
    }))
}

/// Whether a stop is the same from the same state.
fn repeats(stop: PathStop) -> bool
    ensures { result ≡ stop_repeats stop }
{
    match stop {
        PathStop::Guest(_) => true,
        PathStop::RangeOutside(_) => true,
        PathStop::Turns { .. } => false,
    }
}

/// A stop with so many turns left. `NoMemory` where there is not enough.
fn judge_stop(
    alloc: Global,
    findings: &mut Findings,
    side: &Walking<'_>,
    stop: PathStop,
    after: u32,
) -> Result<Judged, NoMemory>
    ensures { (machine : State) → IfOk result (λ judged. JudgesSo (Came.Ended (Ending.Stopped stop) after) machine
        (tape_of (ruling_of side.now.book.now.table side.now.known) side.now.shadow side.now.masks side.now.bits side.now.crossed side.now.byte_masks.items
        side.now.status_mask side.now.unclear)
        findings.old findings.new judged) }
{
    note_stop(alloc, &mut findings.first_stop, &side.bits, stop)?;
    Ok(Judged::Add(Sum {
        paths: Some(1),
        stopped: Some(1),
        after,
        crossed: side.crossed,
        repeats: repeats(stop),
    }))
}

/// An end with so many turns left. `NoMemory` where there is not enough.
fn judge_end(
    alloc: Global,
    findings: &mut Findings,
    machine: &Machine,
    side: &Walking<'_>,
    ending: Ending,
    after: u32,
) -> Result<Judged, NoMemory>
    ensures { IfOk result (λ judged. JudgesSo (Came.Ended ending after) machine.now
        (tape_of (ruling_of side.now.book.now.table side.now.known) side.now.shadow side.now.masks side.now.bits side.now.crossed side.now.byte_masks.items
        side.now.status_mask side.now.unclear)
        findings.old findings.new judged) }
{
    match ending {
        Ending::Exited(status) => judge_exit(alloc, findings, machine, side, status, after),
        Ending::Stopped(stop) => judge_stop(alloc, findings, side, stop, after),
        Ending::Unclear(why) => Ok(Judged::Unclear(why)),
    }
}

/// What a walk comes to is added to what is found, or makes the answer unclear. `NoMemory` where there is not enough.
pub(crate) fn judge(
    alloc: Global,
    findings: &mut Findings,
    machine: &Machine,
    side: &Walking<'_>,
    came: Came,
) -> Result<Judged, NoMemory>
    requires fits { FitsCame came side.now.crossed }
    ensures { IfOk result (λ judged. JudgesSo came machine.now
        (tape_of (ruling_of side.now.book.now.table side.now.known) side.now.shadow side.now.masks side.now.bits side.now.crossed side.now.byte_masks.items
        side.now.status_mask side.now.unclear)
        findings.old findings.new judged) }
{
    match came {
        Came::Ended(ending, after) => judge_end(alloc, findings, machine, side, ending, after),
        Came::Met(closed, left) => Ok(Judged::Add(Sum {
            paths: closed.paths,
            stopped: closed.stopped,
            after: left.saturating_sub(closed.turns),
            crossed: side.crossed + closed.bits,
            repeats: true,
        })),
    }
}
