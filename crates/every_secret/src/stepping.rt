//! From the end of one walk to the start of the next.

ghost use Rattle.std.specs.Prelude.{◌≡◌, ◌<◌, ◌≤◌, IfOk, IfSome, OnOk, length, slice_get, take};
ghost use Rattle.std.specs.List.{AllByRecursion};
ghost use Rattle.every_secret.specs.Paths.{Opens};
ghost use Rattle.every_secret.specs.Private.Closing.{ClosesOpen, below_open};
ghost use Rattle.every_secret.specs.Private.Orders.{earlier};
ghost use Rattle.every_secret.specs.Private.Searching.{CanGoBack, CanGoOn, IsAdded, IsDeep, IsBasis, IsSearched, IsWalking, KeepsLimit};
ghost use Rattle.every_secret.specs.Private.Searching.{Settles, StepsSafely, StepsTo, terms_of, turned_at};
ghost use Rattle.every_secret.specs.Private.Spots.{Basis, tree_in};
ghost use Rattle.every_secret.specs.Private.Tapes.{ruling_of, tape_of};

use crate::bit_strings::{last_zero, skip, turned};
use crate::closed_states::{Closed, ClosedStates};
use crate::judging::{Judged, judge};
use crate::open_places::{OpenPlace, add_to_all};
use crate::searching::{Search, Walks, walk};
use crate::walking::Walking;
use crate::whys::UnclearWhy;
use crossing_bits::Bits;
use flow_base::NoMemory;
use std::alloc::Global;

/// What comes after a walk.
#[derive(Clone, Copy)]
pub(crate) enum Step {
    /// The path of its string is unclear.
    Answered(UnclearWhy),
    /// No path is left.
    Done,
    /// A path is left, and no more walks may be made.
    TooMany,
    /// The next walk, with so many turns left.
    Goes(u32),
}

/// How many places from the first on are no deeper than a place of the string.
fn open_until(opens: &[OpenPlace<'_>], turn: usize) -> usize
    ensures within { result ≤ length opens.now }
    ensures all { AllByRecursion (IsDeep turn) (take result opens.now) }
    ensures first { IfSome (slice_get opens.now 0) (λ first. first.depth ≤ turn → 1 ≤ result) }
{
    for (index, place) in opens.iter().enumerate() {
        if turn < place.depth as usize {
            return index;
        }
    }
    opens.len()
}

/// What is below a place all of whose paths are done.
fn closed_of(last: &OpenPlace<'_>) -> Closed
    ensures { result ≡ below_open last.now }
{
    Closed {
        paths: last.sum.paths,
        stopped: last.sum.stopped,
        turns: last.left.saturating_sub(last.sum.after),
        bits: last.sum.crossed.saturating_sub(last.crossed),
    }
}

/// A place behind a place of the string is closed, if what is below it is the same from the same state.
/// `NoMemory` where there is not enough.
fn close<'a>(
    closed: &mut ClosedStates<'a>,
    last: OpenPlace<'a>,
    turn: usize,
) -> Result<(), NoMemory>
    requires { length closed.old.states ≡ length closed.old.below.items }
    ensures { OnOk result (ClosesOpen closed.old closed.new last.entry turn) }
{
    if last.sum.repeats && turn < last.depth as usize && last.sum.crossed < u32::MAX {
        let below = closed_of(&last);
        let OpenPlace { kept, .. } = last;
        closed.insert(kept, below)?;
    }
    Ok(())
}

/// The places behind the first so many are closed. `NoMemory` where there is not enough.
fn close_behind<'a>(
    search: &mut Search<'a>,
    side: &Walking<'a>,
    walks: Walks<'_>,
    keep: usize,
    turn: usize,
) -> Result<(), NoMemory>
    requires back { CanGoBack (terms_of (ruling_of walks.book.now.table walks.known) walks.marked.now.regions.items walks.cut.now.skip walks.budget
        walks.turns) search.old (tape_of (ruling_of side.now.book.now.table side.now.known) side.now.shadow side.now.masks side.now.bits side.now.crossed side.now.byte_masks.items
        side.now.status_mask side.now.unclear) }
    requires some { 1 ≤ keep }
    ensures back { OnOk result (CanGoBack (terms_of (ruling_of walks.entry.book.now.table walks.entry.known) walks.entry.marked.now.regions.items walks.entry.cut.now.skip walks.entry.budget
        walks.entry.turns) search.new (tape_of (ruling_of side.now.book.now.table side.now.known) side.now.shadow side.now.masks side.now.bits side.now.crossed side.now.byte_masks.items
        side.now.status_mask side.now.unclear)) }
    ensures opens { OnOk result (search.new.opens.items ≡ take keep search.old.opens.items) }
    ensures settles { OnOk result ((basis : Basis) → IsBasis (terms_of (ruling_of walks.entry.book.now.table walks.entry.known) walks.entry.marked.now.regions.items walks.entry.cut.now.skip walks.entry.budget
        walks.entry.turns) basis →
        Settles basis turn search.old (tape_of (ruling_of side.now.book.now.table side.now.known) side.now.shadow side.now.masks side.now.bits side.now.crossed side.now.byte_masks.items
        side.now.status_mask side.now.unclear) → Settles basis turn search.new (tape_of (ruling_of side.now.book.now.table side.now.known) side.now.shadow side.now.masks side.now.bits side.now.crossed side.now.byte_masks.items
        side.now.status_mask side.now.unclear)) }
{
    let _ = walks;
    while search.opens.len() > keep {
        if let Some(last) = search.opens.pop() {
            close(&mut search.closed, last, turn)?;
        }
    }
    Ok(())
}

/// The search goes back to its last open place, to walk the next string: so many turns are left there.
/// `NoMemory` where there is not enough.
fn go_back<'a>(
    alloc: Global,
    search: &mut Search<'a>,
    side: &mut Walking<'a>,
    walks: Walks<'_>,
    next: Bits,
) -> Result<u32, NoMemory>
    requires back { CanGoBack (terms_of (ruling_of walks.book.now.table walks.known) walks.marked.now.regions.items walks.cut.now.skip walks.budget
        walks.turns) search.old (tape_of (ruling_of side.old.book.now.table side.old.known) side.old.shadow side.old.masks side.old.bits side.old.crossed side.old.byte_masks.items
        side.old.status_mask side.old.unclear) }
    requires taken { next.taken ≡ 0 }
    requires deep { AllByRecursion (IsDeep (length next.bits)) search.old.opens.items }
    ensures safe { IfOk result (λ left. CanGoOn (terms_of (ruling_of walks.entry.book.now.table walks.entry.known) walks.entry.marked.now.regions.items walks.entry.cut.now.skip walks.entry.budget
        walks.entry.turns) search.new (tape_of (ruling_of side.new.book.now.table side.new.known) side.new.shadow side.new.masks side.new.bits side.new.crossed side.new.byte_masks.items
        side.new.status_mask side.new.unclear)) }
    ensures bits { IfOk result (λ left. side.new.bits.bits ≡ next.bits) }
    ensures walks { IfOk result (λ left. (basis : Basis) → IsBasis (terms_of (ruling_of walks.entry.book.now.table walks.entry.known) walks.entry.marked.now.regions.items walks.entry.cut.now.skip walks.entry.budget
        walks.entry.turns) basis →
        IsSearched basis next.bits search.old → Opens (tree_in basis) next.bits → IsWalking basis left search.new (tape_of (ruling_of side.new.book.now.table side.new.known) side.new.shadow side.new.masks side.new.bits side.new.crossed side.new.byte_masks.items
        side.new.status_mask side.new.unclear)) }
{
    let _ = walks;
    let Some(last) = search.opens.last() else {
        unreachable!()
    };
    let (masks, byte_masks) = side
        .shadow
        .put_back(alloc, &last.kept, &search.pieces, &mut search.machine)?;
    side.shadow.tell_registers();
    let mut bits = next;
    skip(&mut bits, last.depth);
    side.masks = masks;
    side.byte_masks = byte_masks;
    side.status_mask = last.kept.status_mask();
    side.crossed = last.crossed;
    side.bits = bits;
    side.unclear = None;
    Ok(last.left)
}

/// The next string turns at a place of the last one. `NoMemory` where there is not enough.
fn turn_back<'a>(
    alloc: Global,
    search: &mut Search<'a>,
    side: &mut Walking<'a>,
    walks: Walks<'_>,
    turn: usize,
) -> Result<u32, NoMemory>
    requires back { CanGoBack (terms_of (ruling_of walks.book.now.table walks.known) walks.marked.now.regions.items walks.cut.now.skip walks.budget
        walks.turns) search.old (tape_of (ruling_of side.old.book.now.table side.old.known) side.old.shadow side.old.masks side.old.bits side.old.crossed side.old.byte_masks.items
        side.old.status_mask side.old.unclear) }
    requires within { turn < length side.old.bits.bits }
    ensures safe { IfOk result (λ left. CanGoOn (terms_of (ruling_of walks.entry.book.now.table walks.entry.known) walks.entry.marked.now.regions.items walks.entry.cut.now.skip walks.entry.budget
        walks.entry.turns) search.new (tape_of (ruling_of side.new.book.now.table side.new.known) side.new.shadow side.new.masks side.new.bits side.new.crossed side.new.byte_masks.items
        side.new.status_mask side.new.unclear)) }
    ensures bits { IfOk result (λ left. side.new.bits.bits ≡ turned_at turn side.old.bits.bits) }
    ensures walks { IfOk result (λ left. (basis : Basis) → IsBasis (terms_of (ruling_of walks.entry.book.now.table walks.entry.known) walks.entry.marked.now.regions.items walks.entry.cut.now.skip walks.entry.budget
        walks.entry.turns) basis →
        Settles basis turn search.old (tape_of (ruling_of side.old.book.now.table side.old.known) side.old.shadow side.old.masks side.old.bits side.old.crossed side.old.byte_masks.items
        side.old.status_mask side.old.unclear) → Opens (tree_in basis) (turned_at turn side.old.bits.bits) →
        IsWalking basis left search.new (tape_of (ruling_of side.new.book.now.table side.new.known) side.new.shadow side.new.masks side.new.bits side.new.crossed side.new.byte_masks.items
        side.new.status_mask side.new.unclear)) }
{
    let next = turned(alloc, &side.bits, turn)?;
    let keep = open_until(search.opens.as_slice(), turn);
    close_behind(search, side, walks, keep, turn)?;
    go_back(alloc, search, side, walks, next)
}

/// What comes after a walk whose paths are added below all open places: the next walk, if it may be made.
/// `NoMemory` where there is not enough.
fn settle<'a>(
    alloc: Global,
    search: &mut Search<'a>,
    side: &mut Walking<'a>,
    walks: Walks<'_>,
    is_last: bool,
) -> Result<Step, NoMemory>
    requires back { CanGoBack (terms_of (ruling_of walks.book.now.table walks.known) walks.marked.now.regions.items walks.cut.now.skip walks.budget
        walks.turns) search.old (tape_of (ruling_of side.old.book.now.table side.old.known) side.old.shadow side.old.masks side.old.bits side.old.crossed side.old.byte_masks.items
        side.old.status_mask side.old.unclear) }
    ensures safe { IfOk result (λ step. StepsSafely (terms_of (ruling_of walks.entry.book.now.table walks.entry.known) walks.entry.marked.now.regions.items walks.entry.cut.now.skip walks.entry.budget
        walks.entry.turns) step search.new (tape_of (ruling_of side.new.book.now.table side.new.known) side.new.shadow side.new.masks side.new.bits side.new.crossed side.new.byte_masks.items
        side.new.status_mask side.new.unclear)) }
    ensures last { IfOk result (λ step. KeepsLimit is_last step) }
    ensures steps { IfOk result (λ step. (basis : Basis) → IsBasis (terms_of (ruling_of walks.entry.book.now.table walks.entry.known) walks.entry.marked.now.regions.items walks.entry.cut.now.skip walks.entry.budget
        walks.entry.turns) basis →
        IsAdded basis search.old (tape_of (ruling_of side.old.book.now.table side.old.known) side.old.shadow side.old.masks side.old.bits side.old.crossed side.old.byte_masks.items
        side.old.status_mask side.old.unclear) →
        StepsTo basis (length (earlier (tree_in basis) side.old.bits.bits)) step search.new (tape_of (ruling_of side.new.book.now.table side.new.known) side.new.shadow side.new.masks side.new.bits side.new.crossed side.new.byte_masks.items
        side.new.status_mask side.new.unclear)) }
{
    match last_zero(side.bits.as_slice()) {
        None => Ok(Step::Done),
        Some(_) if is_last => Ok(Step::TooMany),
        Some(turn) => {
            let left = turn_back(alloc, search, side, walks, turn)?;
            Ok(Step::Goes(left))
        }
    }
}

/// A walk with so many turns left, and what comes after it. `NoMemory` where there is not enough.
pub(crate) fn make_step<'a>(
    alloc: Global,
    search: &mut Search<'a>,
    side: &mut Walking<'a>,
    walks: Walks<'_>,
    left: u32,
    is_last: bool,
) -> Result<Step, NoMemory>
    requires safe { CanGoOn (terms_of (ruling_of walks.book.now.table walks.known) walks.marked.now.regions.items walks.cut.now.skip walks.budget
        walks.turns) search.old (tape_of (ruling_of side.old.book.now.table side.old.known) side.old.shadow side.old.masks side.old.bits side.old.crossed side.old.byte_masks.items
        side.old.status_mask side.old.unclear) }
    ensures safe { IfOk result (λ step. StepsSafely (terms_of (ruling_of walks.entry.book.now.table walks.entry.known) walks.entry.marked.now.regions.items walks.entry.cut.now.skip walks.entry.budget
        walks.entry.turns) step search.new (tape_of (ruling_of side.new.book.now.table side.new.known) side.new.shadow side.new.masks side.new.bits side.new.crossed side.new.byte_masks.items
        side.new.status_mask side.new.unclear)) }
    ensures last { IfOk result (λ step. KeepsLimit is_last step) }
    ensures steps { IfOk result (λ step. (basis : Basis) → IsBasis (terms_of (ruling_of walks.entry.book.now.table walks.entry.known) walks.entry.marked.now.regions.items walks.entry.cut.now.skip walks.entry.budget
        walks.entry.turns) basis →
        IsWalking basis left search.old (tape_of (ruling_of side.old.book.now.table side.old.known) side.old.shadow side.old.masks side.old.bits side.old.crossed side.old.byte_masks.items
        side.old.status_mask side.old.unclear) →
        StepsTo basis (length (earlier (tree_in basis) side.old.bits.bits)) step search.new (tape_of (ruling_of side.new.book.now.table side.new.known) side.new.shadow side.new.masks side.new.bits side.new.crossed side.new.byte_masks.items
        side.new.status_mask side.new.unclear)) }
{
    let came = walk(alloc, search, side, walks, left)?;
    match judge(alloc, &mut search.findings, &search.machine, side, came)? {
        Judged::Unclear(why) => Ok(Step::Answered(why)),
        Judged::Add(sum) => {
            add_to_all(&mut search.opens, sum);
            settle(alloc, search, side, walks, is_last)
        }
    }
}
