//! The tree of a masked replay, walked in depth on one machine.

ghost use Rattle.std.specs.Prelude.{◌≡◌, ◌+◌, ◌^◌, ◌<◌, ◌≤◌, ℕ, suc, IfOk, IsTrue, None, length};
ghost use Rattle.every_secret.specs.Private.Orders.{SameBefore};
ghost use Rattle.every_secret.specs.Private.Searching.{CanGoBack, CanGoOn, FitsCame, FitsComing, FitsMet, GoesOrComes, GoesOrEnds, IsCome, IsBasis};
ghost use Rattle.every_secret.specs.Private.Searching.{IsWalking, LooksUp, terms_of};
ghost use Rattle.every_secret.specs.Private.Spots.{Basis};
ghost use Rattle.every_secret.specs.Private.Tapes.{ruling_of, tape_of};

use crate::closed_states::{Closed, ClosedStates};
use crate::endings::{Ending, ended};
use crate::findings::Findings;
use crate::open_places::{OpenPlace, put_last};
use crate::public_inputs::PublicInput;
use crate::stops::PathStop;
use crate::sums::Sum;
use crate::turns::make_turn;
use crate::walking::Walking;
use cut_file::Cut;
use elf32_loader::Image;
use flow_base::{Bytes, NoMemory};
use kept_states::Pieces;
use region_machine::MarkedRegions;
use replay_machine::CutTable;
use rv32im_machine::Machine;
use std::alloc::Global;
use transfer_rules::RuleBook;

/// What is walked, and within which limits.
#[derive(Clone, Copy)]
pub(crate) struct Walks<'a> {
    pub image: &'a Image,
    /// The public input, or as many zeros where its bytes are not known.
    pub public: &'a Bytes,
    /// As many zeros as the secret has bytes.
    pub zeros: &'a Bytes,
    pub marked: &'a MarkedRegions,
    pub cut: &'a Cut,
    pub table: &'a CutTable,
    pub book: &'a RuleBook,
    /// What is known of the public input.
    pub known: PublicInput,
    pub budget: u32,
    pub turns: u32,
}

/// A machine, the places on the way to where it stands, and what is known of the paths that are done.
#[derive(Drop)]
pub(crate) struct Search<'a> {
    pub machine: Machine,
    /// The places at which a choice was made or may be made, the start first.
    pub opens: Vec<OpenPlace<'a>>,
    pub closed: ClosedStates<'a>,
    pub pieces: Pieces,
    pub findings: Findings,
}

/// What a walk comes to where it goes no further.
#[derive(Clone, Copy)]
pub(crate) enum Came {
    /// An end, with so many turns left.
    Ended(Ending, u32),
    /// A state that is closed, with so many turns left.
    Met(Closed, u32),
}

/// How many bits of its string a walk has taken.
fn depth_of(side: &Walking<'_>) -> u32
    ensures depth { result ≡ side.now.bits.taken }
    ensures within { result ≤ length side.now.bits.bits }
{
    side.bits.count() - side.bits.left()
}

/// Before a turn with so many left: the state is looked up among those that are closed; one that is not is open from now
/// on. `NoMemory` where there is not enough.
fn look_up<'a>(
    alloc: Global,
    search: &mut Search<'a>,
    side: &Walking<'a>,
    walks: Walks<'_>,
    left: u32,
) -> Result<Option<Closed>, NoMemory>
    requires full { side.now.bits.taken ≡ length side.now.bits.bits }
    requires safe { CanGoOn (terms_of (ruling_of walks.book.now.table walks.known) walks.marked.now.regions.items walks.cut.now.skip walks.budget
        walks.turns) search.old (tape_of (ruling_of side.now.book.now.table side.now.known) side.now.shadow side.now.masks side.now.bits side.now.crossed side.now.byte_masks.items
        side.now.status_mask side.now.unclear) }
    ensures safe { IfOk result (λ met. CanGoOn (terms_of (ruling_of walks.entry.book.now.table walks.entry.known) walks.entry.marked.now.regions.items walks.entry.cut.now.skip walks.entry.budget
        walks.entry.turns) search.new (tape_of (ruling_of side.now.book.now.table side.now.known) side.now.shadow side.now.masks side.now.bits side.now.crossed side.now.byte_masks.items
        side.now.status_mask side.now.unclear)) }
    ensures fits { IfOk result (λ met. FitsMet met side.now.crossed) }
    ensures looks { IfOk result (λ met. (basis : Basis) → IsBasis (terms_of (ruling_of walks.entry.book.now.table walks.entry.known) walks.entry.marked.now.regions.items walks.entry.cut.now.skip walks.entry.budget
        walks.entry.turns) basis →
        IsWalking basis left search.old (tape_of (ruling_of side.now.book.now.table side.now.known) side.now.shadow side.now.masks side.now.bits side.now.crossed side.now.byte_masks.items
        side.now.status_mask side.now.unclear) → LooksUp basis left met search.new (tape_of (ruling_of side.now.book.now.table side.now.known) side.now.shadow side.now.masks side.now.bits side.now.crossed side.now.byte_masks.items
        side.now.status_mask side.now.unclear)) }
{
    side.shadow.tell_registers();
    let kept = side.shadow.keep(
        alloc,
        &mut search.pieces,
        &search.machine,
        &side.masks,
        side.byte_masks.as_slice(),
        side.status_mask,
    )?;
    let crossed = side.crossed;
    let depth = depth_of(side);
    match search.closed.find(&kept, left, walks.budget - crossed) {
        Some(closed) => Ok(Some(closed)),
        None => {
            let sum = Sum::none();
            let place = OpenPlace {
                kept,
                depth,
                left,
                crossed,
                sum,
            };
            put_last(&mut search.opens, place)?;
            Ok(None)
        }
    }
}

/// One turn, and how it ends the walk, if it does. `NoMemory` where there is not enough.
#[inline(always)]
fn make_one(
    search: &mut Search<'_>,
    side: &mut Walking<'_>,
    walks: Walks<'_>,
) -> Result<Option<Ending>, NoMemory>
    requires safe { CanGoOn (terms_of (ruling_of walks.book.now.table walks.known) walks.marked.now.regions.items walks.cut.now.skip walks.budget
        walks.turns) search.old (tape_of (ruling_of side.old.book.now.table side.old.known) side.old.shadow side.old.masks side.old.bits side.old.crossed side.old.byte_masks.items
        side.old.status_mask side.old.unclear) }
    ensures early { IfOk result (λ ending. SameBefore side.new.bits.bits side.old.bits.bits) }
    ensures back { IfOk result (λ ending. CanGoBack (terms_of (ruling_of walks.entry.book.now.table walks.entry.known) walks.entry.marked.now.regions.items walks.entry.cut.now.skip walks.entry.budget
        walks.entry.turns) search.new (tape_of (ruling_of side.new.book.now.table side.new.known) side.new.shadow side.new.masks side.new.bits side.new.crossed side.new.byte_masks.items
        side.new.status_mask side.new.unclear)) }
    ensures safe { IfOk result (λ ending. ending ≡ None → CanGoOn (terms_of (ruling_of walks.entry.book.now.table walks.entry.known) walks.entry.marked.now.regions.items walks.entry.cut.now.skip walks.entry.budget
        walks.entry.turns) search.new (tape_of (ruling_of side.new.book.now.table side.new.known) side.new.shadow side.new.masks side.new.bits side.new.crossed side.new.byte_masks.items
        side.new.status_mask side.new.unclear)) }
    ensures goes { IfOk result (λ ending. (basis : Basis) (left : ℕ) → IsBasis (terms_of (ruling_of walks.entry.book.now.table walks.entry.known) walks.entry.marked.now.regions.items walks.entry.cut.now.skip walks.entry.budget
        walks.entry.turns) basis →
        IsWalking basis (suc left) search.old (tape_of (ruling_of side.old.book.now.table side.old.known) side.old.shadow side.old.masks side.old.bits side.old.crossed side.old.byte_masks.items
        side.old.status_mask side.old.unclear) → GoesOrEnds basis left ending search.new (tape_of (ruling_of side.new.book.now.table side.new.known) side.new.shadow side.new.masks side.new.bits side.new.crossed side.new.byte_masks.items
        side.new.status_mask side.new.unclear)) }
{
    let skip = walks.cut.skip.as_slice();
    let outside = make_turn(&mut search.machine, side, walks.marked, skip)?;
    let mode = search.machine.mode();
    let ending = ended(outside, side.unclear, mode, walks.budget, side.crossed);
    Ok(ending)
}

/// The last place is no longer open where no bit was taken since the walk stood there with so many.
fn forget_idle(
    search: &mut Search<'_>,
    side: &Walking<'_>,
    walks: Walks<'_>,
    before: usize,
    depth: u32,
)
    requires safe { CanGoOn (terms_of (ruling_of walks.book.now.table walks.known) walks.marked.now.regions.items walks.cut.now.skip walks.budget
        walks.turns) search.old (tape_of (ruling_of side.now.book.now.table side.now.known) side.now.shadow side.now.masks side.now.bits side.now.crossed side.now.byte_masks.items
        side.now.status_mask side.now.unclear) }
    ensures safe { CanGoOn (terms_of (ruling_of walks.entry.book.now.table walks.entry.known) walks.entry.marked.now.regions.items walks.entry.cut.now.skip walks.entry.budget
        walks.entry.turns) search.new (tape_of (ruling_of side.now.book.now.table side.now.known) side.now.shadow side.now.masks side.now.bits side.now.crossed side.now.byte_masks.items
        side.now.status_mask side.now.unclear) }
    ensures goes { (basis : Basis) (left : ℕ) → IsWalking basis left search.old (tape_of (ruling_of side.now.book.now.table side.now.known) side.now.shadow side.now.masks side.now.bits side.now.crossed side.now.byte_masks.items
        side.now.status_mask side.now.unclear) → IsWalking basis left search.new (tape_of (ruling_of side.now.book.now.table side.now.known) side.now.shadow side.now.masks side.now.bits side.now.crossed side.now.byte_masks.items
        side.now.status_mask side.now.unclear) }
{
    let _ = walks;
    if before >= 1 && search.opens.len() > before && depth_of(side) == depth {
        search.opens.truncate(before);
    }
}

/// A turn with so many left after it, at a place where a bit may cross: the state is looked up first.
/// `NoMemory` where there is not enough.
#[inline(never)]
fn go_on_known<'a>(
    alloc: Global,
    search: &mut Search<'a>,
    side: &mut Walking<'a>,
    walks: Walks<'_>,
    left: u32,
) -> Result<Option<Came>, NoMemory>
    requires full { side.old.bits.taken ≡ length side.old.bits.bits }
    requires safe { CanGoOn (terms_of (ruling_of walks.book.now.table walks.known) walks.marked.now.regions.items walks.cut.now.skip walks.budget
        walks.turns) search.old (tape_of (ruling_of side.old.book.now.table side.old.known) side.old.shadow side.old.masks side.old.bits side.old.crossed side.old.byte_masks.items
        side.old.status_mask side.old.unclear) }
    requires left { left + 1 < 2 ^ 32 }
    ensures early { IfOk result (λ came. SameBefore side.new.bits.bits side.old.bits.bits) }
    ensures back { IfOk result (λ came. CanGoBack (terms_of (ruling_of walks.entry.book.now.table walks.entry.known) walks.entry.marked.now.regions.items walks.entry.cut.now.skip walks.entry.budget
        walks.entry.turns) search.new (tape_of (ruling_of side.new.book.now.table side.new.known) side.new.shadow side.new.masks side.new.bits side.new.crossed side.new.byte_masks.items
        side.new.status_mask side.new.unclear)) }
    ensures safe { IfOk result (λ came. came ≡ None → CanGoOn (terms_of (ruling_of walks.entry.book.now.table walks.entry.known) walks.entry.marked.now.regions.items walks.entry.cut.now.skip walks.entry.budget
        walks.entry.turns) search.new (tape_of (ruling_of side.new.book.now.table side.new.known) side.new.shadow side.new.masks side.new.bits side.new.crossed side.new.byte_masks.items
        side.new.status_mask side.new.unclear)) }
    ensures fits { IfOk result (λ came. FitsComing came side.new.crossed) }
    ensures goes { IfOk result (λ came. (basis : Basis) → IsBasis (terms_of (ruling_of walks.entry.book.now.table walks.entry.known) walks.entry.marked.now.regions.items walks.entry.cut.now.skip walks.entry.budget
        walks.entry.turns) basis →
        IsWalking basis (suc left) search.old (tape_of (ruling_of side.old.book.now.table side.old.known) side.old.shadow side.old.masks side.old.bits side.old.crossed side.old.byte_masks.items
        side.old.status_mask side.old.unclear) → GoesOrComes basis left came search.new (tape_of (ruling_of side.new.book.now.table side.new.known) side.new.shadow side.new.masks side.new.bits side.new.crossed side.new.byte_masks.items
        side.new.status_mask side.new.unclear)) }
{
    let before = search.opens.len();
    let depth = depth_of(side);
    if let Some(closed) = look_up(alloc, search, side, walks, left + 1)? {
        return Ok(Some(Came::Met(closed, left + 1)));
    }
    if let Some(ending) = make_one(search, side, walks)? {
        return Ok(Some(Came::Ended(ending, left)));
    }
    forget_idle(search, side, walks, before, depth);
    Ok(None)
}

/// Whether a state may be kept. Where none may be, walks go on without a look.
fn has_room(search: &Search<'_>, walks: Walks<'_>) -> bool {
    search
        .closed
        .has_room(walks.cut.points.len(), search.pieces.size())
}

/// Whether the state is looked up before a turn: no bit is left, one may cross, and a state may be kept.
#[inline(always)]
fn is_looked_up(search: &Search<'_>, side: &Walking<'_>, walks: Walks<'_>) -> bool
    ensures { IsTrue result → side.now.bits.taken ≡ length side.now.bits.bits }
{
    side.masks.is_marked(search.machine.pc()) && side.bits.left() == 0 && has_room(search, walks)
}

/// A walk with so many turns left, the first of them without a look, to where it goes no further.
/// `NoMemory` where there is not enough.
pub(crate) fn walk<'a>(
    alloc: Global,
    search: &mut Search<'a>,
    side: &mut Walking<'a>,
    walks: Walks<'_>,
    left: u32,
) -> Result<Came, NoMemory>
    requires safe { CanGoOn (terms_of (ruling_of walks.book.now.table walks.known) walks.marked.now.regions.items walks.cut.now.skip walks.budget
        walks.turns) search.old (tape_of (ruling_of side.old.book.now.table side.old.known) side.old.shadow side.old.masks side.old.bits side.old.crossed side.old.byte_masks.items
        side.old.status_mask side.old.unclear) }
    ensures early { IfOk result (λ came. SameBefore side.new.bits.bits side.old.bits.bits) }
    ensures back { IfOk result (λ came. CanGoBack (terms_of (ruling_of walks.entry.book.now.table walks.entry.known) walks.entry.marked.now.regions.items walks.entry.cut.now.skip walks.entry.budget
        walks.entry.turns) search.new (tape_of (ruling_of side.new.book.now.table side.new.known) side.new.shadow side.new.masks side.new.bits side.new.crossed side.new.byte_masks.items
        side.new.status_mask side.new.unclear)) }
    ensures fits { IfOk result (λ came. FitsCame came side.new.crossed) }
    ensures comes { IfOk result (λ came. (basis : Basis) → IsBasis (terms_of (ruling_of walks.entry.book.now.table walks.entry.known) walks.entry.marked.now.regions.items walks.entry.cut.now.skip walks.entry.budget
        walks.entry.turns) basis →
        IsWalking basis left search.old (tape_of (ruling_of side.old.book.now.table side.old.known) side.old.shadow side.old.masks side.old.bits side.old.crossed side.old.byte_masks.items
        side.old.status_mask side.old.unclear) → IsCome basis came search.new (tape_of (ruling_of side.new.book.now.table side.new.known) side.new.shadow side.new.masks side.new.bits side.new.crossed side.new.byte_masks.items
        side.new.status_mask side.new.unclear)) }
{
    if left == 0 {
        return Ok(late(search, side, walks));
    }
    if let Some(ending) = make_one(search, side, walks)? {
        return Ok(Came::Ended(ending, left - 1));
    }
    walk_on(alloc, search, side, walks, left - 1)
}

/// A walk with so many turns left, with a look before each. `NoMemory` where there is not enough.
fn walk_on<'a>(
    alloc: Global,
    search: &mut Search<'a>,
    side: &mut Walking<'a>,
    walks: Walks<'_>,
    left: u32,
) -> Result<Came, NoMemory>
    requires safe { CanGoOn (terms_of (ruling_of walks.book.now.table walks.known) walks.marked.now.regions.items walks.cut.now.skip walks.budget
        walks.turns) search.old (tape_of (ruling_of side.old.book.now.table side.old.known) side.old.shadow side.old.masks side.old.bits side.old.crossed side.old.byte_masks.items
        side.old.status_mask side.old.unclear) }
    ensures early { IfOk result (λ came. SameBefore side.new.bits.bits side.old.bits.bits) }
    ensures back { IfOk result (λ came. CanGoBack (terms_of (ruling_of walks.entry.book.now.table walks.entry.known) walks.entry.marked.now.regions.items walks.entry.cut.now.skip walks.entry.budget
        walks.entry.turns) search.new (tape_of (ruling_of side.new.book.now.table side.new.known) side.new.shadow side.new.masks side.new.bits side.new.crossed side.new.byte_masks.items
        side.new.status_mask side.new.unclear)) }
    ensures fits { IfOk result (λ came. FitsCame came side.new.crossed) }
    ensures comes { IfOk result (λ came. (basis : Basis) → IsBasis (terms_of (ruling_of walks.entry.book.now.table walks.entry.known) walks.entry.marked.now.regions.items walks.entry.cut.now.skip walks.entry.budget
        walks.entry.turns) basis →
        IsWalking basis left search.old (tape_of (ruling_of side.old.book.now.table side.old.known) side.old.shadow side.old.masks side.old.bits side.old.crossed side.old.byte_masks.items
        side.old.status_mask side.old.unclear) → IsCome basis came search.new (tape_of (ruling_of side.new.book.now.table side.new.known) side.new.shadow side.new.masks side.new.bits side.new.crossed side.new.byte_masks.items
        side.new.status_mask side.new.unclear)) }
{
    for made in 0..left {
        let rest = left - made - 1;
        if is_looked_up(search, side, walks) {
            if let Some(came) = go_on_known(alloc, search, side, walks, rest)? {
                return Ok(came);
            }
            continue;
        }
        if let Some(ending) = make_one(search, side, walks)? {
            return Ok(Came::Ended(ending, rest));
        }
    }
    Ok(late(search, side, walks))
}

/// No turn is left.
fn late(search: &Search<'_>, side: &Walking<'_>, walks: Walks<'_>) -> Came
    ensures fits { FitsCame result side.now.crossed }
    ensures comes { (basis : Basis) → IsBasis (terms_of (ruling_of walks.entry.book.now.table walks.entry.known) walks.entry.marked.now.regions.items walks.entry.cut.now.skip walks.entry.budget
        walks.entry.turns) basis → IsWalking basis 0 search.now (tape_of (ruling_of side.now.book.now.table side.now.known) side.now.shadow side.now.masks side.now.bits side.now.crossed side.now.byte_masks.items
        side.now.status_mask side.now.unclear) →
        IsCome basis result search.now (tape_of (ruling_of side.now.book.now.table side.now.known) side.now.shadow side.now.masks side.now.bits side.now.crossed side.now.byte_masks.items
        side.now.status_mask side.now.unclear) }
{
    let _ = search;
    Came::Ended(Ending::Stopped(PathStop::Turns { limit: walks.turns }), 0)
}
