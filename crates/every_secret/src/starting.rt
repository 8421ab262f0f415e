//! A search at its start.

ghost use Rattle.std.specs.Prelude.{◌≡◌, ◌<◌, ◌^◌, [], IfOk, OnOk, length};
ghost use Rattle.cut_file.specs.Pictures.{cut_picture};
ghost use Rattle.elf32_loader.specs.Images.{image_picture};
ghost use Rattle.lockstep_replay.specs.Tasks.{task_of};
ghost use Rattle.replay_machine.specs.Visits.{SameAhead};
ghost use Rattle.rv32im_machine.specs.Start.{start, zeros};
ghost use Rattle.every_secret.specs.Rules.{Rules};
ghost use Rattle.every_secret.specs.Private.Searching.{CanGoOn, IsFirst, IsFirstTape, IsWalking, OpensStart, basis_of, terms_of};
ghost use Rattle.every_secret.specs.Private.Tapes.{AreRulesOf, ruling_of, tape_of};

use crate::closed_states::ClosedStates;
use crate::findings::Findings;
use crate::open_places::OpenPlace;
use crate::pattern_set::PatternSet;
use crate::resting::NO_REST;
use crate::searching::{Search, Walks};
use crate::sums::Sum;
use crate::walking::Walking;
use crate::watched_shadows::WatchedShadow;
use crossing_bits::Bits;
use flow_base::NoMemory;
use kept_states::Pieces;
use region_machine::OUTPUT_LIMIT;
use replay_machine::LentVisits;
use rv32im_machine::Machine;
use std::alloc::Global;
use tracked_run::Held;

/// A walk before its first turn, of a guest whose memory begins at an address, on an empty string.
/// `NoMemory` where there is not enough.
fn first_side<'a>(alloc: Global, walks: Walks<'a>) -> Result<Walking<'a>, NoMemory>
    ensures { IfOk result (λ side. IsFirstTape (ruling_of walks.entry.book.now.table walks.entry.known) walks.entry.image.now.base walks.entry.table.now
        (tape_of (ruling_of side.book.now.table side.known) side.shadow side.masks side.bits side.crossed side.byte_masks.items
        side.status_mask side.unclear)) }
{
    let shadow = WatchedShadow::new(alloc, walks.image.base)?;
    let masks = LentVisits::new(alloc, walks.table)?;
    let bits = Bits::with_room(alloc, 0)?;
    Ok(Walking {
        shadow,
        masks,
        bits,
        crossed: 0,
        byte_masks: Vec::new(alloc),
        status_mask: 0,
        book: walks.book,
        known: walks.known,
        held: Held::none(),
        region: 0,
        skipped: false,
        unclear: None,
        rest: NO_REST,
    })
}

/// A search with no open place. `NoMemory` where there is not enough.
fn first_search<'a>(alloc: Global, walks: Walks<'a>) -> Result<Search<'a>, NoMemory>
    requires zeros { length walks.zeros.now < 2 ^ 32 }
    ensures { IfOk result (λ search. IsFirst (start (image_picture walks.entry.image.now) walks.entry.public.now
        walks.entry.zeros.now OUTPUT_LIMIT) search) }
{
    let machine = Machine::new(alloc, walks.image, walks.public, walks.zeros, OUTPUT_LIMIT)?;
    let closed = ClosedStates::new(alloc)?;
    let pieces = Pieces::new(alloc)?;
    Ok(Search {
        machine,
        opens: Vec::new(alloc),
        closed,
        pieces,
        findings: Findings {
            patterns: PatternSet::new(alloc),
            first_stop: None,
        },
    })
}

/// The start of a search is open. `NoMemory` where there is not enough.
fn open_start<'a>(
    alloc: Global,
    search: &mut Search<'a>,
    side: &Walking<'a>,
    turns: u32,
) -> Result<(), NoMemory>
    requires first { IsFirst search.old.machine search.old }
    requires base { side.now.shadow.base ≡ search.old.machine.setting.base }
    ensures { OnOk result (OpensStart search.old search.new
        (tape_of (ruling_of side.now.book.now.table side.now.known) side.now.shadow side.now.masks side.now.bits side.now.crossed side.now.byte_masks.items
        side.now.status_mask side.now.unclear) turns) }
{
    side.shadow.tell_registers();
    let kept = side.shadow.keep(
        alloc,
        &mut search.pieces,
        &search.machine,
        &side.masks,
        side.byte_masks.as_slice(),
        side.status_mask,
    )?;
    let sum = Sum::none();
    let place = OpenPlace {
        kept,
        depth: 0,
        left: turns,
        crossed: 0,
        sum,
    };
    search.opens.push(place).map_err(|_| NoMemory)?;
    Ok(())
}

/// A search and its walk at the start, which is open. `NoMemory` where there is not enough.
pub(crate) fn begin<'a>(
    alloc: Global,
    walks: Walks<'a>,
) -> Result<(Search<'a>, Walking<'a>), NoMemory>
    requires zeros { length walks.zeros.now < 2 ^ 32 }
    ensures safe { IfOk result (λ both. CanGoOn (terms_of (ruling_of walks.entry.book.now.table walks.entry.known) walks.entry.marked.now.regions.items walks.entry.cut.now.skip walks.entry.budget
        walks.entry.turns) both.0
        (tape_of (ruling_of both.1.book.now.table both.1.known) both.1.shadow both.1.masks both.1.bits both.1.crossed both.1.byte_masks.items
        both.1.status_mask both.1.unclear)) }
    ensures bits { IfOk result (λ both. both.1.bits.bits ≡ []) }
    ensures walks { IfOk result (λ both. (rules : Rules) → AreRulesOf (ruling_of walks.entry.book.now.table walks.entry.known) rules →
        walks.entry.zeros.now ≡ zeros walks.entry.cut.now.secret_len →
        SameAhead walks.entry.table.now walks.entry.cut.now.points →
        IsWalking (basis_of rules (task_of (image_picture walks.entry.image.now) walks.entry.public.now
        walks.entry.marked.now.regions.items (cut_picture walks.entry.cut.now)) walks.entry.budget walks.entry.turns)
        walks.entry.turns both.0
        (tape_of (ruling_of both.1.book.now.table both.1.known) both.1.shadow both.1.masks both.1.bits both.1.crossed both.1.byte_masks.items
        both.1.status_mask both.1.unclear)) }
{
    let mut search = first_search(alloc, walks)?;
    let side = first_side(alloc, walks)?;
    open_start(alloc, &mut search, &side, walks.turns)?;
    Ok((search, side))
}
