ghost use Rattle.std.specs.Prelude.{◌≡◌, ◌<◌, IsTrue};
ghost use Rattle.enclosure_regions.specs.Regions.{is_region};
ghost use Rattle.region_machine.specs.Within.{are_inside};

use crate::ending_lists::Endings;
use crate::entries::Entry;
use crate::fronts::Front;
use crate::hold_faults::HoldFault;
use crate::leaving::{ending_of, leave_break};
use crate::outcomes::Turned;
use crate::pieces::Piece;
use crate::turns::make_turn;
use enclosure_regions::Region;
use flow_base::NoMemory;
use rv32im_machine::Machine;
use shadow_masks::Shadow;
use std::alloc::Global;
use transfer_rules::RuleBook;

/// How many turns the pieces make together at most.
const STEPS: u32 = 67_108_864;

/// A region that holds from an entry.
#[derive(Drop)]
pub struct Shown {
    /// How many turns a real state makes there at most: the entry, those inside and the leave.
    pub turns: u32,
    /// What real states have at the leave.
    pub endings: Endings,
    /// How many turns the pieces made together.
    pub steps: u32,
}

/// Whether a region was shown to hold from an entry.
#[derive(Drop)]
pub enum Holding {
    Shown(Shown),
    NotShown(HoldFault),
}

/// What is left to do, and what came out until now.
#[derive(Drop)]
struct Run {
    front: Front,
    endings: Endings,
    /// The most turns with which a piece has left the region.
    most: u32,
}

/// The piece leaves the region.
fn leave(alloc: Global, entry: &Entry<'_>, run: &mut Run, piece: &Piece) -> Result<Turned, NoMemory>
    requires { piece.now.turns < entry.now.turns_left }
{
    if let Some(broken) = leave_break(entry, piece) {
        return Ok(Turned::NotShown(HoldFault::Broken(broken)));
    }
    run.endings.add(alloc, ending_of(alloc, entry, piece)?)?;
    let turns = piece.turns + 1;
    if run.most < turns {
        run.most = turns;
    }
    Ok(Turned::Gone)
}

/// The next turn of a piece, the leave or one inside.
#[inline(always)]
fn step(
    alloc: Global,
    entry: &Entry<'_>,
    run: &mut Run,
    piece: &mut Piece,
) -> Result<Turned, NoMemory> {
    if piece.turns >= entry.turns_left {
        return Ok(Turned::NotShown(HoldFault::Turns { limit: entry.limit }));
    }
    if piece.pc == entry.region.leave {
        return leave(alloc, entry, run, piece);
    }
    make_turn(alloc, entry, piece)
}

/// A piece and those behind it wait, in order, and the next goes on.
fn wait_both(
    alloc: Global,
    entry: &Entry<'_>,
    run: &mut Run,
    piece: Piece,
    other: Piece,
) -> Result<Option<Piece>, NoMemory> {
    run.front.add(alloc, entry, piece)?;
    run.front.add(alloc, entry, other)?;
    Ok(run.front.pop())
}

fn wait_each(
    alloc: Global,
    entry: &Entry<'_>,
    run: &mut Run,
    pieces: Vec<Piece>,
) -> Result<Option<Piece>, NoMemory> {
    for piece in pieces {
        run.front.add(alloc, entry, piece)?;
    }
    Ok(run.front.pop())
}

/// A piece that goes on waits, if others come before it.
#[inline(always)]
fn go_on(
    alloc: Global,
    entry: &Entry<'_>,
    run: &mut Run,
    piece: Piece,
) -> Result<Option<Piece>, NoMemory> {
    if run.front.comes_first(&piece) {
        return Ok(Some(piece));
    }
    run.front.add(alloc, entry, piece)?;
    Ok(run.front.pop())
}

fn outcome(run: Run, steps: u32) -> Holding {
    let Run { endings, most, .. } = run;
    Holding::Shown(Shown {
        turns: most,
        endings,
        steps,
    })
}

/// Whether every real state that agrees with the machine at the entry of the region outside the masks of the shadow comes
/// to the leave within so many turns, the entry and the leave among them, breaks nothing and is not stopped. `limit` is
/// the number that a fault names for the turns. The one error is `NoMemory`.
pub fn hold(
    alloc: Global,
    machine: &Machine,
    shadow: &Shadow,
    region: &Region,
    book: &RuleBook,
    turns_left: u32,
    limit: u32,
) -> Result<Holding, NoMemory>
    requires one_base { shadow.now.base ≡ machine.now.setting.base }
    requires keeps_rules { IsTrue (is_region region.now) }
    requires has_ranges { IsTrue (are_inside region.now.ranges machine.now.store.registers
        machine.now.setting.base) }
{
    let entry = Entry {
        machine,
        shadow,
        region,
        book,
        turns_left,
        limit,
    };
    let mut run = Run {
        front: Front::new(alloc),
        endings: Endings::new(alloc),
        most: 0,
    };
    let mut piece = Piece::at_entry(alloc, &entry)?;
    for steps in 0..STEPS {
        let next = match step(alloc, &entry, &mut run, &mut piece)? {
            Turned::On => go_on(alloc, &entry, &mut run, piece)?,
            Turned::Beside(other) => wait_both(alloc, &entry, &mut run, piece, other)?,
            Turned::Each(pieces) => wait_each(alloc, &entry, &mut run, pieces)?,
            Turned::Gone => run.front.pop(),
            Turned::NotShown(fault) => return Ok(Holding::NotShown(fault)),
        };
        match next {
            Some(next) => piece = next,
            None => return Ok(outcome(run, steps + 1)),
        }
    }
    Ok(Holding::NotShown(HoldFault::Steps { limit: STEPS }))
}
