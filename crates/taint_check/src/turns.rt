ghost use Rattle.std.specs.Prelude.{◌≡◌, List as Seq, Bool as Truth, IfOk, None};
ghost use Rattle.enclosure_regions.specs.declared.region_parts.Region.{Region as TheRegion};
ghost use Rattle.region_machine.specs.Enclosures.{Steps, is_enclosed_kind, kind_of};
ghost use Rattle.region_machine.specs.Within.{seen};
ghost use Rattle.lockstep_replay.specs.Tasks.{Task, Limits};
ghost use Rattle.taint_check.specs.Cleared.{MaskedRun, is_hidden, leaves_skipped as is_skipped_leave};
ghost use Rattle.taint_check.specs.Reasons.{unclear_of};
ghost use Rattle.taint_check.specs.Private.Turns.{IsReady, Stands, MakesMasked};
ghost use Rattle.taint_check.specs.Private.Tapes.{tape_of};

use crate::clearing::Clearing;
use crate::reasons::reason;
use crate::whys::TaintWhy;
use enclosure_regions::Break;
use flow_base::NoMemory;
use region_machine::{GuestTurn, MarkedRegions, real_turn_by};
use rv32im_machine::{Machine, turn_by};
use tracked_run::{Held, entered_number};

/// Whether a turn is the leave of one of the regions with these numbers.
fn leaves_skipped(turn: GuestTurn<'_>, skip: &[u16]) -> bool
    ensures { (regions : Seq TheRegion) →
        result ≡ is_skipped_leave (record { regions = regions; skip = skip.now }) (seen turn.entry) }
{
    match turn {
        GuestTurn::Enters(_) => false,
        GuestTurn::Leaves(region) => skip.contains(&region.id),
        GuestTurn::Steps(_) => false,
    }
}

/// The numbers of the regions inside which a turn is hidden: at an entry of none.
fn hiding<'s>(turn: GuestTurn<'_>, skip: &'s [u16]) -> &'s [u16]
    ensures { (regions : Seq TheRegion) →
        is_enclosed_kind (record { regions = regions; skip = result.now }) (seen turn.entry)
        ≡ is_hidden (record { regions = regions; skip = skip.now }) (seen turn.entry) }
{
    match turn {
        GuestTurn::Enters(_) => &[],
        GuestTurn::Leaves(_) => skip,
        GuestTurn::Steps(_) => skip,
    }
}

/// Why a turn leaves the check unclear that breaks a region so, if it does either.
#[inline(always)]
fn reason_of(machine: &Machine, side: &Clearing<'_>, broken: Option<Break>) -> Option<TaintWhy>
    ensures { result ≡ unclear_of side.now.look broken machine.now.control.mode side.now.tally.budget side.now.tally.needed
        side.now.left }
{
    reason(
        side.look,
        broken,
        machine.mode(),
        side.tally.budget,
        side.tally.needed,
        side.left,
    )
}

/// One step outside of regions.
#[inline(always)]
fn make_step(
    machine: &mut Machine,
    side: &mut Clearing<'_>,
    _marked: &MarkedRegions,
    _skip: &[u16],
) -> Result<Option<TaintWhy>, NoMemory>
    requires outside { kind_of _marked.now.regions.items machine.old.control ≡ Steps None }
    requires ready { IsReady _marked.now.regions.items machine.old (tape_of side.old.book.now.table side.old.shadow side.old.tally
        side.old.look side.old.left) }
    ensures makes { IfOk result (λ why. (task : Task) (limits : Limits) (run : MaskedRun) (cross : Seq Truth) →
        task.enclosures ≡ record { regions = _marked.now.regions.items; skip = _skip.now } →
        Stands task limits run cross machine.old (tape_of side.old.book.now.table side.old.shadow side.old.tally
        side.old.look side.old.left) →
        MakesMasked side.old.book.now.table task limits run cross machine.new (tape_of side.new.book.now.table side.new.shadow side.new.tally
        side.new.look side.new.left) why) }
    ensures ready { IfOk result (λ why. why ≡ None → IsReady _marked.now.regions.items machine.new (tape_of side.new.book.now.table side.new.shadow side.new.tally
        side.new.look side.new.left)) }
    ensures table { IfOk result (λ why. side.new.book.now.table ≡ side.old.book.now.table) }
{
    side.held = Held::none();
    side.region = 0;
    side.skipped = false;
    turn_by(machine, side)?;
    Ok(reason_of(machine, side, None))
}

/// One turn of any kind.
#[inline(never)]
fn make_region_turn(
    machine: &mut Machine,
    side: &mut Clearing<'_>,
    marked: &MarkedRegions,
    skip: &[u16],
) -> Result<Option<TaintWhy>, NoMemory>
    requires { IsReady marked.now.regions.items machine.old (tape_of side.old.book.now.table side.old.shadow side.old.tally
        side.old.look side.old.left) }
    ensures makes { IfOk result (λ why. (task : Task) (limits : Limits) (run : MaskedRun) (cross : Seq Truth) →
        task.enclosures ≡ record { regions = marked.now.regions.items; skip = skip.now } →
        Stands task limits run cross machine.old (tape_of side.old.book.now.table side.old.shadow side.old.tally
        side.old.look side.old.left) →
        MakesMasked side.old.book.now.table task limits run cross machine.new (tape_of side.new.book.now.table side.new.shadow side.new.tally
        side.new.look side.new.left) why) }
    ensures ready { IfOk result (λ why. why ≡ None → IsReady marked.now.regions.items machine.new (tape_of side.new.book.now.table side.new.shadow side.new.tally
        side.new.look side.new.left)) }
    ensures table { IfOk result (λ why. side.new.book.now.table ≡ side.old.book.now.table) }
{
    let turn = marked.next_turn(machine);
    side.held = Held::none();
    side.region = entered_number(turn);
    side.skipped = leaves_skipped(turn, skip);
    let made = real_turn_by(machine, side, marked, hiding(turn, skip))?;
    Ok(reason_of(machine, side, made.broken))
}

/// One turn of a run with masks: why it leaves the check unclear, if it does.
/// `NoMemory` where there is not enough; the machine is then left in the middle of the turn.
#[inline(always)]
pub(crate) fn make_turn(
    machine: &mut Machine,
    side: &mut Clearing<'_>,
    marked: &MarkedRegions,
    skip: &[u16],
) -> Result<Option<TaintWhy>, NoMemory>
    requires { IsReady marked.now.regions.items machine.old (tape_of side.old.book.now.table side.old.shadow side.old.tally
        side.old.look side.old.left) }
    ensures makes { IfOk result (λ why. (task : Task) (limits : Limits) (run : MaskedRun) (cross : Seq Truth) →
        task.enclosures ≡ record { regions = marked.now.regions.items; skip = skip.now } →
        Stands task limits run cross machine.old (tape_of side.old.book.now.table side.old.shadow side.old.tally
        side.old.look side.old.left) →
        MakesMasked side.old.book.now.table task limits run cross machine.new (tape_of side.new.book.now.table side.new.shadow side.new.tally
        side.new.look side.new.left) why) }
    ensures ready { IfOk result (λ why. why ≡ None → IsReady marked.now.regions.items machine.new (tape_of side.new.book.now.table side.new.shadow side.new.tally
        side.new.look side.new.left)) }
    ensures table { IfOk result (λ why. side.new.book.now.table ≡ side.old.book.now.table) }
{
    if marked.is_outside(machine) {
        make_step(machine, side, marked, skip)
    } else {
        make_region_turn(machine, side, marked, skip)
    }
}
