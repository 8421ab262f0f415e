ghost use Rattle.std.specs.Prelude.{◌≡◌, None, Ok, IfOk, OnErr, IsTrue};
ghost use Rattle.tracked_run.specs.Labels.{clean_held};
ghost use Rattle.region_machine.specs.Enclosures.{kind_of};
ghost use Rattle.region_machine.specs.Guests.{guest_walk};
ghost use Rattle.region_machine.specs.Within.{may_leave, seen};
ghost use Rattle.run_labels.specs.Runs.{LabelledRun, broken_fault, stopped_fault, entered_number as number_entered};
ghost use Rattle.tracked_run.specs.Outcomes.{fault_of, spent_by, turn_answer};
ghost use Rattle.tracked_run.specs.Runs.{Stands, Turns, wants_memory};

use crate::changes::earlier;
use crate::held::Held;
use crate::outcomes::TrackedTurn;
use crate::tracking::Tracking;
use enclosure_regions::Break;
use flow_base::NoMemory;
use flow_graph::Events;
use region_machine::{GuestTurn, MarkedRegions, real_turn_by};
use run_labels::MeasureFault;
use rv32im_machine::{Machine, Stepped};
use shadow_masks::Shadow;
use transfer_rules::RuleBook;

/// The number of the region that a turn enters, 0: of none.
#[inline(always)]
pub fn entered_number(turn: GuestTurn<'_>) -> u16
    ensures { result ≡ number_entered (seen turn.entry) }
{
    match turn {
        GuestTurn::Enters(region) => region.id,
        GuestTurn::Leaves(_) => 0,
        GuestTurn::Steps(_) => 0,
    }
}

/// How the stop of a guest refuses a run.
fn stop_fault(mode: Stepped) -> Option<MeasureFault>
    ensures { result ≡ stopped_fault mode }
{
    match mode {
        Stepped::Ran => None,
        Stepped::Exited(_) => None,
        Stepped::Stopped(fault) => Some(MeasureFault::Guest(fault)),
    }
}

/// How the break of a region refuses a run.
fn break_fault(broken: Option<Break>) -> Option<MeasureFault>
    ensures { result ≡ broken_fault broken }
{
    broken.map(|broken| MeasureFault::Region(broken))
}

/// What a turn answers that leaves the guest in this mode, and that is refused so, if it is.
fn answer_in(fault: Option<MeasureFault>, mode: Stepped) -> TrackedTurn
    ensures { result ≡ turn_answer fault mode }
{
    match fault {
        Some(fault) => TrackedTurn::Refused(fault),
        None => match mode {
            Stepped::Ran => TrackedTurn::Ran,
            Stepped::Exited(status) => TrackedTurn::Exited(status),
            Stepped::Stopped(fault) => TrackedTurn::Refused(MeasureFault::Guest(fault)),
        },
    }
}

/// What a turn answers that leaves the machine so: whether it is refused for a look at what may depend on the secret, for
/// what breaks a region, or for the stop of the guest, in this order.
#[inline(never)]
fn decided_late(
    machine: &Machine,
    refused: Option<MeasureFault>,
    broken: Option<Break>,
) -> TrackedTurn
    ensures { result ≡ turn_answer (fault_of refused broken machine.now.control.mode) machine.now.control.mode }
{
    let mode = machine.mode();
    let later = earlier(break_fault(broken), stop_fault(mode));
    answer_in(earlier(refused, later), mode)
}

/// The same. Most turns have nothing to decide, and nothing is copied for them.
#[inline(always)]
fn decided(machine: &Machine, refused: &Option<MeasureFault>, broken: &Option<Break>) -> TrackedTurn
    ensures { result ≡ turn_answer (fault_of refused.now broken.now machine.now.control.mode) machine.now.control.mode }
{
    match (machine.mode(), refused, broken) {
        (Stepped::Ran, None, None) => TrackedTurn::Ran,
        _ => decided_late(machine, *refused, *broken),
    }
}

/// One turn of a measured run that begins with no operand and no refusal.
/// `NoMemory` where there is not enough; the machine is then left in the middle of the turn.
fn play_turn<E: Events>(
    machine: &mut Machine,
    side: &mut Tracking<'_, E>,
    marked: &MarkedRegions,
) -> Result<TrackedTurn, NoMemory>
    requires base { side.old.shadow.now.base ≡ machine.old.setting.base }
    requires leave { IsTrue (may_leave marked.now.regions.items machine.old) }
    requires held { side.old.held ≡ clean_held }
    requires region { side.old.region ≡ number_entered (kind_of marked.now.regions.items machine.old.control) }
    requires unrefused { side.old.refused ≡ None }
    ensures turns { IfOk result (λ turn. (run : LabelledRun) → Stands machine.old side.old.shadow.now run →
        Turns side.old.book.now.table marked.now.regions.items run (E.stands_for side.old.events.now)
        (E.stands_for side.new.events.now) machine.new side.new.shadow.now (Ok turn)) }
    ensures memory { OnErr result (IsTrue (wants_memory (guest_walk marked.now.regions.items machine.old))) }
    ensures base { IfOk result (λ turn. side.new.shadow.now.base ≡ machine.new.setting.base) }
    ensures leave { IfOk result (λ turn. spent_by (Ok turn) ≡ None →
        IsTrue (may_leave marked.now.regions.items machine.new)) }
    ensures shadow { IfOk result (λ turn. side.new.shadow.ghost_name ≡ side.old.shadow.ghost_name) }
    ensures events { IfOk result (λ turn. side.new.events.ghost_name ≡ side.old.events.ghost_name) }
{
    let turn = real_turn_by(machine, side, marked, &[])?;
    Ok(decided(machine, &side.refused, &turn.broken))
}

/// One turn of a measured run, whose events are added.
/// `NoMemory` where there is not enough; the machine is then left in the middle of the turn.
pub(crate) fn make_turn<E: Events>(
    machine: &mut Machine,
    shadow: &mut Shadow,
    events: &mut E,
    marked: &MarkedRegions,
    book: &RuleBook,
) -> Result<TrackedTurn, NoMemory>
    requires base { shadow.old.base ≡ machine.old.setting.base }
    requires leave { IsTrue (may_leave marked.now.regions.items machine.old) }
    ensures turns { (run : LabelledRun) → Stands machine.old shadow.old run →
        Turns book.now.table marked.now.regions.items run (E.stands_for events.old) (E.stands_for events.new) machine.new
        shadow.new result }
    ensures base { spent_by result ≡ None → shadow.new.base ≡ machine.new.setting.base }
    ensures leave { spent_by result ≡ None → IsTrue (may_leave marked.now.regions.items machine.new) }
{
    let region = entered_number(marked.next_turn(machine));
    let mut side = Tracking {
        shadow,
        events,
        book,
        held: Held::none(),
        region,
        refused: None,
    };
    let turn = play_turn(machine, &mut side, marked)?;
    Ok(turn)
}
