ghost use Rattle.std.specs.Prelude.{◌≡◌, ◌≢◌, IfOk, IsTrue, List as Seq, None, Some};
ghost use Rattle.flow_base.specs.declared.points.Point.{Point as ThePoint};
ghost use Rattle.enclosure_regions.specs.declared.region_parts.Region.{Region as TheRegion};
ghost use Rattle.enclosure_regions.specs.Regions.{is_region};
ghost use Rattle.region_machine.specs.Enclosures.{Enters, Steps, kind_of};
ghost use Rattle.region_machine.specs.Within.{can_leave, has_rules, may_leave, seen};
ghost use Rattle.replay_machine.specs.declared.outsides.Outside.{Outside as TheOutside};
ghost use Rattle.lockstep_replay.specs.Tasks.{Task};
ghost use Rattle.every_secret.specs.Masked.{MaskedPlace};
ghost use Rattle.every_secret.specs.Rules.{Rules};
ghost use Rattle.tracked_run.specs.Labels.{labels_of};
ghost use Rattle.every_secret.specs.Private.Resting.{Rests};
ghost use Rattle.every_secret.specs.Private.Tapes.{AreRulesOf, HoldsPlace, Lengthens, ruling_of, tape_of};
ghost use Rattle.every_secret.specs.Private.Turning.{IsReady, MakesFed, MakesKind};
ghost use Rattle.every_secret.specs.Turns.{masked_turn, skips as is_skip};

use crate::resting::{rest_of, rest_unless};
use crate::walking::Walking;
use crate::whys::UnclearWhy;
use enclosure_regions::Region;
use flow_base::NoMemory;
use region_machine::{GuestTurn, MarkedRegions, leave_by};
use replay_machine::{Outside, outside_at_entry, skip_or_enter};
use rv32im_machine::{Machine, turn_by};
use tracked_run::{Held, entered_number};

/// Whether a turn is the skip of one of the regions with these numbers.
#[inline(always)]
fn skips(turn: GuestTurn<'_>, skip: &[u16]) -> bool
    ensures { (regions : Seq TheRegion) →
        result ≡ is_skip (record { regions = regions; skip = skip.now }) (seen turn.entry) }
{
    match turn {
        GuestTurn::Enters(region) => skip.contains(&region.id),
        GuestTurn::Leaves(_) => false,
        GuestTurn::Steps(_) => false,
    }
}

/// The entry or the skip of a region: first the base registers are looked at, and then whether its ranges are inside
/// guest memory. The first range that is not is the answer, and then nothing is done.
/// `NoMemory` where there is not enough.
#[inline(never)]
fn enter(
    machine: &mut Machine,
    side: &mut Walking<'_>,
    region: &Region,
    skip: &[u16],
) -> Result<Option<Outside>, NoMemory>
    requires rules { IsTrue (is_region region.now) }
    requires base { side.old.shadow.base ≡ machine.old.setting.base }
    requires clear { side.old.unclear ≡ None }
    requires rest { Rests side.old.rest side.old.skipped side.old.masks (labels_of side.old.shadow side.old.held) side.old.unclear }
    ensures base { IfOk result (λ outside. side.new.shadow.base ≡ machine.new.setting.base) }
    ensures makes { IfOk result (λ outside. (regions : Seq TheRegion) →
        MakesKind (record { regions = regions; skip = skip.now }) (Enters region.now) side.old.region side.old.skipped
        side.old.held machine.old
        (tape_of (ruling_of side.old.book.now.table side.old.known) side.old.shadow side.old.masks side.old.bits side.old.crossed
        side.old.byte_masks.items side.old.status_mask side.old.unclear) outside machine.new
        (tape_of (ruling_of side.new.book.now.table side.new.known) side.new.shadow side.new.masks side.new.bits side.new.crossed
        side.new.byte_masks.items side.new.status_mask side.new.unclear)) }
{
    if let Some(register) = side.shadow.secret_base(region.ranges.as_slice()) {
        side.unclear = Some(UnclearWhy::BaseSecret {
            region: region.id,
            register,
        });
        return Ok(None);
    }
    match outside_at_entry(machine, region) {
        Some(outside) => Ok(Some(outside)),
        None => {
            skip_or_enter(machine, side, region, skip)?;
            Ok(None)
        }
    }
}

/// A turn of this kind.
/// `NoMemory` where there is not enough.
#[inline(always)]
fn make_kind(
    machine: &mut Machine,
    side: &mut Walking<'_>,
    turn: GuestTurn<'_>,
    skip: &[u16],
) -> Result<Option<Outside>, NoMemory>
    requires rules { IsTrue (has_rules (seen turn)) }
    requires leave { IsTrue (can_leave (seen turn) machine.old.store.kept machine.old.setting.base) }
    requires base { side.old.shadow.base ≡ machine.old.setting.base }
    requires clear { side.old.unclear ≡ None }
    requires rest { Rests side.old.rest side.old.skipped side.old.masks (labels_of side.old.shadow side.old.held) side.old.unclear }
    ensures base { IfOk result (λ outside. side.new.shadow.base ≡ machine.new.setting.base) }
    ensures makes { IfOk result (λ outside. (regions : Seq TheRegion) →
        MakesKind (record { regions = regions; skip = skip.now }) (seen turn.entry) side.old.region side.old.skipped
        side.old.held machine.old
        (tape_of (ruling_of side.old.book.now.table side.old.known) side.old.shadow side.old.masks side.old.bits side.old.crossed
        side.old.byte_masks.items side.old.status_mask side.old.unclear) outside machine.new
        (tape_of (ruling_of side.new.book.now.table side.new.known) side.new.shadow side.new.masks side.new.bits side.new.crossed
        side.new.byte_masks.items side.new.status_mask side.new.unclear)) }
{
    match turn {
        GuestTurn::Enters(region) => enter(machine, side, region, skip),
        GuestTurn::Leaves(region) => {
            leave_by(machine, side, region)?;
            Ok(None)
        }
        GuestTurn::Steps(_) => {
            turn_by(machine, side)?;
            Ok(None)
        }
    }
}

/// One turn of a walk: an instruction, the entry or the leave of a region, or its skip. A range that is not inside guest
/// memory at an entry or a skip is the answer, and then nothing is done.
/// `NoMemory` where there is not enough; the machine is then left in the middle of the turn.
#[inline(always)]
pub(crate) fn make_turn(
    machine: &mut Machine,
    side: &mut Walking<'_>,
    marked: &MarkedRegions,
    skip: &[u16],
) -> Result<Option<Outside>, NoMemory>
    requires { IsReady marked.now.regions.items machine.old (tape_of (ruling_of side.old.book.now.table side.old.known) side.old.shadow
        side.old.masks side.old.bits side.old.crossed side.old.byte_masks.items side.old.status_mask side.old.unclear) }
    ensures ruling { IfOk result (λ outside. (ruling_of side.new.book.now.table side.new.known) ≡ (ruling_of side.old.book.now.table side.old.known)) }
    ensures base { IfOk result (λ outside. side.new.shadow.base ≡ machine.new.setting.base) }
    ensures longer { IfOk result (λ outside. Lengthens side.old.bits side.new.bits) }
    ensures setting { IfOk result (λ outside. machine.new.setting ≡ machine.old.setting) }
    ensures secret { IfOk result (λ outside. machine.new.secret ≡ machine.old.secret) }
    ensures halts { IfOk result (λ outside. (range : TheOutside) → outside ≡ Some range →
        side.new.crossed ≡ side.old.crossed) }
    ensures ready { IfOk result (λ outside. outside ≡ None → side.new.unclear ≡ None →
        IsReady marked.now.regions.items machine.new (tape_of (ruling_of side.new.book.now.table side.new.known) side.new.shadow side.new.masks
        side.new.bits side.new.crossed side.new.byte_masks.items side.new.status_mask side.new.unclear)) }
    ensures makes { IfOk result (λ outside. (rules : Rules) (task : Task) (place : MaskedPlace) →
        AreRulesOf (ruling_of side.old.book.now.table side.old.known) rules →
        task.enclosures ≡ record { regions = marked.now.regions.items; skip = skip.now } →
        HoldsPlace task.masks place machine.old (tape_of (ruling_of side.old.book.now.table side.old.known) side.old.shadow side.old.masks
        side.old.bits side.old.crossed side.old.byte_masks.items side.old.status_mask side.old.unclear) →
        MakesFed task.masks (masked_turn rules task place) side.old.bits outside machine.new
        (tape_of (ruling_of side.new.book.now.table side.new.known) side.new.shadow side.new.masks side.new.bits side.new.crossed
        side.new.byte_masks.items side.new.status_mask side.new.unclear)) }
{
    let rest = rest_of(&side.masks, &side.shadow, machine.pc());
    let turn = marked.next_turn(machine);
    side.held = Held::none();
    side.region = entered_number(turn);
    side.skipped = skips(turn, skip);
    side.rest = rest_unless(side.skipped, rest);
    let outside = make_kind(machine, side, turn, skip)?;
    Ok(outside)
}
