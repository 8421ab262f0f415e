ghost use Rattle.std.specs.Prelude.{◌≡◌, ◌≢◌, [], length, IsTrue, Option as Maybe, None, List as Seq};
ghost use Rattle.flow_base.specs.declared.points.Point.{Point as ThePoint};
ghost use Rattle.crossing_bits.specs.Askers.{feed};
ghost use Rattle.crossing_bits.specs.Strings.{left_of};
ghost use Rattle.enclosure_regions.specs.declared.region_parts.Region.{Region as TheRegion};
ghost use Rattle.replay_machine.specs.Runs.{Masks, replayed};
ghost use Rattle.replay_machine.specs.Visits.{IsAhead};
ghost use Rattle.replay_machine.specs.Private.Sides.{Side, Comes};
ghost use Rattle.replay_machine.specs.ReplayTurns.{replay_kind_walk, replay_walk};
ghost use Rattle.replay_machine.specs.ReplayTurns.{kind_outside_range, range_outside};
ghost use Rattle.enclosure_regions.specs.Breaks.{outside_range};
ghost use Rattle.region_machine.specs.Within.{can_leave, can_skip, has_rules, may_leave, seen};

use crate::entries::outside_at_entry;
use crate::outsides::Outside;
use crate::replay_turns::replay_turn_by;
use crate::replays::Replaying;
use crossing_bits::Bits;
use region_machine::{GuestTurn, MarkedRegions};
use rv32im_machine::Machine;
use std::mem;

/// The first range that is not inside guest memory, where the turn is an entry.
#[inline(always)]
fn outside_at(machine: &Machine, turn: GuestTurn<'_>) -> Option<Outside>
    requires { IsTrue (has_rules (seen turn)) }
    ensures outside { result ≡ kind_outside_range (seen turn.entry) machine.now }
    ensures inside { result ≡ None →
        IsTrue (can_skip (seen turn.entry) machine.now.store.registers machine.now.setting.base) }
{
    match turn {
        GuestTurn::Enters(region) => outside_at_entry(machine, region),
        GuestTurn::Leaves(_) => None,
        GuestTurn::Steps(_) => None,
    }
}

/// One turn of this kind where no bits are left, which the side of the replay then need not be lent: it has none of its
/// own.
#[inline(always)]
fn play_unlent(
    machine: &mut Machine,
    side: &mut Replaying<'_>,
    turn: GuestTurn<'_>,
    skip: &[u16],
    _bits: &Bits,
)
    requires missing { side.old.missing ≡ 0 }
    requires own { side.old.bits.bits ≡ [] }
    requires none { length (left_of _bits.now) ≡ 0 }
    requires rules { IsTrue (has_rules (seen turn)) }
    requires leave { IsTrue (can_leave (seen turn) machine.old.store.kept machine.old.setting.base) }
    requires skip { IsTrue (can_skip (seen turn) machine.old.store.registers machine.old.setting.base) }
    ensures own { side.new.bits.bits ≡ [] }
    ensures comes { (regions : Seq TheRegion) (masks : Masks) (past : Seq ThePoint) →
        IsAhead side.old.masks masks past →
        Comes masks _bits.now
        (feed (replayed masks past
        (replay_kind_walk (record { regions = regions; skip = skip.now }) (seen turn.entry) machine.old))
        (left_of _bits.now)) machine.new
        (record { ahead = side.new.masks; stream = _bits.now; missing = side.new.missing }) }
{
    let _ = replay_turn_by(machine, side, turn, skip);
}

/// One turn of this kind, to which the bits that are left are lent.
#[inline(never)]
fn play_lent(
    machine: &mut Machine,
    side: &mut Replaying<'_>,
    turn: GuestTurn<'_>,
    skip: &[u16],
    bits: &mut Bits,
)
    requires missing { side.old.missing ≡ 0 }
    requires own { side.old.bits.bits ≡ [] }
    requires rules { IsTrue (has_rules (seen turn)) }
    requires leave { IsTrue (can_leave (seen turn) machine.old.store.kept machine.old.setting.base) }
    requires skip { IsTrue (can_skip (seen turn) machine.old.store.registers machine.old.setting.base) }
    ensures own { side.new.bits.bits ≡ [] }
    ensures comes { (regions : Seq TheRegion) (masks : Masks) (past : Seq ThePoint) →
        IsAhead side.old.masks masks past →
        Comes masks bits.old
        (feed (replayed masks past
        (replay_kind_walk (record { regions = regions; skip = skip.now }) (seen turn.entry) machine.old))
        (left_of bits.old)) machine.new
        (record { ahead = side.new.masks; stream = bits.new; missing = side.new.missing }) }
{
    mem::swap(&mut side.bits, bits);
    let _ = replay_turn_by(machine, side, turn, skip);
    mem::swap(&mut side.bits, bits);
}

/// One turn of this kind on the bits that are left. Mostly none are, and nothing is then lent.
#[inline(always)]
fn play_turn(
    machine: &mut Machine,
    side: &mut Replaying<'_>,
    turn: GuestTurn<'_>,
    skip: &[u16],
    bits: &mut Bits,
)
    requires missing { side.old.missing ≡ 0 }
    requires own { side.old.bits.bits ≡ [] }
    requires rules { IsTrue (has_rules (seen turn)) }
    requires leave { IsTrue (can_leave (seen turn) machine.old.store.kept machine.old.setting.base) }
    requires skip { IsTrue (can_skip (seen turn) machine.old.store.registers machine.old.setting.base) }
    ensures own { side.new.bits.bits ≡ [] }
    ensures comes { (regions : Seq TheRegion) (masks : Masks) (past : Seq ThePoint) →
        IsAhead side.old.masks masks past →
        Comes masks bits.old
        (feed (replayed masks past
        (replay_kind_walk (record { regions = regions; skip = skip.now }) (seen turn.entry) machine.old))
        (left_of bits.old)) machine.new
        (record { ahead = side.new.masks; stream = bits.new; missing = side.new.missing }) }
{
    if bits.left() == 0 {
        play_unlent(machine, side, turn, skip, bits);
    } else {
        play_lent(machine, side, turn, skip, bits);
    }
}

/// One turn on the bits that are left of a replay that skips the regions with these numbers; where it is the entry of a
/// region with a range outside of guest memory, nothing is done.
#[inline(always)]
pub(crate) fn play(
    machine: &mut Machine,
    side: &mut Replaying<'_>,
    marked: &MarkedRegions,
    skip: &[u16],
    bits: &mut Bits,
) -> Option<Outside>
    requires missing { side.old.missing ≡ 0 }
    requires own { side.old.bits.bits ≡ [] }
    requires leave { IsTrue (may_leave marked.now.regions.items machine.old) }
    ensures own { side.new.bits.bits ≡ [] }
    ensures outside { result ≡ range_outside marked.now.regions.items machine.old }
    ensures still { result ≢ None →
        (machine.new ≡ machine.old) × (side.new ≡ side.old) × (bits.new ≡ bits.old) }
    ensures turn { result ≡ None → (masks : Masks) (past : Seq ThePoint) → IsAhead side.old.masks masks past →
        Comes masks bits.old
        (feed (replayed masks past
        (replay_walk (record { regions = marked.now.regions.items; skip = skip.now }) machine.old))
        (left_of bits.old)) machine.new
        (record { ahead = side.new.masks; stream = bits.new; missing = side.new.missing }) }
    ensures leave { side.new.missing ≡ 0 → IsTrue (may_leave marked.now.regions.items machine.new) }
{
    let turn = marked.next_turn(machine);
    match outside_at(machine, turn) {
        Some(outside) => Some(outside),
        None => {
            play_turn(machine, side, turn, skip, bits);
            None
        }
    }
}
