ghost use Rattle.std.specs.Prelude.{◌≡◌, IsTrue, List as Seq};
ghost use Rattle.rv32im_machine.specs.Playing.{Knows, outcome};
ghost use Rattle.enclosure_regions.specs.declared.region_parts.Region.{Region as TheRegion};
ghost use Rattle.replay_machine.specs.ReplayTurns.{replay_kind_walk};
ghost use Rattle.region_machine.specs.Within.{can_leave, can_skip, has_rules, seen};

use crate::entries::skip_or_enter;
use region_machine::{GuestTurn, leave_by};
use rv32im_machine::{Machine, Passer, turn_by};

/// A turn of this kind of a replay that skips the regions with these numbers.
#[inline(always)]
pub(crate) fn replay_turn_by<P: Passer>(
    machine: &mut Machine,
    passer: &mut P,
    turn: GuestTurn<'_>,
    skip: &[u16],
) -> Result<(), P::Stop>
    requires memory { Knows (P.memory passer.old) machine.old.setting.base }
    requires rules { IsTrue (has_rules (seen turn)) }
    requires leave { IsTrue (can_leave (seen turn) machine.old.store.kept machine.old.setting.base) }
    requires skip { IsTrue (can_skip (seen turn) machine.old.store.registers machine.old.setting.base) }
    ensures { (regions : Seq TheRegion) →
        P.Plays passer.old
        (replay_kind_walk (record { regions = regions; skip = skip.now }) (seen turn.entry) machine.old)
        (outcome result machine.new (P.tape passer.new)) }
{
    match turn {
        GuestTurn::Enters(region) => skip_or_enter(machine, passer, region, skip),
        GuestTurn::Leaves(region) => leave_by(machine, passer, region),
        GuestTurn::Steps(_) => turn_by(machine, passer),
    }
}
