//! The entry of a region in a replay.

ghost use Rattle.std.specs.Prelude.{◌≡◌, None, IsTrue, List as Seq};
ghost use Rattle.enclosure_regions.specs.Breaks.{outside_range};
ghost use Rattle.enclosure_regions.specs.declared.region_parts.Region.{Region as TheRegion};
ghost use Rattle.enclosure_regions.specs.Regions.{is_region};
ghost use Rattle.region_machine.specs.Within.{are_inside};
ghost use Rattle.replay_machine.specs.ReplayTurns.{entry_walk, outside_of};
ghost use Rattle.rv32im_machine.specs.Playing.{Knows, outcome};

use crate::outsides::Outside;
use enclosure_regions::{Region, first_outside};
use region_machine::{enter_by, skip_by};
use rv32im_machine::{Machine, Passer};

/// The first range that is not inside guest memory at the entry of a region.
#[inline(always)]
pub fn outside_at_entry(machine: &Machine, region: &Region) -> Option<Outside>
    requires { IsTrue (is_region region.now) }
    ensures outside { result ≡
        outside_of region.now (outside_range region.now machine.now.store.registers machine.now.setting.base) }
    ensures inside { result ≡ None →
        IsTrue (are_inside region.now.ranges machine.now.store.registers machine.now.setting.base) }
{
    match first_outside(region, machine.registers(), machine.base()) {
        Some(range) => Some(Outside {
            region: region.id,
            range,
        }),
        None => None,
    }
}

/// The entry of a region in a replay, whose ranges are inside guest memory: its skip, if it is one of those with these
/// numbers. What the passer is asked is what the walk of that entry or skip asks, in its order; a stop of the passer ends
/// it.
pub fn skip_or_enter<P: Passer>(
    machine: &mut Machine,
    passer: &mut P,
    region: &Region,
    skip: &[u16],
) -> Result<(), P::Stop>
    requires memory { Knows (P.memory passer.old) machine.old.setting.base }
    requires rules { IsTrue (is_region region.now) }
    requires inside { IsTrue (are_inside region.now.ranges machine.old.store.registers machine.old.setting.base) }
    ensures plays { (regions : Seq TheRegion) →
        P.Plays passer.old (entry_walk (record { regions = regions; skip = skip.now }) region.now machine.old)
        (outcome result machine.new (P.tape passer.new)) }
    ensures memory { P.memory passer.new ≡ P.memory passer.old }
    ensures setting { machine.new.setting ≡ machine.old.setting }
{
    if skip.contains(&region.id) {
        skip_by(machine, passer, region)
    } else {
        enter_by(machine, passer, region)
    }
}
