#![tactic(auto, unfolding(rv32im_machine::specs::Language::walked))]

ghost use Rattle.std.specs.Prelude.{◌≡◌, IsTrue};
ghost use Rattle.rv32im_machine.specs.Language.{turn_walk};
ghost use Rattle.rv32im_machine.specs.Playing.{Knows, outcome};
ghost use Rattle.enclosure_regions.specs.Regions.{is_region};
ghost use Rattle.region_machine.specs.Guests.{skip};
ghost use Rattle.region_machine.specs.Within.{are_inside};

use crate::clearing::{clear_ranges, clear_registers};
use crate::giving::give_outputs;
use enclosure_regions::Region;
use rv32im_machine::{Machine, Passer};

/// The skip of a region in place of its run, each value handed to a passer. It takes no memory of its own.
pub fn skip_by<P: Passer>(
    machine: &mut Machine,
    passer: &mut P,
    region: &Region,
) -> Result<(), P::Stop>
    requires memory { Knows (P.memory passer.old) machine.old.setting.base }
    requires rules { IsTrue (is_region region.now) }
    requires inside { IsTrue (are_inside region.now.ranges machine.old.store.registers machine.old.setting.base) }
    ensures plays { P.Plays passer.old
        (turn_walk machine.old (skip region.now machine.old.store.registers machine.old.control))
        (outcome result machine.new (P.tape passer.new)) }
    ensures memory { P.memory passer.new ≡ P.memory passer.old }
    ensures setting { machine.new.setting ≡ machine.old.setting }
{
    let registers = *machine.registers();
    clear_registers(machine, passer, region.outs.as_slice())?;
    clear_ranges(machine, passer, &registers, region.ranges.as_slice())?;
    give_outputs(machine, passer, region, &registers)?;
    machine.set_pc(region.leave);
    Ok(())
}
