#![tactic(auto, unfolding(rv32im_machine::specs::Language::walked))]

ghost use Rattle.std.specs.Prelude.{◌≡◌, ◌<◌, All, IsTrue};
ghost use Rattle.rv32im_machine.specs.Language.{Turn, Restores, turn_walk};
ghost use Rattle.rv32im_machine.specs.Playing.{Goes, Knows, outcome};
ghost use Rattle.enclosure_regions.specs.Regions.{is_region};
ghost use Rattle.region_machine.specs.Guests.{leave};
ghost use Rattle.region_machine.specs.Within.{Stays, are_inside};

use crate::giving::give_outputs;
use enclosure_regions::Region;
use rv32im_machine::{Machine, Passer};

/// These registers are put back to what was kept, where the passer says so.
fn put_back<P: Passer>(
    machine: &mut Machine,
    passer: &mut P,
    registers: &[u8],
) -> Result<(), P::Stop>
    requires memory { Knows (P.memory passer.old) machine.old.setting.base }
    requires registers { All (λ register. register < 32) registers.now }
    ensures memory { Knows (P.memory passer.new) machine.new.setting.base }
    ensures goes { (turn : Turn) → Goes result (λ done. P.Plays passer.new (turn_walk machine.new turn))
        (P.Plays passer.old (turn_walk machine.old (Restores registers.now turn))) }
    ensures stays { Stays machine.old machine.new }
    ensures same { P.memory passer.new ≡ P.memory passer.old }
{
    if passer.restore(registers)? {
        machine.restore(registers);
        return Ok(());
    }
    Ok(())
}

/// The leave of a region, each value handed to a passer. It takes no memory of its own.
pub fn leave_by<P: Passer>(
    machine: &mut Machine,
    passer: &mut P,
    region: &Region,
) -> Result<(), P::Stop>
    requires memory { Knows (P.memory passer.old) machine.old.setting.base }
    requires rules { IsTrue (is_region region.now) }
    requires inside { IsTrue (are_inside region.now.ranges machine.old.store.kept machine.old.setting.base) }
    ensures plays { P.Plays passer.old (turn_walk machine.old (leave region.now machine.old.store.kept machine.old.control))
        (outcome result machine.new (P.tape passer.new)) }
    ensures memory { P.memory passer.new ≡ P.memory passer.old }
    ensures setting { machine.new.setting ≡ machine.old.setting }
{
    let registers = *machine.kept();
    put_back(machine, passer, region.keep.as_slice())?;
    give_outputs(machine, passer, region, &registers)?;
    machine.set_region(0);
    Ok(())
}
