#![tactic(auto, unfolding(rv32im_machine::specs::Language::walked))]

ghost use Rattle.std.specs.Prelude.{◌≡◌, IsTrue};
ghost use Rattle.std.specs.List.{list_all};
ghost use Rattle.rv32im_machine.specs.Language.{Turn, turn_walk};
ghost use Rattle.rv32im_machine.specs.Playing.{Goes, outcome};
ghost use Rattle.enclosure_regions.specs.Regions.{is_base_register, is_range, is_region};
ghost use Rattle.region_machine.specs.Guests.{entry, looks, looks_at};

use enclosure_regions::{Range, Region};
use rv32im_machine::{Machine, Passer, Seen};

/// The base register of a range, if it has one, is looked at.
fn look_at<P: Passer>(machine: &Machine, passer: &mut P, base: Option<u8>) -> Result<(), P::Stop>
    requires { IsTrue (is_base_register base) }
    ensures goes { (turn : Turn) → Goes result (λ done. P.Plays passer.new (turn_walk machine.now turn))
        (P.Plays passer.old (turn_walk machine.now (looks_at base turn))) }
    ensures memory { P.memory passer.new ≡ P.memory passer.old }
{
    match base {
        Some(register) => passer.look(Seen::Base(register), machine.register(register)),
        None => Ok(()),
    }
}

/// The base registers of the ranges are looked at, in this order.
#[tactic(auto, unfolding(crate::specs::Guests::looks))]
fn look_at_bases<P: Passer>(
    machine: &Machine,
    passer: &mut P,
    ranges: &[Range],
) -> Result<(), P::Stop>
    requires { IsTrue (list_all is_range ranges.now) }
    ensures goes { (turn : Turn) → Goes result (λ done. P.Plays passer.new (turn_walk machine.now turn))
        (P.Plays passer.old (turn_walk machine.now (looks ranges.now turn))) }
    ensures memory { P.memory passer.new ≡ P.memory passer.old }
{
    let [range, more @ ..] = ranges else {
        return Ok(());
    };
    look_at(machine, passer, range.base)?;
    look_at_bases(machine, passer, more)
}

/// The entry of a region, each value handed to a passer. It takes no memory of its own.
pub fn enter_by<P: Passer>(
    machine: &mut Machine,
    passer: &mut P,
    region: &Region,
) -> Result<(), P::Stop>
    requires { IsTrue (is_region region.now) }
    ensures plays { P.Plays passer.old (turn_walk machine.old (entry region.now machine.old.control))
        (outcome result machine.new (P.tape passer.new)) }
    ensures memory { P.memory passer.new ≡ P.memory passer.old }
    ensures setting { machine.new.setting ≡ machine.old.setting }
{
    look_at_bases(machine, passer, region.ranges.as_slice())?;
    passer.save()?;
    machine.save();
    machine.set_region(region.id);
    Ok(())
}
