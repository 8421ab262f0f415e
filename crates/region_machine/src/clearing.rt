#![tactic(auto, unfolding(rv32im_machine::specs::Language::walked), using(rv32im_machine::proofs::Memories::known_inside))]

ghost use Rattle.std.specs.Prelude.{◌≡◌, ◌+◌, ◌≤◌, ◌<◌, ◌^◌, length, IsTrue};
ghost use Rattle.std.specs.List.{list_all};
ghost use Rattle.flow_base.specs.Guests.{is_inside};
ghost use Rattle.rv32im_machine.specs.declared.language.Place.TheVariants.{Register, Byte};
ghost use Rattle.rv32im_machine.specs.declared.language.Shape.TheVariants.{Copied};
ghost use Rattle.rv32im_machine.specs.declared.language.Source.TheVariants.{Constant};
ghost use Rattle.rv32im_machine.specs.Language.{Turn, Moves, turn_walk};
ghost use Rattle.rv32im_machine.specs.Playing.{Goes, Knows};
ghost use Rattle.enclosure_regions.specs.Regions.{is_range, is_register};
ghost use Rattle.region_machine.specs.Guests.{clears_bytes, clears_ranges, clears_registers};
ghost use Rattle.region_machine.specs.Within.{Stays, are_inside};

use enclosure_regions::{Range, range_start};
use flow_base::Registers;
use rv32im_machine::{Machine, Passer, Place, Shape, Source};

/// A register becomes 0.
fn clear_register<P: Passer>(
    machine: &mut Machine,
    passer: &mut P,
    register: u8,
) -> Result<(), P::Stop>
    requires memory { Knows (P.memory passer.old) machine.old.setting.base }
    requires register { IsTrue (is_register register) }
    ensures memory { Knows (P.memory passer.new) machine.new.setting.base }
    ensures goes { (turn : Turn) → Goes result (λ done. P.Plays passer.new (turn_walk machine.new turn))
        (P.Plays passer.old (turn_walk machine.old (Moves (Register register) Copied (Constant 0) turn))) }
    ensures stays { Stays machine.old machine.new }
    ensures same { P.memory passer.new ≡ P.memory passer.old }
{
    passer.move_to(
        Place::Register(register),
        Shape::Copied,
        Source::Constant(0),
        0,
    )?;
    machine.set_register(register, 0);
    Ok(())
}

/// A byte becomes 0.
fn clear_byte<P: Passer>(machine: &mut Machine, passer: &mut P, address: u32) -> Result<(), P::Stop>
    requires memory { Knows (P.memory passer.old) machine.old.setting.base }
    requires inside { IsTrue (is_inside machine.old.setting.base address 1) }
    ensures memory { Knows (P.memory passer.new) machine.new.setting.base }
    ensures goes { (turn : Turn) → Goes result (λ done. P.Plays passer.new (turn_walk machine.new turn))
        (P.Plays passer.old (turn_walk machine.old (Moves (Byte address) Copied (Constant 0) turn))) }
    ensures stays { Stays machine.old machine.new }
    ensures same { P.memory passer.new ≡ P.memory passer.old }
{
    passer.move_to(Place::Byte(address), Shape::Copied, Source::Constant(0), 0)?;
    machine.set_byte(address, 0);
    Ok(())
}

/// The registers become 0.
#[tactic(auto, unfolding(crate::specs::Guests::clears_registers))]
pub(crate) fn clear_registers<P: Passer>(
    machine: &mut Machine,
    passer: &mut P,
    registers: &[u8],
) -> Result<(), P::Stop>
    requires memory { Knows (P.memory passer.old) machine.old.setting.base }
    requires registers { IsTrue (list_all is_register registers.now) }
    ensures memory { Knows (P.memory passer.new) machine.new.setting.base }
    ensures goes { (turn : Turn) → Goes result (λ done. P.Plays passer.new (turn_walk machine.new turn))
        (P.Plays passer.old (turn_walk machine.old (clears_registers registers.now turn))) }
    ensures stays { Stays machine.old machine.new }
    ensures same { P.memory passer.new ≡ P.memory passer.old }
{
    let [register, more @ ..] = registers else {
        return Ok(());
    };
    clear_register(machine, passer, *register)?;
    clear_registers(machine, passer, more)
}

/// So many bytes from an address on become 0.
fn clear_bytes<P: Passer>(
    machine: &mut Machine,
    passer: &mut P,
    address: u32,
    count: u32,
) -> Result<(), P::Stop>
    requires memory { Knows (P.memory passer.old) machine.old.setting.base }
    requires inside { IsTrue (is_inside machine.old.setting.base address count) }
    requires end { address + count ≤ 2 ^ 32 }
    ensures memory { Knows (P.memory passer.new) machine.new.setting.base }
    ensures goes { (turn : Turn) → Goes result (λ done. P.Plays passer.new (turn_walk machine.new turn))
        (P.Plays passer.old (turn_walk machine.old (clears_bytes address count turn))) }
    ensures stays { Stays machine.old machine.new }
    ensures same { P.memory passer.new ≡ P.memory passer.old }
{
    for i in 0..count {
        match clear_byte(machine, passer, address + i) {
            Ok(()) => {}
            Err(stop) => return Err(stop),
        }
    }
    Ok(())
}

/// The bytes of the ranges become 0; these are the registers at the entry.
#[tactic(auto, unfolding(crate::specs::Guests::clears_ranges))]
pub(crate) fn clear_ranges<P: Passer>(
    machine: &mut Machine,
    passer: &mut P,
    registers: &Registers,
    ranges: &[Range],
) -> Result<(), P::Stop>
    requires memory { Knows (P.memory passer.old) machine.old.setting.base }
    requires ranges { IsTrue (list_all is_range ranges.now) }
    requires inside { IsTrue (are_inside ranges.now registers.now machine.old.setting.base) }
    ensures memory { Knows (P.memory passer.new) machine.new.setting.base }
    ensures goes { (turn : Turn) → Goes result (λ done. P.Plays passer.new (turn_walk machine.new turn))
        (P.Plays passer.old (turn_walk machine.old (clears_ranges registers.now ranges.now turn))) }
    ensures stays { Stays machine.old machine.new }
    ensures same { P.memory passer.new ≡ P.memory passer.old }
{
    let [range, more @ ..] = ranges else {
        return Ok(());
    };
    clear_bytes(
        machine,
        passer,
        range_start(registers, *range),
        range.length,
    )?;
    clear_ranges(machine, passer, registers, more)
}
