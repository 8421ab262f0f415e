#![tactic(auto, unfolding(rv32im_machine::specs::Language::walked), using(rv32im_machine::proofs::Memories::known_inside))]

ghost use Rattle.std.specs.Prelude.{◌≡◌, ◌+◌, ◌≤◌, ◌<◌, ◌^◌, length, IsTrue};
ghost use Rattle.std.specs.List.{list_all};
ghost use Rattle.flow_base.specs.declared.points.Slot.TheVariants.{OutReg, OutRange};
ghost use Rattle.flow_base.specs.Points.{is_slot};
ghost use Rattle.flow_base.specs.Guests.{is_inside};
ghost use Rattle.rv32im_machine.specs.declared.language.Place.TheVariants.{Register, Byte};
ghost use Rattle.rv32im_machine.specs.Language.{Turn, Gives, turn_walk};
ghost use Rattle.rv32im_machine.specs.Playing.{Goes, Knows};
ghost use Rattle.enclosure_regions.specs.Regions.{is_range, is_region, is_register};
ghost use Rattle.region_machine.specs.Guests.{output_point as point_of};
ghost use Rattle.region_machine.specs.Guests.{gives, gives_bytes, gives_ranges, gives_registers};
ghost use Rattle.region_machine.specs.Within.{Stays, are_inside};

use enclosure_regions::{Range, Region, range_start};
use flow_base::{Point, Registers, Slot};
use rv32im_machine::{Aim, Machine, Passer, Passing, Place, Shape, Source, Sources, Work};

/// The point of an output of a region.
fn output_point(region: &Region, slot: Slot) -> Point
    requires { IsTrue (is_slot slot) }
    ensures { result ≡ point_of region.now slot }
{
    Point {
        region: region.id,
        address: region.leave,
        slot,
    }
}

/// An output register passes its point, and what goes on is put back.
fn give_register<P: Passer>(
    machine: &mut Machine,
    passer: &mut P,
    region: &Region,
    register: u8,
) -> Result<(), P::Stop>
    requires memory { Knows (P.memory passer.old) machine.old.setting.base }
    requires register { IsTrue (is_register register) }
    ensures memory { Knows (P.memory passer.new) machine.new.setting.base }
    ensures goes { (turn : Turn) → Goes result (λ done. P.Plays passer.new (turn_walk machine.new turn))
        (P.Plays passer.old (turn_walk machine.old
        (Gives (point_of region.now (OutReg register)) (Register register) turn))) }
    ensures stays { Stays machine.old machine.new }
    ensures same { P.memory passer.new ≡ P.memory passer.old }
{
    let place = Place::Register(register);
    let value = passer.pass(Passing {
        point: output_point(region, Slot::OutReg(register)),
        aim: Aim::Give(place),
        work: Work::Shaped(Shape::Copied),
        sources: Sources::One(Source::At(place)),
        value: machine.register(register),
    })?;
    machine.set_register(register, value);
    Ok(())
}

/// A byte of a range passes its point, and what goes on is put back.
fn give_byte<P: Passer>(
    machine: &mut Machine,
    passer: &mut P,
    region: &Region,
    range: u8,
    address: u32,
) -> Result<(), P::Stop>
    requires memory { Knows (P.memory passer.old) machine.old.setting.base }
    requires range { range < 64 }
    requires inside { IsTrue (is_inside machine.old.setting.base address 1) }
    ensures memory { Knows (P.memory passer.new) machine.new.setting.base }
    ensures goes { (turn : Turn) → Goes result (λ done. P.Plays passer.new (turn_walk machine.new turn))
        (P.Plays passer.old (turn_walk machine.old
        (Gives (point_of region.now (OutRange range)) (Byte address) turn))) }
    ensures stays { Stays machine.old machine.new }
    ensures same { P.memory passer.new ≡ P.memory passer.old }
{
    let place = Place::Byte(address);
    let value = passer.pass(Passing {
        point: output_point(region, Slot::OutRange(range)),
        aim: Aim::Give(place),
        work: Work::Shaped(Shape::Copied),
        sources: Sources::One(Source::At(place)),
        value: u32::from(machine.byte(address)),
    })?;
    machine.set_byte(address, value as u8);
    Ok(())
}

/// The output registers pass their points, in this order.
#[tactic(auto, unfolding(crate::specs::Guests::gives_registers))]
fn give_registers<P: Passer>(
    machine: &mut Machine,
    passer: &mut P,
    region: &Region,
    registers: &[u8],
) -> Result<(), P::Stop>
    requires memory { Knows (P.memory passer.old) machine.old.setting.base }
    requires registers { IsTrue (list_all is_register registers.now) }
    ensures memory { Knows (P.memory passer.new) machine.new.setting.base }
    ensures goes { (turn : Turn) → Goes result (λ done. P.Plays passer.new (turn_walk machine.new turn))
        (P.Plays passer.old (turn_walk machine.old (gives_registers region.now registers.now turn))) }
    ensures stays { Stays machine.old machine.new }
    ensures same { P.memory passer.new ≡ P.memory passer.old }
{
    let [register, more @ ..] = registers else {
        return Ok(());
    };
    give_register(machine, passer, region, *register)?;
    give_registers(machine, passer, region, more)
}

/// So many bytes from an address on pass their points, ascending.
fn give_bytes<P: Passer>(
    machine: &mut Machine,
    passer: &mut P,
    region: &Region,
    range: u8,
    address: u32,
    count: u32,
) -> Result<(), P::Stop>
    requires memory { Knows (P.memory passer.old) machine.old.setting.base }
    requires range { range < 64 }
    requires inside { IsTrue (is_inside machine.old.setting.base address count) }
    requires end { address + count ≤ 2 ^ 32 }
    ensures memory { Knows (P.memory passer.new) machine.new.setting.base }
    ensures goes { (turn : Turn) → Goes result (λ done. P.Plays passer.new (turn_walk machine.new turn))
        (P.Plays passer.old (turn_walk machine.old (gives_bytes region.now range address count turn))) }
    ensures stays { Stays machine.old machine.new }
    ensures same { P.memory passer.new ≡ P.memory passer.old }
{
    for i in 0..count {
        match give_byte(machine, passer, region, range, address + i) {
            Ok(()) => {}
            Err(stop) => return Err(stop),
        }
    }
    Ok(())
}

/// The bytes of the ranges pass their points, the ranges in this order; these are the registers at the entry, and this
/// is the number of the first of the ranges.
#[tactic(auto, unfolding(crate::specs::Guests::gives_ranges))]
fn give_ranges<P: Passer>(
    machine: &mut Machine,
    passer: &mut P,
    region: &Region,
    registers: &Registers,
    number: u8,
    ranges: &[Range],
) -> Result<(), P::Stop>
    requires memory { Knows (P.memory passer.old) machine.old.setting.base }
    requires number { number + length ranges.now ≤ 64 }
    requires ranges { IsTrue (list_all is_range ranges.now) }
    requires inside { IsTrue (are_inside ranges.now registers.now machine.old.setting.base) }
    ensures memory { Knows (P.memory passer.new) machine.new.setting.base }
    ensures goes { (turn : Turn) → Goes result (λ done. P.Plays passer.new (turn_walk machine.new turn))
        (P.Plays passer.old (turn_walk machine.old (gives_ranges region.now registers.now number ranges.now turn))) }
    ensures stays { Stays machine.old machine.new }
    ensures same { P.memory passer.new ≡ P.memory passer.old }
{
    let [range, more @ ..] = ranges else {
        return Ok(());
    };
    let start = range_start(registers, *range);
    give_bytes(machine, passer, region, number, start, range.length)?;
    give_ranges(machine, passer, region, registers, number + 1, more)
}

/// The outputs of a region pass their points: its registers, and then the bytes of its ranges, all ascending. These are
/// the registers at its entry.
pub(crate) fn give_outputs<P: Passer>(
    machine: &mut Machine,
    passer: &mut P,
    region: &Region,
    registers: &Registers,
) -> Result<(), P::Stop>
    requires memory { Knows (P.memory passer.old) machine.old.setting.base }
    requires rules { IsTrue (is_region region.now) }
    requires inside { IsTrue (are_inside region.now.ranges registers.now machine.old.setting.base) }
    ensures memory { Knows (P.memory passer.new) machine.new.setting.base }
    ensures goes { (turn : Turn) → Goes result (λ done. P.Plays passer.new (turn_walk machine.new turn))
        (P.Plays passer.old (turn_walk machine.old (gives region.now registers.now turn))) }
    ensures stays { Stays machine.old machine.new }
    ensures same { P.memory passer.new ≡ P.memory passer.old }
{
    give_registers(machine, passer, region, region.outs.as_slice())?;
    give_ranges(
        machine,
        passer,
        region,
        registers,
        0,
        region.ranges.as_slice(),
    )
}
