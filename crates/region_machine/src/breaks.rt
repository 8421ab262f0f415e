ghost use Rattle.std.specs.Prelude.{◌≡◌, IsTrue};
ghost use Rattle.enclosure_regions.specs.Regions.{is_region};
ghost use Rattle.region_machine.specs.Breaking.{place_break as break_by_place, slot_break as break_by_slot};
ghost use Rattle.region_machine.specs.Breaking.{passing_break as break_by_passing};
ghost use Rattle.std.specs.Option.{option_or};

use enclosure_regions::{Break, Region, written_byte, written_register};
use flow_base::{Registers, Slot};
use rv32im_machine::{Aim, Passing, Place};

/// The earlier of two breaks.
#[inline(always)]
pub(crate) fn earlier(first: Option<Break>, second: Option<Break>) -> Option<Break>
    ensures { result ≡ option_or first second }
{
    first.or(second)
}

/// How the write of a place by the instruction at an address breaks the region, if it does.
#[inline(always)]
pub(crate) fn place_break(region: &Region, kept: &Registers, pc: u32, place: Place) -> Option<Break>
    requires { IsTrue (is_region region.now) }
    ensures { result ≡ break_by_place region.now kept.now pc place }
{
    match place {
        Place::Register(register) => written_register(region, pc, register),
        Place::Byte(address) => written_byte(region, kept, pc, address),
        Place::First => None,
        Place::Second => None,
    }
}

/// How a decision of the instruction at an address breaks the region, if it does: the number of a call.
#[inline(always)]
fn slot_break(region: &Region, pc: u32, slot: Slot) -> Option<Break>
    ensures { result ≡ break_by_slot region.now pc slot }
{
    match slot {
        Slot::Number => Some(Break::CallInRegion {
            region: region.id,
            pc,
        }),
        _ => None,
    }
}

/// How what passes breaks the region, if it does.
#[inline(always)]
pub(crate) fn passing_break(
    region: &Region,
    kept: &Registers,
    pc: u32,
    passing: &Passing,
) -> Option<Break>
    requires { IsTrue (is_region region.now) }
    ensures { result ≡ break_by_passing region.now kept.now pc passing.now }
{
    match passing.aim {
        Aim::Put(place) => place_break(region, kept, pc, place),
        Aim::Decide => slot_break(region, pc, passing.point.slot),
        Aim::Give(_) => None,
    }
}
