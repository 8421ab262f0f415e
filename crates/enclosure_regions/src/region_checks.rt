ghost use Rattle.std.specs.Prelude.{◌≡◌, ◌<◌, IsTrue, IfSome};
ghost use Rattle.std.specs.List.{find, list_all};
ghost use Rattle.enclosure_regions.specs.Breaks.{byte_break, declares_register, has_changed, keep_break};
ghost use Rattle.enclosure_regions.specs.Breaks.{register_changed, range_break};
ghost use Rattle.enclosure_regions.specs.Breaks.{register_break};
ghost use Rattle.enclosure_regions.specs.Regions.{is_region, is_register};

use crate::break_kinds::{Break, Place};
use crate::ranges_of_regions::{first_outside, has_byte};
use crate::region_parts::Region;
use flow_base::Registers;

// Whether the region declares a register, or the register is x0.
fn has_register(region: &Region, register: u8) -> bool
    ensures { result ≡ declares_register region.now register }
{
    register == 0
        || region.outs.as_slice().contains(&register)
        || region.keep.as_slice().contains(&register)
}

/// How the write of a register, 0 to 31, by the instruction at an address breaks the region, if it does: for a run that
/// watches its own writes.
pub fn written_register(region: &Region, pc: u32, register: u8) -> Option<Break>
    ensures { result ≡ register_break region.now pc register }
{
    if has_register(region, register) {
        None
    } else {
        Some(Break::UndeclaredWrite {
            region: region.id,
            pc,
            place: Place::Reg(register),
        })
    }
}

/// How the write of a byte by the instruction at an address breaks the region, if it does, by the registers at the
/// region's entry: for a run that watches its own writes.
pub fn written_byte(region: &Region, registers: &Registers, pc: u32, address: u32) -> Option<Break>
    requires { IsTrue (is_region region.now) }
    ensures { result ≡ byte_break region.now registers.now pc address }
{
    if has_byte(region, registers, address) {
        None
    } else {
        Some(Break::UndeclaredWrite {
            region: region.id,
            pc,
            place: Place::Byte(address),
        })
    }
}

// The first of the registers whose values differ.
fn first_changed(registers: &[u8], before: &Registers, after: &Registers) -> Option<u8>
    requires { IsTrue (list_all is_register registers.now) }
    ensures first { result ≡ find (λ register. has_changed before.now after.now register) registers.now }
    ensures below { IfSome result (λ register. register < 32) }
{
    registers
        .iter()
        .find(|register| before.get(**register) != after.get(**register))
        .copied()
}

// A kept register whose values differ.
fn broken_keep(region: &Region, register: u8, before: &Registers, after: &Registers) -> Break
    requires { register < 32 }
    ensures { result ≡ register_changed region.now before.now after.now register }
{
    Break::KeepBroken {
        region: region.id,
        register,
        before: before.get(register),
        after: after.get(register),
    }
}

/// How the registers at the leave break the region, if they do, beside those at its entry: for a run that leaves it.
pub fn broken_at_leave(region: &Region, before: &Registers, after: &Registers) -> Option<Break>
    requires { IsTrue (is_region region.now) }
    ensures { result ≡ keep_break region.now before.now after.now }
{
    match first_changed(region.keep.as_slice(), before, after) {
        Some(register) => Some(broken_keep(region, register, before, after)),
        None => None,
    }
}

/// How the registers at the entry break the region, if they do: for a run that enters it. The base is the lowest
/// address of guest memory.
pub fn broken_at_entry(region: &Region, registers: &Registers, base: u32) -> Option<Break>
    requires { IsTrue (is_region region.now) }
    ensures { result ≡ range_break region.now registers.now base }
{
    first_outside(region, registers, base).map(|range| Break::RangeOutside {
        region: region.id,
        range,
    })
}
