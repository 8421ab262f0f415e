ghost use Rattle.std.specs.Prelude.{◌≡◌, ◌<◌, length, not, IsTrue, IfSome};
ghost use Rattle.std.specs.List.{list_all, position_from};
ghost use Rattle.flow_base.specs.Guests.{is_inside as inside_of};
ghost use Rattle.enclosure_regions.specs.Breaks.{declares_byte, outside_range};
ghost use Rattle.enclosure_regions.specs.Regions.{is_range, is_region};
ghost use Rattle.enclosure_regions.specs.Turns.{start_of};

use crate::region_parts::{Range, Region};
use flow_base::{Registers, is_inside};

/// Where a range starts, an address, by the registers at the region's entry, for whoever goes over its bytes.
pub fn range_start(registers: &Registers, range: Range) -> u32
    requires { IsTrue (is_range range) }
    ensures { result ≡ start_of registers.now range }
{
    match range.base {
        Some(register) => registers.get(register).wrapping_add(range.offset),
        None => range.offset,
    }
}

/// The place of the first range that is not inside guest memory at the entry.
fn outside_place(ranges: &[Range], registers: &Registers, base: u32) -> Option<usize>
    requires { IsTrue (list_all is_range ranges.now) }
    ensures exact { result ≡ position_from (λ range. not (inside_of base (start_of registers.now range) range.length))
        0 ranges.now }
    ensures inside { IfSome result (λ place. place < length ranges.now) }
{
    ranges.iter().position(|range| !is_inside(base, range_start(registers, *range), range.length))
}

/// The first range that is not inside guest memory at the entry, counted from 0, for the runs that enter or skip a
/// region. The base is the lowest address of guest memory.
pub fn first_outside(region: &Region, registers: &Registers, base: u32) -> Option<u32>
    requires { IsTrue (is_region region.now) }
    ensures { result ≡ outside_range region.now registers.now base }
{
    let place = outside_place(region.ranges.as_slice(), registers, base)?;
    Some(place as u32)
}

/// Whether a range of the region has the byte at an address, by the registers at the region's entry.
pub fn has_byte(region: &Region, registers: &Registers, address: u32) -> bool
    requires { IsTrue (is_region region.now) }
    ensures { result ≡ declares_byte region.now registers.now address }
{
    region.ranges.as_slice().iter().any(|range| {
        let start = range_start(registers, *range);
        start <= address && u64::from(address) < u64::from(start) + u64::from(range.length)
    })
}
