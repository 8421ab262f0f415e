ghost use Rattle.std.specs.Prelude.{◌≡◌, ◌≢◌, ◌==◌, count_by, None, IfOk, IsTrue};
ghost use Rattle.std.specs.List.{filter, find, list_all};
ghost use Rattle.enclosure_regions.specs.Orders.{all_registers, in_order as in_order_of};
ghost use Rattle.enclosure_regions.specs.Orders.{lowest_twice as lowest_twice_of};
ghost use Rattle.enclosure_regions.specs.Orders.{ordered as ordered_of, stands_twice as stands_twice_in, times};
ghost use Rattle.enclosure_regions.specs.RegionItems.{is_written};
ghost use Rattle.enclosure_regions.specs.Regions.{are_registers, is_region};
ghost use Rattle.flow_base.specs.Listed.{is_listed};

use crate::region_parts::Region;
use flow_base::{List, NoMemory};
use std::alloc::Global;

/// The registers that a region may name.
pub const ALL_REGISTERS: [u8; 31] = [
    1, 2, 3, 4, 5, 6, 7, 8, 9, 10, 11, 12, 13, 14, 15, 16, 17, 18, 19, 20, 21, 22, 23, 24, 25, 26,
    27, 28, 29, 30, 31,
];

// Those of the registers that stand in a list.
fn those_in(alloc: Global, all: &[u8], registers: &[u8]) -> Result<List<u8>, NoMemory>
    ensures { IfOk result (λ found. found ≡ filter (λ register. is_listed registers.now register) all.now) }
{
    let mut found = List::new(alloc);
    for register in all {
        if registers.contains(register) {
            found.push(*register)?;
        }
    }
    Ok(found)
}

/// The registers of a list, ascending.
#[tactic(auto, using(crate::proofs::Ordered::table))]
fn in_order(alloc: Global, registers: &[u8]) -> Result<List<u8>, NoMemory>
    ensures { IfOk result (λ found. found ≡ in_order_of registers.now) }
{
    those_in(alloc, &ALL_REGISTERS, registers)
}

// How often a register stands in a list.
fn count(registers: &[u8], register: u8) -> usize
    ensures { result ≡ times registers.now register }
{
    registers.iter().filter(|other| **other == register).count()
}

// Whether a register stands twice in two lists together.
fn stands_twice(outs: &[u8], keep: &[u8], register: u8) -> bool
    ensures { result ≡ stands_twice_in outs.now keep.now register }
{
    let outs = count(outs, register);
    outs >= 2 || count(keep, register) >= 2 - outs
}

// The first of the registers that does.
fn first_twice(all: &[u8], outs: &[u8], keep: &[u8]) -> Option<u8>
    ensures { result ≡ find (stands_twice_in outs.now keep.now) all.now }
{
    all.iter()
        .copied()
        .find(|register| stands_twice(outs, keep, *register))
}

/// The lowest register that stands twice in two lists together.
#[tactic(auto, using(crate::proofs::Ordered::table))]
pub fn lowest_twice(outs: &[u8], keep: &[u8]) -> Option<u8>
    ensures { result ≡ lowest_twice_of outs.now keep.now }
{
    first_twice(&ALL_REGISTERS, outs, keep)
}

/// A region that is written with the registers in any order, with its registers ascending.
pub fn ordered(alloc: Global, region: Region) -> Result<Region, NoMemory>
    requires written { IsTrue (is_written region) }
    requires addresses { region.enter ≢ region.leave }
    requires registers { lowest_twice_of region.outs region.keep ≡ None }
    ensures exact { IfOk result (λ other. other ≡ ordered_of region) }
    ensures rules { IfOk result (λ other. IsTrue (is_region other)) }
{
    let mut region = region;
    region.outs = in_order(alloc, region.outs.as_slice())?;
    region.keep = in_order(alloc, region.keep.as_slice())?;
    Ok(region)
}
