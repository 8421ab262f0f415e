ghost use Rattle.std.specs.Prelude.{◌≡◌, ◌+◌, ◌≤◌, ◌<◌, IfOk, IsTrue, nat_lt, length, slice_index_or, ℕ};
ghost use Rattle.std.specs.List.{filter, list_all};
ghost use Rattle.flow_base.specs.Guests.{memory_size};
ghost use Rattle.enclosure_regions.specs.Orders.{all_registers};
ghost use Rattle.region_learn.specs.declared.notes.Notes.{Notes as TheNotes};
ghost use Rattle.region_learn.specs.Private.Books.{have_base};
ghost use Rattle.region_learn.specs.Private.Declarations.{DeclareAll, Declares, kept_bit, out_bit};

use crate::bits::has_bit;
use crate::notes::Notes;
use crate::spans::ranges_of;
use enclosure_regions::Region;
use flow_base::{List, NoMemory};
use std::alloc::Global;

/// The registers that a region may name.
pub(crate) const ALL_REGISTERS: [u8; 31] = [
    1, 2, 3, 4, 5, 6, 7, 8, 9, 10, 11, 12, 13, 14, 15, 16, 17, 18, 19, 20, 21, 22, 23, 24, 25, 26,
    27, 28, 29, 30, 31,
];

/// Whether a register (below 32) was written and had its value of the entry at every leave.
fn is_kept(written: u32, changed: u32, register: u8) -> bool
    requires { register < 32 }
    ensures { result ≡ kept_bit written changed register }
{
    has_bit(written, u32::from(register)) && !has_bit(changed, u32::from(register))
}

/// Whether a register (below 32) was written and had not its value of the entry at some leave.
fn is_out(written: u32, changed: u32, register: u8) -> bool
    requires { register < 32 }
    ensures { result ≡ out_bit written changed register }
{
    has_bit(written, u32::from(register)) && has_bit(changed, u32::from(register))
}

/// Those of some registers that are kept.
fn kept_among(alloc: Global, all: &[u8], written: u32, changed: u32) -> Result<List<u8>, NoMemory>
    requires { IsTrue (list_all (λ register. nat_lt register 32) all.now) }
    ensures { IfOk result (λ found. found ≡ filter (kept_bit written changed) all.now) }
{
    let mut found = List::new(alloc);
    let mut rest = all;
    while let [register, more @ ..] = rest {
        if is_kept(written, changed, *register) {
            found.push(*register)?;
        }
        rest = more;
    }
    Ok(found)
}

/// Those of some registers that were written and are not kept.
fn outs_among(alloc: Global, all: &[u8], written: u32, changed: u32) -> Result<List<u8>, NoMemory>
    requires { IsTrue (list_all (λ register. nat_lt register 32) all.now) }
    ensures found { IfOk result (λ found. found ≡ filter (out_bit written changed) all.now) }
    ensures word { written < 4294967296 }
{
    let mut found = List::new(alloc);
    let mut rest = all;
    while let [register, more @ ..] = rest {
        if is_out(written, changed, *register) {
            found.push(*register)?;
        }
        rest = more;
    }
    Ok(found)
}

/// The region with what its notes say.
#[tactic(auto, using(crate::proofs::Registers::table))]
fn declare(alloc: Global, region: &Region, notes: &Notes) -> Result<Region, NoMemory>
    requires { notes.now.base + memory_size ≤ 4294967295 }
    ensures { IfOk result (λ declared. Declares region.now notes.now declared) }
{
    Ok(Region {
        id: region.id,
        enter: region.enter,
        leave: region.leave,
        outs: outs_among(alloc, &ALL_REGISTERS, notes.written, notes.changed)?,
        keep: kept_among(alloc, &ALL_REGISTERS, notes.written, notes.changed)?,
        ranges: List::from_vec(ranges_of(alloc, &notes.bytes, notes.base)?),
    })
}

/// Each region with what its notes say.
pub(crate) fn declare_all(
    alloc: Global,
    regions: &[Region],
    book: &[Notes],
    base: u32,
) -> Result<List<Region>, NoMemory>
    requires count { length book.now ≡ length regions.now }
    requires base { IsTrue (have_base book.now base) }
    requires room { base + memory_size ≤ 4294967295 }
    ensures { IfOk result (λ declared. DeclareAll regions.now book.now declared) }
{
    let mut declared = List::new(alloc);
    for place in 0..regions.len() {
        let region = declare(alloc, &regions[place], &book[place])?;
        declared.push(region)?;
    }
    Ok(declared)
}
