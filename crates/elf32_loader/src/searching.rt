ghost use Rattle.std.specs.Prelude.{◌≡◌, ◌≢◌, ℕ, ◌+◌, ◌^◌, ◌<◌, ◌↔◌, IsTrue, MatchBool, MatchOption, length};
ghost use Rattle.elf32_loader.specs.FaultTable.{HasNoLoad, HasOverlap, IsDynamic, IsDynamicAt, IsEntryIn, IsLowestLoad, IsOutOfRange, IsRangeFaultAt, Overlaps};
ghost use Rattle.elf32_loader.specs.FirstFault.{IsLeast};
ghost use Rattle.elf32_loader.specs.Headers.{HasTable, HoldsAddress, header_count};
ghost use Rattle.elf32_loader.specs.Private.Searches.{FoundLowest};

use crate::fields::{count_of, entry_from, header_of, load_of};
use crate::headers::Header;
use flow_base::MEMORY_SIZE;

/// PT_DYNAMIC: a program header of what a dynamic linker is to do.
const DYNAMIC: u32 = 2;

/// PT_INTERP: a program header of the name of a dynamic linker.
const INTERP: u32 = 3;

/// The highest end of a load.
const HIGHEST_END: u64 = 0xffff_f000;

/// The first program header that is PT_DYNAMIC or PT_INTERP.
pub fn first_dynamic(file: &[u8]) -> Option<u16>
    requires { HasTable file.now }
    ensures { MatchOption result (¬ IsDynamic file.now) (λ index. IsLeast (IsDynamicAt file.now) index) }
{
    for index in 0..count_of(file) {
        let kind = header_of(file, index).kind;
        if kind == DYNAMIC || kind == INTERP {
            return Some(index);
        }
    }
    None
}

/// The first of the lowest loads up to a header, where `lowest` is that of the headers below it.
fn lower_of(file: &[u8], lowest: Option<u16>, index: u16) -> Option<u16>
    requires has_table { HasTable file.now }
    requires below { index < header_count file.now }
    requires found { FoundLowest file.now index lowest }
    ensures { FoundLowest file.now (index + 1) result }
{
    let Some(header) = load_of(file, index) else {
        return lowest;
    };
    let Some(found) = lowest else {
        return Some(index);
    };
    if header_of(file, found).address <= header.address {
        Some(found)
    } else {
        Some(index)
    }
}

/// The first load of those with the lowest address; None exactly where there is no load.
pub fn lowest_load(file: &[u8]) -> Option<u16>
    requires { HasTable file.now }
    ensures { MatchOption result (HasNoLoad file.now) (λ index. IsLeast (IsLowestLoad file.now) index) }
{
    let mut lowest = None;
    for index in 0..count_of(file) {
        lowest = lower_of(file, lowest, index);
    }
    lowest
}

/// Whether a header has more bytes than memory, bytes beyond the file, or memory beyond the guest's.
fn is_out_of_range(file: &[u8], base: u32, header: &Header) -> bool
    requires { length file.now < 2 ^ 32 }
    ensures { IsTrue result ↔ IsOutOfRange file.now base header.now }
{
    let file_end = u64::from(header.offset) + u64::from(header.file_size);
    let memory_end = u64::from(header.address) + u64::from(header.memory_size);
    header.memory_size < header.file_size
        || (file.len() as u64) < file_end
        || u64::from(base) + u64::from(MEMORY_SIZE) < memory_end
        || HIGHEST_END < memory_end
}

/// The first load that is out of range, where guest memory begins at a base.
pub fn first_out_of_range(file: &[u8], base: u32) -> Option<u16>
    requires has_table { HasTable file.now }
    requires size { length file.now < 2 ^ 32 }
    ensures { MatchOption result ((index : ℕ) → ¬ IsRangeFaultAt file.now base index)
        (λ index. IsLeast (IsRangeFaultAt file.now base) index) }
{
    for index in 0..count_of(file) {
        if let Some(header) = load_of(file, index) {
            if is_out_of_range(file, base, &header) {
                return Some(index);
            }
        }
    }
    None
}

/// Whether two headers that take memory share an address.
fn share_memory(first: &Header, second: &Header) -> bool
    requires first { first.now.memory_size ≢ 0 }
    requires second { second.now.memory_size ≢ 0 }
    ensures { IsTrue result ↔ ((address : ℕ) × HoldsAddress first.now address × HoldsAddress second.now address) }
{
    let first_end = u64::from(first.address) + u64::from(first.memory_size);
    let second_end = u64::from(second.address) + u64::from(second.memory_size);
    u64::from(first.address) < second_end && u64::from(second.address) < first_end
}

/// The first load after a header that shares an address with it.
fn second_of_overlap(file: &[u8], first: u16) -> Option<u16>
    requires has_table { HasTable file.now }
    requires below { first < header_count file.now }
    ensures { MatchOption result ((second : ℕ) → ¬ Overlaps file.now first second)
        (λ second. IsLeast (Overlaps file.now first) second) }
{
    let header = load_of(file, first)?;
    for second in first + 1..count_of(file) {
        if let Some(other) = load_of(file, second) {
            if share_memory(&header, &other) {
                return Some(second);
            }
        }
    }
    None
}

/// The first load that shares an address with a later one, and the first later one that it shares an address with.
pub fn first_overlap(file: &[u8]) -> Option<(u16, u16)>
    requires { HasTable file.now }
    ensures { MatchOption result (¬ HasOverlap file.now)
        (λ pair. IsLeast (λ a. (b : ℕ) × Overlaps file.now a b) pair.0 × IsLeast (Overlaps file.now pair.0) pair.1) }
{
    for first in 0..count_of(file) {
        if let Some(second) = second_of_overlap(file, first) {
            return Some((first, second));
        }
    }
    None
}

/// Whether the entry lies in a load.
pub fn is_entry_loaded(file: &[u8]) -> bool
    requires { HasTable file.now }
    ensures { MatchBool result ((index : ℕ) × IsEntryIn file.now index) ((index : ℕ) → ¬ IsEntryIn file.now index) }
{
    let entry = entry_from(file);
    for index in 0..count_of(file) {
        if let Some(header) = load_of(file, index) {
            let end = u64::from(header.address) + u64::from(header.memory_size);
            if header.address <= entry && u64::from(entry) < end {
                return true;
            }
        }
    }
    false
}
