ghost use Rattle.std.specs.Prelude.{◌≡◌, ◌+◌, ◌≤◌, ◌<◌, ◌==◌, ◌&&◌, ◌||◌, ◌-◌, nat_le, ◌++◌, ◌∷◌, ℕ, [], false, IfOk, OnOk};
ghost use Rattle.flow_base.specs.Guests.{memory_size};
ghost use Rattle.region_learn.specs.Learnt.{have_byte};
ghost use Rattle.region_learn.specs.Private.Marks.{marks_have};
ghost use Rattle.region_learn.specs.Private.Spans.{End, SpansBelow, behind, extended, in_page, one_byte as one_byte_at};

use crate::byte_marks::ByteMarks;
use crate::pages::{PAGE_SIZE, Page};
use enclosure_regions::Range;
use flow_base::NoMemory;
use std::alloc::Global;

/// The range of one byte.
fn one_byte(address: u32) -> Range
    ensures { result ≡ one_byte_at address }
{
    Range {
        base: None,
        offset: address,
        length: 1,
    }
}

/// Puts a range at the end.
fn push(ranges: &mut Vec<Range>, range: Range) -> Result<(), NoMemory>
    ensures { OnOk result (ranges.new.items ≡ ranges.old.items ++ range ∷ []) }
{
    match ranges.push(range) {
        Ok(()) => Ok(()),
        Err(_) => Err(NoMemory),
    }
}

/// Puts a last range and a byte after it.
fn put_behind(ranges: &mut Vec<Range>, last: Range, address: u32) -> Result<(), NoMemory>
    requires end { last.offset + last.length ≤ address }
    requires room { address < 4294967295 }
    ensures { OnOk result (ranges.new.items ≡ ranges.old.items ++ behind last address) }
{
    if last.offset + last.length == address {
        let longer = Range {
            base: last.base,
            offset: last.offset,
            length: last.length + 1,
        };
        return push(ranges, longer);
    }
    push(ranges, last)?;
    push(ranges, one_byte(address))
}

/// Puts a byte after ranges: the last one grows, or another one begins.
fn put_byte(ranges: &mut Vec<Range>, address: u32) -> Result<(), NoMemory>
    requires end { End address ranges.old.items }
    requires room { address < 4294967295 }
    ensures { OnOk result (ranges.new.items ≡ extended ranges.old.items address) }
{
    match ranges.pop() {
        Some(last) => {
            put_behind(ranges, last, address)?;
            Ok(())
        }
        None => push(ranges, one_byte(address)),
    }
}

/// Puts a byte after ranges, if it is marked.
fn put_marked(ranges: &mut Vec<Range>, marked: bool, address: u32) -> Result<(), NoMemory>
    requires below { SpansBelow address ranges.old.items }
    requires room { address < 4294967295 }
    ensures below { OnOk result (SpansBelow (address + 1) ranges.new.items) }
    ensures bytes { OnOk result ((other : ℕ) →
        have_byte ranges.new.items other ≡ (have_byte ranges.old.items other || (marked && (other == address)))) }
{
    if !marked {
        return Ok(());
    }
    put_byte(ranges, address)?;
    Ok(())
}

/// Puts the bytes of a page that begins at an address after ranges.
fn put_page(ranges: &mut Vec<Range>, page: &Page, first: u32) -> Result<(), NoMemory>
    requires below { SpansBelow first ranges.old.items }
    requires room { first + 4096 ≤ 4294967295 }
    ensures below { OnOk result (SpansBelow (first + 4096) ranges.new.items) }
    ensures bytes { OnOk result ((other : ℕ) →
        have_byte ranges.new.items other ≡ (have_byte ranges.old.items other || in_page page.now first 4096 other)) }
{
    if page.is_empty() {
        return Ok(());
    }
    for place in 0..PAGE_SIZE {
        match put_marked(ranges, page.has(place), first + place as u32) {
            Ok(()) => {}
            Err(error) => return Err(error),
        }
    }
    Ok(())
}

/// The marked bytes of guest memory with this lowest address as ranges of greatest length, ascending.
pub(crate) fn ranges_of(alloc: Global, marks: &ByteMarks, base: u32) -> Result<Vec<Range>, NoMemory>
    requires { base + memory_size ≤ 4294967295 }
    ensures below { IfOk result (λ ranges. SpansBelow (base + memory_size) ranges.items) }
    ensures bytes { IfOk result (λ ranges. (other : ℕ) →
        have_byte ranges.items other ≡ (nat_le base other && marks_have marks.now (other - base))) }
{
    let mut ranges = Vec::new(alloc);
    for index in 0..marks.count() {
        let first = base + (index * PAGE_SIZE) as u32;
        match put_page(&mut ranges, marks.page(index), first) {
            Ok(()) => {}
            Err(error) => return Err(error),
        }
    }
    Ok(ranges)
}
