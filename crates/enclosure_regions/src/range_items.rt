ghost use Rattle.std.specs.Prelude.{◌≡◌, ◌≤◌, [], length, nat_le, sum_by, IfOk, IfSome, IsTrue};
ghost use Rattle.std.specs.List.{list_all};
ghost use Rattle.std.specs.Prelude.{option_map};
ghost use Rattle.serde_json.specs.View.{items_view, view};
ghost use Rattle.enclosure_regions.specs.RangeItems.{base_if, few as few_of, length_if, offset_if, range_at, ranges_at};
ghost use Rattle.enclosure_regions.specs.RangeItems.{ranges_onto};
ghost use Rattle.enclosure_regions.specs.Regions.{are_ranges, is_base_register, is_range};

use crate::object_keys::has_range_keys;
use crate::region_parts::Range;
use crate::shapes::{number, register, word};
use flow_base::{List, NoMemory};
use serde_json::Value;
use std::alloc::Global;

// A register name, or null, or left out.
fn base(value: Option<&Value>) -> Option<Option<u8>>
    ensures exact { result ≡ base_if (option_map (λ v. view v.now) value.entry) }
    ensures base { IfSome result (λ base. IsTrue (is_base_register base)) }
{
    match value {
        None | Some(Value::Null) => Some(None),
        Some(value) => Some(Some(register(value)?)),
    }
}

// An offset, 0 where it is left out.
fn offset(value: Option<&Value>) -> Option<u32>
    ensures { result ≡ offset_if (option_map (λ v. view v.now) value.entry) }
{
    match value {
        None => Some(0),
        Some(value) => word(value),
    }
}

// A number of bytes.
fn length(value: Option<&Value>) -> Option<u32>
    ensures exact { result ≡ length_if (option_map (λ v. view v.now) value.entry) }
    ensures above { IfSome result (λ number. 1 ≤ number) }
    ensures below { IfSome result (λ number. number ≤ 65536) }
{
    let number = number(value?, 1, 65_536)?;
    Some(number as u32)
}

/// The range of an item.
fn range(value: &Value) -> Option<Range>
    ensures exact { result ≡ range_at (view value.now) }
    ensures range { IfSome result (λ range. IsTrue (is_range range)) }
{
    if !has_range_keys(value) {
        return None;
    }
    let base = base(value.get("base"))?;
    let offset = offset(value.get("offset"))?;
    let length = length(value.get("length"))?;
    Some(Range {
        base,
        offset,
        length,
    })
}

// The ranges of the items.
fn ranges_of(alloc: Global, items: &[Value]) -> Result<Option<List<Range>>, NoMemory>
    ensures exact { IfOk result (λ found. found ≡ ranges_onto [] (items_view items.now)) }
    ensures ranges { IfOk result (λ found. IfSome found (λ ranges. IsTrue (list_all is_range ranges))) }
{
    let mut found = List::new(alloc);
    let mut rest = items;
    while let [item, more @ ..] = rest {
        let Some(range) = range(item) else {
            return Ok(None);
        };
        found.push(range)?;
        rest = more;
    }
    Ok(Some(found))
}

// Whether the ranges have at most 65,536 bytes together.
fn is_small(ranges: &[Range]) -> bool
    ensures { result ≡ nat_le (sum_by (λ range. range.length) ranges.now) 65536 }
{
    let mut left: u32 = 65_536;
    let mut rest = ranges;
    while let [range, more @ ..] = rest {
        if left < range.length {
            return false;
        }
        left -= range.length;
        rest = more;
    }
    true
}

// The ranges, where they are at most 64 and have at most 65,536 bytes together.
fn few(ranges: List<Range>) -> Option<List<Range>>
    requires { IsTrue (list_all is_range ranges) }
    ensures exact { result ≡ few_of ranges }
    ensures ranges { IfSome result (λ ranges. IsTrue (are_ranges ranges)) }
{
    if ranges.len() <= 64 && is_small(ranges.as_slice()) {
        Some(ranges)
    } else {
        None
    }
}

/// The ranges of an array; None where it is none, or they are too many or too large.
pub fn ranges(alloc: Global, value: &Value) -> Result<Option<List<Range>>, NoMemory>
    ensures exact { IfOk result (λ found. found ≡ ranges_at (view value.now)) }
    ensures ranges { IfOk result (λ found. IfSome found (λ ranges. IsTrue (are_ranges ranges))) }
{
    let Some(items) = value.as_array() else {
        return Ok(None);
    };
    match ranges_of(alloc, items.as_slice())? {
        Some(ranges) => Ok(few(ranges)),
        None => Ok(None),
    }
}
