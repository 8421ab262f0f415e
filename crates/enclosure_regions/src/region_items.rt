ghost use Rattle.std.specs.Prelude.{◌≡◌, option_map, IfOk, IfSome, IsTrue};
ghost use Rattle.std.specs.List.{list_all};
ghost use Rattle.serde_json.specs.View.{view};
ghost use Rattle.enclosure_regions.specs.RangeItems.{ranges_if};
ghost use Rattle.enclosure_regions.specs.RegionItems.{are_lists, id_if, is_written, lists_in, place_if, written_in};
ghost use Rattle.enclosure_regions.specs.Regions.{are_ranges, is_code_address, is_register};
ghost use Rattle.enclosure_regions.specs.Shapes.{registers_if};
ghost use Rattle.flow_base.specs.Points.{is_region_number};

use crate::object_keys::has_region_keys;
use crate::range_items::ranges;
use crate::region_parts::{Range, Region};
use crate::shapes::{number, place, registers};
use flow_base::{List, NoMemory};
use serde_json::Value;
use std::alloc::Global;

// The number of a region.
fn id(value: Option<&Value>) -> Option<u16>
    ensures exact { result ≡ id_if (option_map (λ v. view v.now) value.entry) }
    ensures number { IfSome result (λ id. IsTrue (is_region_number id)) }
{
    let number = number(value?, 1, 65_535)?;
    Some(number as u16)
}

// An address.
fn address(value: Option<&Value>) -> Option<u32>
    ensures exact { result ≡ place_if (option_map (λ v. view v.now) value.entry) }
    ensures place { IfSome result (λ place. IsTrue (is_code_address place)) }
{
    place(value?)
}

// Registers that may be left out.
fn some_registers(alloc: Global, value: Option<&Value>) -> Result<Option<List<u8>>, NoMemory>
    ensures exact { IfOk result (λ found. found ≡ registers_if (option_map (λ v. view v.now) value.entry)) }
    ensures registers { IfOk result (λ found. IfSome found (λ registers. IsTrue (list_all is_register registers))) }
{
    match value {
        Some(value) => registers(alloc, value),
        None => Ok(Some(List::new(alloc))),
    }
}

// Ranges that may be left out.
fn some_ranges(alloc: Global, value: Option<&Value>) -> Result<Option<List<Range>>, NoMemory>
    ensures exact { IfOk result (λ found. found ≡ ranges_if (option_map (λ v. view v.now) value.entry)) }
    ensures ranges { IfOk result (λ found. IfSome found (λ ranges. IsTrue (are_ranges ranges))) }
{
    match value {
        Some(value) => ranges(alloc, value),
        None => Ok(Some(List::new(alloc))),
    }
}

// The region with a number and addresses whose registers and ranges stand in an item.
#[tactic(auto, unfolding(crate::specs::RegionItems::lists_in))]
fn with_lists(
    alloc: Global,
    item: &Value,
    id: u16,
    enter: u32,
    leave: u32,
) -> Result<Option<Region>, NoMemory>
    ensures exact { IfOk result (λ found. found ≡ lists_in id enter leave (view item.now)) }
    ensures heads { IfOk result (λ found. IfSome found (λ region.
        (region.id ≡ id) × (region.enter ≡ enter) × (region.leave ≡ leave))) }
    ensures lists { IfOk result (λ found. IfSome found (λ region. IsTrue (are_lists region))) }
{
    let Some(outs) = some_registers(alloc, item.get("outs"))? else {
        return Ok(None);
    };
    let Some(keep) = some_registers(alloc, item.get("keep"))? else {
        return Ok(None);
    };
    let Some(ranges) = some_ranges(alloc, item.get("ranges"))? else {
        return Ok(None);
    };
    Ok(Some(Region {
        id,
        enter,
        leave,
        outs,
        keep,
        ranges,
    }))
}

/// The region of an item as it is written, with its registers in the order of the file; None where it has not the form
/// of a region.
#[tactic(auto, unfolding(crate::specs::RegionItems::written_in, crate::specs::RegionItems::lists_in))]
pub fn written(alloc: Global, item: &Value) -> Result<Option<Region>, NoMemory>
    ensures exact { IfOk result (λ found. found ≡ written_in (view item.now)) }
    ensures written { IfOk result (λ found. IfSome found (λ region. IsTrue (is_written region))) }
{
    if !has_region_keys(item) {
        return Ok(None);
    }
    let Some(id) = id(item.get("id")) else {
        return Ok(None);
    };
    let Some(enter) = address(item.get("enter")) else {
        return Ok(None);
    };
    let Some(leave) = address(item.get("leave")) else {
        return Ok(None);
    };
    with_lists(alloc, item, id, enter, leave)
}
