ghost use Rattle.std.specs.Prelude.{◌≡◌, IfOk, OnOk, map};
ghost use Rattle.serde_json.specs.Data.{put as with_member};
ghost use Rattle.serde_json.specs.View.{members_view, view};
ghost use Rattle.enclosure_regions.specs.Reading.{Spells};
ghost use Rattle.region_learn.specs.RegionTexts.{address_data, register_data, range_data, region_data};
ghost use Rattle.region_learn.specs.RegionTexts.{regions_data, regions_text};
ghost use Rattle.region_learn.specs.Private.Members.{with_first, with_last};

use enclosure_regions::{Range, Region, Regions};
use flow_base::{Bytes, HexWord, NoMemory};
use serde_json::{Map, Value, json};
use std::alloc::Global;

/// The data of a register.
fn register_value(alloc: Global, register: u8) -> Result<Value, NoMemory>
    ensures { IfOk result (λ value. view value ≡ register_data register) }
{
    let name = format!(in alloc; "x{register}")?;
    Ok(Value::from(name))
}

/// The data of each register.
fn register_values(alloc: Global, registers: &[u8]) -> Result<Vec<Value>, NoMemory>
    ensures { IfOk result (λ values. map view values.items ≡ map register_data registers.now) }
{
    let mut values = Vec::new(alloc);
    for register in registers {
        let value = register_value(alloc, *register)?;
        serde_json::push(&mut values, value)?;
    }
    Ok(values)
}

/// The data of a range.
fn range_value(alloc: Global, range: Range) -> Result<Value, NoMemory>
    ensures { IfOk result (λ value. view value ≡ range_data range) }
{
    let length = range.length;
    let offset = range.offset;
    match range.base {
        Some(register) => {
            let base = register_value(alloc, register)?;
            Ok(json!(in alloc; {"base": base, "length": length, "offset": offset})?)
        }
        None => Ok(json!(in alloc; {"length": length, "offset": offset})?),
    }
}

/// The data of each range.
fn range_values(alloc: Global, ranges: &[Range]) -> Result<Vec<Value>, NoMemory>
    ensures { IfOk result (λ values. map view values.items ≡ map range_data ranges.now) }
{
    let mut values = Vec::new(alloc);
    for range in ranges {
        let value = range_value(alloc, *range)?;
        serde_json::push(&mut values, value)?;
    }
    Ok(values)
}

/// The text of an address.
fn address_value(alloc: Global, address: u32) -> Result<Value, NoMemory>
    ensures { IfOk result (λ value. view value ≡ address_data address) }
{
    let word = HexWord(address);
    let text = format!(in alloc; "{word}")?;
    Ok(Value::from(text))
}

/// Puts a value under a key.
fn put(
    alloc: Global,
    members: &mut Map<String, Value>,
    key: &str,
    value: Value,
) -> Result<(), NoMemory>
    ensures { OnOk result (members_view members.new.entries ≡ with_member key.now (view value) (members_view
        members.old.entries)) }
{
    serde_json::put(members, alloc, key, value)?;
    Ok(())
}

/// Puts the members of a region from `leave` on, the last first, so that each finds its place at once.
fn put_last(
    alloc: Global,
    members: &mut Map<String, Value>,
    region: &Region,
) -> Result<(), NoMemory>
    ensures { OnOk result (members_view members.new.entries ≡ with_last region.now (members_view
        members.old.entries)) }
{
    let ranges = range_values(alloc, region.ranges.as_slice())?;
    put(alloc, members, "ranges", Value::from(ranges))?;
    let outs = register_values(alloc, region.outs.as_slice())?;
    put(alloc, members, "outs", Value::from(outs))?;
    let leave = address_value(alloc, region.leave)?;
    put(alloc, members, "leave", leave)
}

/// Puts the members of a region before `leave`, the last first.
fn put_first(
    alloc: Global,
    members: &mut Map<String, Value>,
    region: &Region,
) -> Result<(), NoMemory>
    ensures { OnOk result (members_view members.new.entries ≡ with_first region.now (members_view
        members.old.entries)) }
{
    let keep = register_values(alloc, region.keep.as_slice())?;
    put(alloc, members, "keep", Value::from(keep))?;
    put(alloc, members, "id", Value::from(region.id))?;
    let enter = address_value(alloc, region.enter)?;
    put(alloc, members, "enter", enter)
}

/// The data of a region.
fn region_value(alloc: Global, region: &Region) -> Result<Value, NoMemory>
    ensures { IfOk result (λ value. view value ≡ region_data region.now) }
{
    let mut members = Map::new(alloc);
    put_last(alloc, &mut members, region)?;
    put_first(alloc, &mut members, region)?;
    Ok(Value::Object(members))
}

/// The data of each region.
fn region_values(alloc: Global, regions: &[Region]) -> Result<Vec<Value>, NoMemory>
    ensures { IfOk result (λ values. map view values.items ≡ map region_data regions.now) }
{
    let mut values = Vec::new(alloc);
    for region in regions {
        let value = region_value(alloc, region)?;
        serde_json::push(&mut values, value)?;
    }
    Ok(values)
}

/// The data of regions.
fn regions_value(alloc: Global, regions: &[Region]) -> Result<Value, NoMemory>
    ensures { IfOk result (λ value. view value ≡ regions_data regions.now) }
{
    let all = Value::from(region_values(alloc, regions)?);
    let value = json!(in alloc; {"regions": all})?;
    Ok(value)
}

/// Regions as the text of a region file: the compact text of one object of JSON (RFC 8259), whose keys ascend, and a line
/// feed. Its error is lack of memory.
pub fn write_regions(alloc: Global, regions: &Regions) -> Result<Bytes, NoMemory>
    ensures text { IfOk result (λ text. text ≡ regions_text regions.now.items) }
    ensures reads { IfOk result (λ text. Spells text regions.now.items) }
{
    let value = regions_value(alloc, regions.items.as_slice())?;
    let compact = value.to_string(alloc)?;
    let mut text = compact.into_bytes();
    text.extend_from_slice(b"\n")?;
    Ok(Bytes::from_vec(text))
}
