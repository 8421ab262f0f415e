ghost use Rattle.std.specs.Prelude.{◌≡◌, ◌≢◌, ◌≤◌, [], length, option_map, Err, Ok, IfErr, IfOk};
ghost use Rattle.serde_json.specs.View.{items_view, view};
ghost use Rattle.enclosure_regions.specs.Reading.{FirstRegionFault, HasNoReading, ReadsAs, Spells, few_regions};
ghost use Rattle.enclosure_regions.specs.Reading.{items_in};
ghost use Rattle.enclosure_regions.specs.Reading.{regions_in};

use crate::item_lists::regions_of;
use crate::object_keys::has_file_keys;
use crate::region_faults::RegionFault;
use crate::region_lists::Regions;
use serde_json::Value;
use std::alloc::Global;

// The value of JSON that the file is.
fn value(alloc: Global, file: &[u8]) -> Result<Value, RegionFault>
    ensures ok { IfOk result (λ value. ReadsAs file.now (view value)) }
    ensures err { IfErr result (λ fault. fault ≢ RegionFault.Memory
        → (fault ≡ RegionFault.Json) × HasNoReading file.now) }
{
    match Value::from_slice(alloc, file) {
        Ok(value) => Ok(value),
        Err(error) => Err(if error.is_memory() {
            RegionFault::Memory
        } else {
            RegionFault::Json
        }),
    }
}

// The array of regions; None where the value is not an object with the one key `regions`, an array.
fn items(value: &Value) -> Option<&[Value]>
    ensures { option_map (λ items. items_view items.now) result ≡ items_in (view value.now) }
{
    if !has_file_keys(value) {
        return None;
    }
    match value.get("regions")?.as_array() {
        Some(items) => Some(items.as_slice()),
        None => None,
    }
}

// The regions of a number of items, at most 256.
#[tactic(auto, using(crate::proofs::Longer::counted_view))]
fn few(alloc: Global, items: &[Value]) -> Result<Regions, RegionFault>
    ensures ok { IfOk result (λ regions. few_regions (Some (items_view items.now)) ≡ Ok regions.items) }
    ensures err { IfErr result (λ fault. fault ≢ RegionFault.Memory
        → few_regions (Some (items_view items.now)) ≡ Err fault) }
{
    if items.len() > 256 {
        return Err(RegionFault::TooMany {
            count: items.len().min(u32::MAX as usize) as u32,
        });
    }
    regions_of(alloc, items)
}

// The regions of a value.
fn regions(alloc: Global, value: &Value) -> Result<Regions, RegionFault>
    ensures ok { IfOk result (λ regions. regions_in (view value.now) ≡ Ok regions.items) }
    ensures err { IfErr result (λ fault. fault ≢ RegionFault.Memory → regions_in (view value.now) ≡ Err fault) }
{
    match items(value) {
        Some(items) => few(alloc, items),
        None => Err(RegionFault::Shape { index: 0 }),
    }
}

/// The regions of a file of JSON (RFC 8259), as `serde_json` reads it: an object with the one key `regions`, an array
/// of objects. Each has `id`, a number from 1 to 65,535 that no other has, and `enter` and `leave`, texts of `0x` and
/// one to eight hexadecimal digits of a multiple of 4. It may have `outs` and `keep`, arrays of register names, and
/// `ranges`, an array of at most 64 objects with `length`, 1 to 65,536 bytes and as many for all of them together, and
/// perhaps `offset`, from -2,147,483,648 to 4,294,967,295 bytes, and `base`, the name of a register but x0, or null.
/// There are no other keys.
///
/// The error is the first fault: no JSON, the outer object, too many regions, and then for each region in order its
/// form, equal addresses, a register that stands twice, an enter address that an earlier region has. Lack of memory
/// answers [`RegionFault::Memory`].
pub fn read_regions(alloc: Global, file: &[u8]) -> Result<Regions, RegionFault>
    ensures ok { IfOk result (λ regions. Spells file.now regions.items) }
    ensures err { IfErr result (λ fault. fault ≢ RegionFault.Memory → FirstRegionFault file.now fault) }
{
    let value = value(alloc, file)?;
    regions(alloc, &value)
}
