ghost use Rattle.std.specs.Prelude.{◌≡◌, ◌≢◌, ◌<◌, length, false, Err, None, Ok, IfErr, IfOk, IsTrue, OnOk};
ghost use Rattle.enclosure_regions.specs.Orders.{lowest_twice as lowest_twice_of, ordered as ordered_of};
ghost use Rattle.serde_json.specs.View.{view};
ghost use Rattle.enclosure_regions.specs.Reading.{UnlessMemory, placed_behind, written_behind};
ghost use Rattle.enclosure_regions.specs.RegionItems.{is_written, written_in};
ghost use Rattle.enclosure_regions.specs.Regions.{enters_of, ids_of, is_region};
ghost use Rattle.flow_base.specs.Listed.{is_listed};

use crate::orders::{lowest_twice, ordered};
use crate::region_faults::RegionFault;
use crate::region_items::written;
use crate::region_parts::Region;
use serde_json::Value;
use std::alloc::Global;

// Whether one of the regions has a number.
fn has_id(regions: &[Region], id: u16) -> bool
    ensures { result ≡ is_listed (ids_of regions.now) id }
{
    regions.iter().any(|region| region.id == id)
}

// Whether one of the regions has an enter address.
fn has_enter(regions: &[Region], enter: u32) -> bool
    ensures { result ≡ is_listed (enters_of regions.now) enter }
{
    regions.iter().any(|region| region.enter == enter)
}

// Whether a written region may stand after those that were found; its first fault where it may not.
fn may_stand(found: &[Region], region: &Region) -> Result<(), RegionFault>
    requires { length found.now < 256 }
    ensures ok { OnOk result (placed_behind found.now region.now ≡ Ok (ordered_of region.now)) }
    ensures err { IfErr result (λ fault. placed_behind found.now region.now ≡ Err fault) }
    ensures new_id { OnOk result (is_listed (ids_of found.now) region.now.id ≡ false) }
    ensures addresses { OnOk result (region.now.enter ≢ region.now.leave) }
    ensures registers { OnOk result (lowest_twice_of region.now.outs region.now.keep ≡ None) }
    ensures new_enter { OnOk result (is_listed (enters_of found.now) region.now.enter ≡ false) }
{
    let index = found.len() as u32 + 1;
    if has_id(found, region.id) {
        return Err(RegionFault::Shape { index });
    }
    if region.enter == region.leave {
        return Err(RegionFault::SameAddress { index });
    }
    if let Some(register) = lowest_twice(region.outs.as_slice(), region.keep.as_slice()) {
        return Err(RegionFault::RegisterTwice { index, register });
    }
    if has_enter(found, region.enter) {
        return Err(RegionFault::EnterTwice { index });
    }
    Ok(())
}

// A written region, in order, after those that were found.
fn placed(alloc: Global, found: &[Region], region: Region) -> Result<Region, RegionFault>
    requires few { length found.now < 256 }
    requires written { IsTrue (is_written region) }
    ensures exact { UnlessMemory result (placed_behind found.now region) }
    ensures rules { IfOk result (λ other. IsTrue (is_region other)) }
    ensures new_id { IfOk result (λ other. is_listed (ids_of found.now) other.id ≡ false) }
    ensures new_enter { IfOk result (λ other. is_listed (enters_of found.now) other.enter ≡ false) }
{
    may_stand(found, &region)?;
    Ok(ordered(alloc, region)?)
}

/// The region of an item after those that were found.
pub fn behind(alloc: Global, found: &[Region], item: &Value) -> Result<Region, RegionFault>
    requires { length found.now < 256 }
    ensures exact { UnlessMemory result (written_behind found.now (written_in (view item.now))) }
    ensures rules { IfOk result (λ other. IsTrue (is_region other)) }
    ensures new_id { IfOk result (λ other. is_listed (ids_of found.now) other.id ≡ false) }
    ensures new_enter { IfOk result (λ other. is_listed (enters_of found.now) other.enter ≡ false) }
{
    match written(alloc, item)? {
        Some(region) => placed(alloc, found, region),
        None => Err(RegionFault::Shape {
            index: found.len() as u32 + 1,
        }),
    }
}
