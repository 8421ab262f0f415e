ghost use Rattle.std.specs.Prelude.{◌≡◌, IfOk};

use crate::region_lists::Regions;
use crate::region_parts::Region;
use flow_base::{List, NoMemory};
use std::alloc::Global;

fn copy_region(alloc: Global, region: &Region) -> Result<Region, NoMemory>
    ensures { IfOk result (λ copy. copy ≡ region.now) }
{
    Ok(Region {
        id: region.id,
        enter: region.enter,
        leave: region.leave,
        outs: List::from_slice(alloc, region.outs.as_slice())?,
        keep: List::from_slice(alloc, region.keep.as_slice())?,
        ranges: List::from_slice(alloc, region.ranges.as_slice())?,
    })
}

fn copy_items(alloc: Global, regions: &List<Region>) -> Result<List<Region>, NoMemory>
    ensures { IfOk result (λ copy. copy ≡ regions.now) }
{
    let all = regions.as_slice();
    let mut copies = List::new(alloc);
    for region in all {
        copies.push(copy_region(alloc, region)?)?;
    }
    Ok(copies)
}

/// A copy of the regions, for whoever keeps its own. `NoMemory` where there is not enough.
pub fn copy_regions(alloc: Global, regions: &Regions) -> Result<Regions, NoMemory>
    ensures { IfOk result (λ copy. copy.items ≡ regions.now.items) }
{
    Ok(Regions {
        items: copy_items(alloc, &regions.items)?,
    })
}
