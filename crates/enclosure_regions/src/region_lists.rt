ghost use Rattle.std.specs.Prelude.{◌≡◌, [], IsTrue};
ghost use Rattle.enclosure_regions.specs.Regions.{are_regions};

use crate::region_parts::Region;
use flow_base::List;
use std::alloc::Global;

/// The regions of a program.
///
/// By its type there are at most 256; their numbers, 1 to 65,535, are distinct, and so are their enter addresses; enter
/// and leave are multiples of 4 and differ; the registers are 1 to 31 and ascend strictly, and none stands both in
/// `outs` and in `keep`; a region has at most 64 ranges, each of at least 1 byte, and of at most 65,536 bytes together.
#[derive(Drop)]
pub struct Regions {
    /// The regions in order.
    pub items: List<Region>,
    ghost keeps_rules: { IsTrue (are_regions items) },
}

impl Regions {
    /// No regions. It takes no memory.
    pub fn none(alloc: Global) -> Regions
        ensures { result.items ≡ [] }
    {
        Regions {
            items: List::new(alloc),
        }
    }
}
