ghost use Rattle.std.specs.Prelude.{◌≡◌, ◌≢◌, ◌≤◌, [], length, Err, Ok, IfErr, IfOk, IsTrue};
ghost use Rattle.serde_json.specs.View.{items_view};
ghost use Rattle.enclosure_regions.specs.Reading.{regions_onto};

use crate::reading::behind;
use crate::region_faults::RegionFault;
use crate::region_lists::Regions;
use flow_base::List;
use serde_json::Value;
use std::alloc::Global;

/// The regions of the items, or the first fault.
#[tactic(auto, using(crate::proofs::Longer::longer))]
pub fn regions_of(alloc: Global, items: &[Value]) -> Result<Regions, RegionFault>
    requires { length items.now ≤ 256 }
    ensures ok { IfOk result (λ regions. regions_onto [] (items_view items.now) ≡ Ok regions.items) }
    ensures err { IfErr result (λ fault. fault ≢ RegionFault.Memory
        → regions_onto [] (items_view items.now) ≡ Err fault) }
{
    let mut found = List::new(alloc);
    let mut rest = items;
    while let [item, more @ ..] = rest {
        let region = behind(alloc, found.as_slice(), item)?;
        found.push(region)?;
        rest = more;
    }
    Ok(Regions { items: found })
}
