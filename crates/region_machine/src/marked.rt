ghost use Rattle.std.specs.Prelude.{◌≡◌, IfOk, IsTrue, None};
ghost use Rattle.std.specs.List.{list_all};
ghost use Rattle.region_machine.specs.Enclosures.{kind_of, region_entered_at as entry_at, Steps};
ghost use Rattle.region_machine.specs.Private.Marked.{is_marked};
ghost use Rattle.region_machine.specs.Within.{seen, has_rules, can_leave, may_leave};

use crate::address_marks::AddressMarks;
use crate::kinds::{GuestTurn, guest_turn};
use enclosure_regions::{Region, Regions};
use flow_base::NoMemory;
use rv32im_machine::Machine;
use std::alloc::Global;

/// Regions with a mark where each is entered, so that mostly one look tells that no region is entered at an address.
#[derive(Drop)]
pub struct MarkedRegions {
    /// The regions.
    pub regions: Regions,
    marks: AddressMarks,
    ghost marked: { IsTrue (list_all (is_marked marks) regions.items) },
}

/// The marks of the addresses at which the regions are entered.
fn marks_of(alloc: Global, regions: &[Region]) -> Result<AddressMarks, NoMemory>
    ensures { IfOk result (λ marks. IsTrue (list_all (is_marked marks) regions.now)) }
{
    let mut marks = AddressMarks::new(alloc)?;
    for region in regions {
        marks.mark(region.enter);
    }
    Ok(marks)
}

impl MarkedRegions {
    /// These regions, marked. `NoMemory` where there is not enough; no later call takes memory.
    pub fn new(alloc: Global, regions: Regions) -> Result<MarkedRegions, NoMemory>
        ensures { IfOk result (λ made. made.regions ≡ regions) }
    {
        let marks = marks_of(alloc, regions.items.as_slice())?;
        Ok(MarkedRegions { regions, marks })
    }

    /// Whether one look tells that no region is entered at an address.
    #[inline(always)]
    fn is_unmarked(&self, pc: u32) -> bool
        ensures { IsTrue result → entry_at self.now.regions.items pc ≡ None }
    {
        !self.marks.may_have(pc)
    }

    /// Whether one look tells that the turn that a machine makes next is a step outside of regions; else it may be any.
    #[inline(always)]
    pub fn is_outside(&self, machine: &Machine) -> bool
        ensures { IsTrue result → kind_of self.now.regions.items machine.now.control ≡ Steps None }
    {
        machine.region() == 0 && self.is_unmarked(machine.pc())
    }

    /// The turn that a machine makes next. Where no region is entered and none is marked it takes one look.
    #[inline(always)]
    pub fn next_turn(&self, machine: &Machine) -> GuestTurn<'_>
        ensures kind { seen result ≡ kind_of self.now.regions.items machine.now.control }
        ensures rules { IsTrue (has_rules (seen result)) }
        ensures leave { IsTrue (may_leave self.now.regions.items machine.now) →
            IsTrue (can_leave (seen result) machine.now.store.kept machine.now.setting.base) }
    {
        if self.is_outside(machine) {
            GuestTurn::Steps(None)
        } else {
            guest_turn(machine, &self.regions)
        }
    }
}
