ghost use Rattle.std.specs.Prelude.{◌≡◌, ◌==◌, option_copied, IfSome, IsTrue, List as Seq, ℕ};
ghost use Rattle.std.specs.List.{find, list_all};
ghost use Rattle.enclosure_regions.specs.Regions.{is_region};
ghost use Rattle.region_machine.specs.Enclosures.{region_numbered as number_of, region_entered_at as entry_at};
ghost use Rattle.region_machine.specs.Enclosures.{kind_of, kind_outside, kind_within};
ghost use Rattle.region_machine.specs.Within.{seen, has_rules, can_leave, may_leave, may_leave_of};

use enclosure_regions::{Region, Regions};
use rv32im_machine::{Machine, Stepped};

/// The turn that a guest with regions makes next.
#[derive(Clone, Copy)]
pub enum GuestTurn<'a> {
    /// The entry of a region.
    Enters(&'a Region),
    /// The leave of the entered region.
    Leaves(&'a Region),
    /// One instruction, inside the entered region if there is one; or, after the end of a run, nothing.
    Steps(Option<&'a Region>),
}

/// The first region with a number.
fn find_numbered(regions: &[Region], number: u16) -> Option<&Region>
    requires { IsTrue (list_all is_region regions.now) }
    ensures found { option_copied result ≡ find (λ region. region.id == number) regions.now }
    ensures rules { IfSome result (λ region. IsTrue (is_region region.now)) }
{
    let mut rest = regions;
    while let [region, more @ ..] = rest {
        if region.id == number {
            return Some(region);
        }
        rest = more;
    }
    None
}

/// The first region with an enter address.
fn find_entered(regions: &[Region], pc: u32) -> Option<&Region>
    requires { IsTrue (list_all is_region regions.now) }
    ensures found { option_copied result ≡ find (λ region. region.enter == pc) regions.now }
    ensures rules { IfSome result (λ region. IsTrue (is_region region.now)) }
{
    let mut rest = regions;
    while let [region, more @ ..] = rest {
        if region.enter == pc {
            return Some(region);
        }
        rest = more;
    }
    None
}

/// The region with a number, none where the number is 0.
fn region_numbered(regions: &Regions, number: u16) -> Option<&Region>
    ensures found { option_copied result ≡ number_of regions.now.items number }
    ensures rules { IfSome result (λ region. IsTrue (is_region region.now)) }
{
    if number == 0 {
        None
    } else {
        find_numbered(regions.items.as_slice(), number)
    }
}

/// The turn at an address inside a region.
fn turn_inside(region: &Region, pc: u32) -> GuestTurn<'_>
    requires { IsTrue (is_region region.now) }
    ensures kind { (regions : Seq Region) → seen result ≡ kind_within regions (Some region.now) pc }
    ensures rules { IsTrue (has_rules (seen result)) }
    ensures leave { (kept : Seq ℕ) (base : ℕ) → IsTrue (may_leave_of (Some region.now) kept base) →
        IsTrue (can_leave (seen result) kept base) }
{
    if region.leave == pc {
        GuestTurn::Leaves(region)
    } else {
        GuestTurn::Steps(Some(region))
    }
}

/// The turn at an address outside regions.
fn turn_outside(regions: &Regions, pc: u32) -> GuestTurn<'_>
    ensures kind { seen result ≡ kind_outside (entry_at regions.now.items pc) }
    ensures rules { IsTrue (has_rules (seen result)) }
    ensures leave { (kept : Seq ℕ) (base : ℕ) → IsTrue (can_leave (seen result) kept base) }
{
    match find_entered(regions.items.as_slice(), pc) {
        Some(region) => GuestTurn::Enters(region),
        None => GuestTurn::Steps(None),
    }
}

/// The turn at an address of a guest that runs, where the region with this number is entered, 0: none.
#[inline(always)]
fn running_turn(regions: &Regions, number: u16, pc: u32) -> GuestTurn<'_>
    ensures kind { seen result ≡ kind_within regions.now.items (number_of regions.now.items number) pc }
    ensures rules { IsTrue (has_rules (seen result)) }
    ensures leave { (kept : Seq ℕ) (base : ℕ) → IsTrue (may_leave_of (number_of regions.now.items number) kept base) →
        IsTrue (can_leave (seen result) kept base) }
{
    match region_numbered(regions, number) {
        Some(region) => turn_inside(region, pc),
        None => turn_outside(regions, pc),
    }
}

/// The turn that a machine makes next under these regions. Outside regions it takes a look at each enter address.
#[inline(always)]
pub fn guest_turn<'a>(machine: &Machine, regions: &'a Regions) -> GuestTurn<'a>
    ensures kind { seen result ≡ kind_of regions.now.items machine.now.control }
    ensures rules { IsTrue (has_rules (seen result)) }
    ensures leave { IsTrue (may_leave regions.now.items machine.now) →
        IsTrue (can_leave (seen result) machine.now.store.kept machine.now.setting.base) }
{
    match machine.mode() {
        Stepped::Ran => running_turn(regions, machine.region(), machine.pc()),
        Stepped::Exited(_) => GuestTurn::Steps(None),
        Stepped::Stopped(_) => GuestTurn::Steps(None),
    }
}
