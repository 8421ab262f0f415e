ghost use Rattle.std.specs.Prelude.{◌≡◌, ◌==◌, ◌<◌, ◌≤◌, length, Some, None, IfSome, if◌then◌else◌};
ghost use Rattle.std.specs.List.{position_from};
ghost use Rattle.enclosure_regions.specs.Turns.{is_left_at, turn_kind as kind_of_turn};
ghost use Rattle.enclosure_regions.specs.Watching.{EntersOneOf};

use crate::region_parts::Region;
use crate::turn_kinds::TurnKind;

/// The turn at an address, inside a region.
pub fn turn_inside(region: &Region, pc: u32) -> TurnKind
    ensures { result ≡ (if is_left_at (Some region.now) pc then TurnKind.Leave else TurnKind.Step) }
{
    if region.leave == pc {
        TurnKind::Leave
    } else {
        TurnKind::Step
    }
}

// The place of the first region that is entered at an address.
fn place_entered(regions: &[Region], pc: u32) -> Option<usize>
    ensures place { result ≡ position_from (λ region. region.enter == pc) 0 regions.now }
    ensures inside { IfSome result (λ place. place < length regions.now) }
{
    regions.iter().position(|region| region.enter == pc)
}

/// The turn at an address, outside regions.
pub fn turn_outside(regions: &[Region], pc: u32) -> TurnKind
    requires { length regions.now ≤ 256 }
    ensures kind { result ≡ kind_of_turn regions.now None pc }
    ensures place { EntersOneOf regions.now result }
{
    match place_entered(regions, pc) {
        Some(place) => TurnKind::Enter(place as u32),
        None => TurnKind::Step,
    }
}
