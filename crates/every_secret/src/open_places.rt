ghost use Rattle.std.specs.Prelude.{◌≡◌, ◌++◌, ◌∷◌, [], map, OnOk};
ghost use Rattle.every_secret.specs.Private.OpenPlaces.{with_sum};

use crate::sums::Sum;
use flow_base::NoMemory;
use kept_states::KeptState;

/// A place on the way to where a walk stands, below which not all paths are done.
#[derive(Drop)]
pub(crate) struct OpenPlace<'a> {
    pub kept: KeptState<'a>,
    /// How many bits lead to it.
    pub depth: u32,
    /// How many turns are left there.
    pub left: u32,
    /// How many bits have crossed there.
    pub crossed: u32,
    /// What is known of the paths below it that are done.
    pub sum: Sum,
}

/// More paths are done below all of these places.
pub(crate) fn add_to_all(opens: &mut Vec<OpenPlace<'_>>, sum: Sum)
    ensures { opens.new.items ≡ map (with_sum sum) opens.old.items }
{
    for place in opens.iter_mut() {
        place.sum = place.sum.with(sum);
    }
}

/// One more place is open. `NoMemory` where there is not enough.
pub(crate) fn put_last<'a>(
    opens: &mut Vec<OpenPlace<'a>>,
    place: OpenPlace<'a>,
) -> Result<(), NoMemory>
    ensures { OnOk result (opens.new.items ≡ opens.old.items ++ place.entry ∷ []) }
{
    match opens.push(place) {
        Ok(()) => Ok(()),
        Err(_) => Err(NoMemory),
    }
}
