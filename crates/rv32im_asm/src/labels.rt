ghost use Rattle.std.specs.Prelude.{◌≡◌, ℕ, List as Seq, None, Some, OnOk, option_map};
ghost use Rattle.rv32im_asm.specs.Private.Labels.{IsNear, IsNearBy, noted, places_in};
ghost use Rattle.rv32im_asm.specs.Sizes.{places_up_to, up_to as known_up_to};

use crate::places::Place;
use flow_base::NoMemory;
use std::alloc::Global;
use std::collections::BTreeMap;

/// A label as it is known up to the line of an index: after that line it has no address.
fn up_to(reach: u64, place: Place) -> Place
    ensures exact { result ≡ known_up_to reach place }
    ensures near { IsNearBy place.offset → IsNearBy result.offset }
{
    if place.index <= reach {
        place
    } else {
        Place {
            index: place.index,
            offset: None,
        }
    }
}

/// The place of each label.
#[derive(Drop)]
pub struct Labels<'a> {
    pub places: BTreeMap<&'a [u8], Place>,
}

impl<'a> Labels<'a> {
    /// No label.
    pub fn new(alloc: Global) -> Labels<'a>
        ensures { (name : Seq ℕ) → places_in result name ≡ None }
    {
        Labels {
            places: BTreeMap::new(alloc),
        }
    }

    /// The place of a label.
    pub fn place(&self, label: &[u8]) -> Option<Place>
        ensures { result ≡ places_in self.now label.now }
    {
        self.places.get(label).copied()
    }

    /// The same as it is known up to the line of an index.
    pub fn place_up_to(&self, reach: u64, label: &[u8]) -> Option<Place>
        ensures exact { result ≡ places_up_to reach (places_in self.now) label.now }
        ensures near { IsNear (places_in self.now label.now) → IsNear result }
    {
        let place = self.place(label)?;
        Some(up_to(reach, place))
    }

    /// Notes the place of a label, where a line begins with one that has none yet.
    pub fn note(&mut self, label: Option<&'a [u8]>, place: Place) -> Result<(), NoMemory>
        ensures { OnOk result ((name : Seq ℕ)
            → places_in self.new name
            ≡ noted name (option_map (λ l. l.now) label.entry) place (places_in self.old name)) }
    {
        match label {
            Some(name) => self.add(name, place),
            None => Ok(()),
        }
    }

    fn add(&mut self, label: &'a [u8], place: Place) -> Result<(), NoMemory>
        ensures { OnOk result ((name : Seq ℕ)
            → places_in self.new name ≡ noted name (Some label.entry.now) place (places_in self.old name)) }
    {
        if self.place(label).is_some() {
            return Ok(());
        }
        match self.places.insert(label, place) {
            Ok(_) => Ok(()),
            Err(_) => Err(NoMemory),
        }
    }
}
