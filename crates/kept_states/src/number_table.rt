use flow_base::NoMemory;
use std::alloc::Global;

/// How far from its place a number is sought.
pub(crate) const STEPS: u32 = 64;

/// The most places that a table has.
const MOST: usize = 0x4000_0000;

/// A number with the hash by which it is found; None where the place is free.
#[derive(Clone, Copy)]
struct Place {
    hash: u32,
    number: Option<u32>,
}

/// Numbers that are found by a hash. It is a help to find what is the same and no more: who asks compares, and a number
/// may be lost.
#[derive(Drop)]
pub(crate) struct NumberTable {
    places: Vec<Place>,
    used: usize,
    alloc: Global,
}

fn free_places(alloc: Global, count: usize) -> Result<Vec<Place>, NoMemory> {
    let free = Place {
        hash: 0,
        number: None,
    };
    let places = vec![in alloc; free; count]?;
    Ok(places)
}

/// The index of the place so many steps after the one of a hash.
fn index_of(places: &[Place], hash: u32, step: u32) -> usize {
    if places.is_empty() {
        return 0;
    }
    (hash as usize + step as usize) % places.len()
}

/// Puts a number into the first free place, if one is near.
fn put(places: &mut Vec<Place>, hash: u32, number: u32) {
    for step in 0..STEPS {
        let index = index_of(places.as_slice(), hash, step);
        if let Some(place) = places.get_mut(index) {
            if place.number.is_none() {
                *place = Place {
                    hash,
                    number: Some(number),
                };
                return;
            }
        }
    }
}

impl NumberTable {
    /// No numbers.
    pub fn new(alloc: Global) -> Result<NumberTable, NoMemory> {
        let places = free_places(alloc, 1024)?;
        Ok(NumberTable {
            places,
            used: 0,
            alloc,
        })
    }

    /// The number that stands so many steps after the place of a hash, if it has this hash. The error says that the
    /// place is free, and that no number with this hash stands behind it.
    pub fn candidate(&self, hash: u32, step: u32) -> Result<Option<u32>, ()> {
        let index = index_of(self.places.as_slice(), hash, step);
        match self.places.get(index) {
            Some(place) if place.number.is_none() => Err(()),
            Some(place) if place.hash == hash => Ok(place.number),
            _ => Ok(None),
        }
    }

    /// Puts a number in by its hash. Where half of the places are taken there are then twice as many.
    pub fn insert(&mut self, hash: u32, number: u32) -> Result<(), NoMemory> {
        if self.used >= self.places.len() / 2 {
            self.widen()?;
        }
        self.used = self.used.saturating_add(1);
        put(&mut self.places, hash, number);
        Ok(())
    }

    fn widen(&mut self) -> Result<(), NoMemory> {
        let count = self.places.len();
        if count > MOST {
            return Err(NoMemory);
        }
        let mut places = free_places(self.alloc, count * 2)?;
        for place in self.places.as_slice() {
            if let Some(number) = place.number {
                put(&mut places, place.hash, number);
            }
        }
        self.places = places;
        Ok(())
    }
}
