//! The points of the bytes of a page where they are few.

ghost use Rattle.std.specs.Prelude.{◌≡◌, ◌+◌, ◌<◌, ◌≤◌, ℕ, IfOk, IfSome, OnOk, OnErr, Some, None, length};
ghost use Rattle.std.specs.Prelude.{slice_index};
ghost use Rattle.shadow_masks.specs.Points.{page_size, numbered_point, table_point, SamePoints, SetsPoint};

use flow_base::{NoMemory, Point};
use std::alloc::Global;
use std::marker::Model;

/// A table of at most 256 points, and for each byte of a page the number of its point in the table: one byte a byte.
#[derive(Drop)]
pub struct FewPoints {
    numbers: Vec<u8>,
    table: Vec<Point>,
}

impl Model for FewPoints {
    ghost use Rattle.std.specs.Prelude.{◌≡◌, ◌<◌, ◌≤◌, ℕ, length, slice_index};
    ghost use Rattle.shadow_masks.specs.Points.{Numbered, page_size};

    ghost Value = { Numbered };

    ghost view = { λ p. record { numbers = p.numbers.items; table = p.table.items } };

    ghost invariant = { λ p. (length p.numbers.items ≡ page_size) × (length p.table.items ≤ 256)
        × ((place : ℕ) → slice_index p.numbers.items place < length p.table.items) };
}

/// So many zeros.
#[tactic(auto, using(crate::proofs::Zeros::zero_at))]
pub fn zeros(alloc: Global, count: usize) -> Result<Vec<u8>, NoMemory>
    ensures zeros { IfOk result (λ found. (place : ℕ) → slice_index found.items place ≡ 0) }
    ensures length { IfOk result (λ found. length found.items ≡ count) }
{
    Ok(vec![in alloc; 0; count]?)
}

impl FewPoints {
    /// One point, which each byte has.
    pub fn new(alloc: Global, point: Point) -> Result<FewPoints, NoMemory>
        ensures { IfOk result (λ points. (place : ℕ) → numbered_point points place ≡ point) }
    {
        let numbers = zeros(alloc, 4096)?;
        let mut table = Vec::new(alloc);
        if table.push(point).is_err() {
            return Err(NoMemory);
        }
        Ok(FewPoints { numbers, table })
    }

    /// The point of a byte.
    pub fn at(&self, place: usize) -> Point
        requires { place < page_size }
        ensures { result ≡ numbered_point self.now place }
    {
        self.table[self.numbers[place] as usize]
    }

    /// The number of a point in the table; where the table has room the point is put into it. None where it has not.
    pub fn number_of(&mut self, point: Point) -> Result<Option<u8>, NoMemory>
        ensures inside { IfOk result (λ found. IfSome found (λ number. number < length self.new.table)) }
        ensures point { IfOk result (λ found. IfSome found (λ number. table_point self.new number ≡ point)) }
        ensures full { IfOk result (λ found. found ≡ None → length self.old.table ≡ 256) }
        ensures none { IfOk result (λ found. found ≡ None → self.new ≡ self.old) }
        ensures kept { SamePoints (numbered_point self.old) (numbered_point self.new) }
        ensures err { OnErr result (self.new ≡ self.old) }
    {
        match self.table.iter().position(|known| *known == point) {
            Some(place) => Ok(Some(place as u8)),
            None if self.table.len() < 256 => {
                let number = self.table.len() as u8;
                match self.table.push(point) {
                    Ok(()) => Ok(Some(number)),
                    Err(_) => Err(NoMemory),
                }
            }
            None => Ok(None),
        }
    }

    /// Gives a byte the point of a number.
    pub fn give(&mut self, place: usize, number: u8)
        requires place { place < page_size }
        requires number { number < length self.old.table }
        ensures { SetsPoint place (table_point self.old number) (numbered_point self.old) (numbered_point self.new) }
    {
        self.numbers[place] = number;
    }
}
