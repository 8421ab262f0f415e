//! The points of the bytes of a page.

ghost use Rattle.std.specs.Prelude.{◌≡◌, ◌<◌, ◌≢◌, ℕ, IfOk, OnOk, OnErr};
ghost use Rattle.shadow_masks.specs.Points.{page_size, SetsPoint};
ghost use Rattle.shadow_masks.specs.Pages.{point_of};

use crate::each_point::EachPoint;
use crate::few_points::FewPoints;
use flow_base::{NoMemory, Point};
use std::alloc::Global;

/// The points of the bytes of a page: by number while they are few, else one by one.
#[derive(Drop)]
pub enum PagePoints {
    Few(FewPoints),
    Each(EachPoint),
}

impl PagePoints {
    /// One point, which each byte has.
    pub fn new(alloc: Global, point: Point) -> Result<PagePoints, NoMemory>
        ensures { IfOk result (λ points. (place : ℕ) → point_of points place ≡ point) }
    {
        Ok(PagePoints::Few(FewPoints::new(alloc, point)?))
    }

    /// The point of a byte.
    pub fn at(&self, place: usize) -> Point
        requires { place < page_size }
        ensures { result ≡ point_of self.now place }
    {
        match self {
            PagePoints::Few(few) => few.at(place),
            PagePoints::Each(each) => each.at(place),
        }
    }

    /// Sets the point of a byte; where memory is short all stays as it was. A place of the program gives a byte much the
    /// same point again and again, and one that it has is not written, which takes no memory.
    pub fn set(&mut self, alloc: Global, place: usize, point: Point) -> Result<(), NoMemory>
        requires { place < page_size }
        ensures ok { OnOk result (SetsPoint place point (point_of self.old) (point_of self.new)) }
        ensures err { OnErr result (self.new ≡ self.old) }
        ensures other { OnErr result (point_of self.old place ≢ point) }
    {
        if self.at(place) == point {
            return Ok(());
        }
        self.set_other(alloc, place, point)
    }

    /// The same, whatever point the byte has.
    #[inline(never)]
    fn set_other(&mut self, alloc: Global, place: usize, point: Point) -> Result<(), NoMemory>
        requires { place < page_size }
        ensures ok { OnOk result (SetsPoint place point (point_of self.old) (point_of self.new)) }
        ensures err { OnErr result (self.new ≡ self.old) }
    {
        match self {
            PagePoints::Few(few) => {
                match few.number_of(point)? {
                    Some(number) => few.give(place, number),
                    None => {
                        let mut each = EachPoint::of(alloc, few)?;
                        each.set(place, point);
                        *self = PagePoints::Each(each);
                    }
                }
            }
            PagePoints::Each(each) => each.set(place, point),
        }
        Ok(())
    }
}
