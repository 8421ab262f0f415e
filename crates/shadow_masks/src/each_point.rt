//! The points of the bytes of a page, one for each byte.

ghost use Rattle.std.specs.Prelude.{◌≡◌, ◌<◌, ℕ, IfOk};
ghost use Rattle.shadow_masks.specs.Points.{page_size, numbered_point, listed_point, SamePoints, SetsPoint};

use crate::few_points::FewPoints;
use flow_base::{NoMemory, Point};
use std::alloc::Global;
use std::marker::Model;

/// The point of each byte of a page: eight bytes a byte.
#[derive(Drop)]
pub struct EachPoint {
    points: Vec<Point>,
}

impl Model for EachPoint {
    ghost use Rattle.std.specs.Prelude.{◌≡◌, List, length};
    ghost use Rattle.flow_base.specs.declared.points.Point.{Point as AnyPoint};
    ghost use Rattle.shadow_masks.specs.Points.{page_size};

    ghost Value = { List AnyPoint };

    ghost view = { λ p. p.points.items };

    ghost invariant = { λ p. length p.points.items ≡ page_size };
}

impl EachPoint {
    /// The points that a table gives to the bytes.
    pub fn of(alloc: Global, few: &FewPoints) -> Result<EachPoint, NoMemory>
        ensures { IfOk result (λ each. SamePoints (numbered_point few.now) (listed_point each)) }
    {
        let mut points = Vec::new(alloc);
        for place in 0..4096 {
            match points.push(few.at(place)) {
                Ok(()) => {}
                Err(_) => return Err(NoMemory),
            }
        }
        Ok(EachPoint { points })
    }

    /// The point of a byte.
    pub fn at(&self, place: usize) -> Point
        requires { place < page_size }
        ensures { result ≡ listed_point self.now place }
    {
        self.points[place]
    }

    /// Sets the point of a byte.
    pub fn set(&mut self, place: usize, point: Point)
        requires { place < page_size }
        ensures { SetsPoint place point (listed_point self.old) (listed_point self.new) }
    {
        self.points[place] = point;
    }
}
