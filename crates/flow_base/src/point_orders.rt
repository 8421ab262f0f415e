ghost use Rattle.std.specs.Prelude.{◌≡◌};
ghost use Rattle.flow_base.specs.PointOrders.{AreOrderedByNumber, AreSameWhereOne};
ghost use Rattle.flow_base.specs.PointOrders.{is_below as is_point_below, is_same as is_same_point};

use crate::points::Point;
use std::cmp::Ordering;

impl Point {
    /// Whether the point stands before another one.
    pub fn is_below(self, other: Point) -> bool
        ensures { result ≡ is_point_below self other }
    {
        matches!(self.cmp(&other), Ordering::Less)
    }

    /// Whether the points are one.
    pub fn is_same(self, other: Point) -> bool
        ensures { result ≡ is_same_point self other }
    {
        self == other
    }
}

/// Points are the same where they are one, and points with known slots are ordered by region, address and number of the
/// slot. It does nothing when it is called.
pub fn points_are_ordered()
    ensures same { AreSameWhereOne }
    ensures order { AreOrderedByNumber }
{}
