ghost use Rattle.std.specs.Prelude.{◌≡◌, ◌<◌};
ghost use Rattle.measuring.specs.Counts.{column_of as the_column_of, is_counted as counts_there, page_of as the_page_of};

use flow_base::{Point, Slot};

/// Whether a counter may stand for a point: instructions have addresses that are multiples of 4, and what leaves a region
/// is not counted.
#[inline(always)]
pub(crate) fn is_counted(point: &Point) -> bool
    ensures { result ≡ counts_there point.now }
{
    !point.slot.is_output() && point.address % 4 == 0
}

/// The point of the same slot at the start of the page.
#[inline(always)]
pub(crate) fn page_of(point: &Point) -> Point
    ensures { result ≡ the_page_of point.now }
{
    Point {
        region: point.region,
        address: point.address / 4096 * 4096,
        slot: point.slot,
    }
}

/// The place of a point's instruction in its page.
#[inline(always)]
pub(crate) fn column_of(point: &Point) -> usize
    ensures column { result ≡ the_column_of point.now }
    ensures below { result < 1024 }
{
    (point.address % 4096 / 4) as usize
}

/// A small number by which the slots of an instruction are told apart.
#[inline(always)]
pub(crate) fn lane_of(slot: Slot) -> usize
    ensures { result < 16 }
{
    match slot {
        Slot::First => 1,
        Slot::Second => 2,
        Slot::Address => 3,
        Slot::Result => 4,
        Slot::Decision => 5,
        Slot::Number => 6,
        Slot::Arg0 => 7,
        Slot::Arg1 => 8,
        Slot::Arg2 => 9,
        Slot::SecretIn => 10,
        Slot::ByteOut => 11,
        Slot::Status => 12,
        Slot::OutReg(_) => 13,
        Slot::OutRange(_) => 14,
    }
}
