ghost use Rattle.std.specs.Prelude.{IsTrue};
ghost use Rattle.elf32_loader.specs.Segments.{are_inside, is_ascending, is_base_of, is_entry};

use crate::Segment;
use flow_base::List;

/// What a program file puts into guest memory, which is the 16,777,216 bytes from the base on and 0 where no segment
/// stands.
///
/// By its type there is at least one segment, and segments are non-empty, ascending and disjoint. The base is the
/// lowest address of a segment rounded down to a multiple of 4,096, and at most 0xfefff000. No segment ends above the
/// memory's end or above 0xfffff000. The entry is a multiple of 4 and lies in a segment.
#[derive(Drop)]
pub struct Image {
    /// The lowest address of guest memory.
    pub base: u32,
    /// The address of the first instruction.
    pub entry: u32,
    /// The segments by ascending address.
    pub segments: List<Segment>,
    ghost ascends: { IsTrue (is_ascending segments) },
    ghost is_based: { IsTrue (is_base_of segments base) },
    ghost is_inside: { IsTrue (are_inside base segments) },
    ghost is_entered: { IsTrue (is_entry segments entry) },
}
