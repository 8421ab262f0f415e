ghost use Rattle.std.specs.Prelude.{IsTrue, nat_le};
ghost use Rattle.cut_file.specs.Cuts.{are_points_of, are_regions, is_version, is_word};

use crate::points::CutPoint;
use flow_base::List;

/// A cut: the bits that cross in a run, of all its values.
///
/// By its type the version is 1 or 2; the secret has at most 65,536 bytes; the skipped regions are numbered 1 to 65,535
/// and ascend strictly; the points ascend strictly by region, address and slot number, and each slot is one; each run
/// has a count from 1 on, and two neighbouring runs have different masks; each `rest` has a run, and in version 1 it is
/// one run of count 1.
#[derive(Drop)]
pub struct Cut {
    /// The version of the cut's text.
    pub version: u8,
    /// The length in bytes of the secrets that the cut is for.
    pub secret_len: u32,
    /// The number of bits that the cut's text names.
    pub bits: u32,
    /// The numbers of the regions that are skipped.
    pub skip: List<u16>,
    /// The points at which bits cross.
    pub points: List<CutPoint>,
    ghost is_known: { IsTrue (is_version version) },
    ghost is_short: { IsTrue (nat_le secret_len 65536) },
    ghost is_number: { IsTrue (is_word bits) },
    ghost skips: { IsTrue (are_regions skip) },
    ghost crosses: { IsTrue (are_points_of version points) },
}
