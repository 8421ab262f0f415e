ghost use Rattle.std.specs.Prelude.{◌≡◌, ◌+◌, sum_by, length};
ghost use Rattle.region_learn.specs.LearnAnswers.{byte_count as byte_count_of, counted, region_fault as region_fault_of};
ghost use Rattle.region_learn.specs.LearnAnswers.{regions_fault as regions_fault_of, text_fault as text_fault_of};

use crate::faults::LearnFault;
use enclosure_regions::{Range, Region};

/// The most ranges of a region.
const MOST_RANGES: usize = 64;

/// The most bytes of a region's ranges.
const MOST_BYTES: u32 = 65_536;

/// The most bytes of a region file.
const MOST_TEXT: usize = 65_536;

/// A count as it is told.
fn count(number: usize) -> u32
    ensures { result ≡ counted number }
{
    number.min(u32::MAX as usize) as u32
}

/// The number of bytes of ranges, as it is told.
fn byte_count(ranges: &[Range]) -> u32
    ensures { result ≡ counted (sum_by (λ range. range.length) ranges.now) }
{
    let mut bytes: u32 = 0;
    let mut rest = ranges;
    while let [range, more @ ..] = rest {
        bytes = bytes.saturating_add(range.length);
        rest = more;
    }
    bytes
}

/// Why a region has too many ranges or bytes, if it has.
fn region_fault(region: &Region) -> Option<LearnFault>
    ensures { result ≡ region_fault_of region.now }
{
    let ranges = region.ranges.len();
    if ranges > MOST_RANGES {
        return Some(LearnFault::Ranges {
            region: region.id,
            count: count(ranges),
        });
    }
    let bytes = byte_count(region.ranges.as_slice());
    if bytes > MOST_BYTES {
        return Some(LearnFault::Bytes {
            region: region.id,
            count: bytes,
        });
    }
    None
}

/// Why the first region with too many ranges or bytes has them, if there is one.
pub(crate) fn regions_fault(regions: &[Region]) -> Option<LearnFault>
    ensures { result ≡ regions_fault_of regions.now }
{
    let mut rest = regions;
    while let [region, more @ ..] = rest {
        if let Some(fault) = region_fault(region) {
            return Some(fault);
        }
        rest = more;
    }
    None
}

/// Why a text is too long, if it is.
pub(crate) fn text_fault(text: &[u8]) -> Option<LearnFault>
    ensures { result ≡ text_fault_of text.now }
{
    if text.len() > MOST_TEXT {
        return Some(LearnFault::TextSize {
            size: count(text.len()),
        });
    }
    None
}
