ghost use Rattle.std.specs.Prelude.{◌≡◌};
ghost use Rattle.std.specs.Ordering.{nat_cmp};
ghost use Rattle.flow_certificate.specs.Private.Drafts.{link_line_cmp, may_follow, point_line_cmp};

use crate::lines::{LinkLine, PointLine};

/// Whether a point comes after the last of these.
pub fn may_follow_points(points: &[PointLine], line: &PointLine) -> bool
    ensures { result ≡ may_follow point_line_cmp points.now line.now }
{
    match points {
        [.., last] => last.point.is_below(line.point),
        [] => true,
    }
}

/// Whether a region comes after the last of these.
pub fn may_follow_regions(regions: &[u16], region: u16) -> bool
    ensures { result ≡ may_follow nat_cmp regions.now region }
{
    match regions {
        [.., last] => *last < region,
        [] => true,
    }
}

/// Whether a link comes after the last of these.
pub fn may_follow_links(links: &[LinkLine], line: &LinkLine) -> bool
    ensures { result ≡ may_follow link_line_cmp links.now line.now }
{
    match links {
        [.., last] => last.link.cmp(&line.link).is_lt(),
        [] => true,
    }
}
