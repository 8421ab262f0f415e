use crate::patterns::Pattern;
use crate::stops::PathStop;
use crate::whys::UnclearWhy;

/// How a path ends.
#[derive(Drop)]
pub(crate) enum PathEnd {
    Exits(Pattern),
    Stops(PathStop),
    Unclear(UnclearWhy),
}
