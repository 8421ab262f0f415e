use crate::pattern_set::PatternSet;
use crate::verdicts::StoppedPath;

/// What the paths that were walked so far show, none of which is unclear.
#[derive(Drop)]
pub(crate) struct Findings {
    /// The different patterns, in the order in which they were first found.
    pub patterns: PatternSet,
    /// The first path that stops, if one does.
    pub first_stop: Option<StoppedPath>,
}
