ghost use Rattle.std.specs.Prelude.{◌≡◌, min, max, ◌&&◌};
ghost use Rattle.every_secret.specs.Private.Sums.{no_paths, added};

use crate::counts::sum_of;

/// What is known of all paths below a place that are done.
#[derive(Clone, Copy)]
pub(crate) struct Sum {
    /// How many there are; None where these are 2^64 or more.
    pub paths: Option<u64>,
    /// How many of them stop; None where these are 2^64 or more.
    pub stopped: Option<u64>,
    /// The fewest turns that are left at the end of one.
    pub after: u32,
    /// The most bits that have crossed at the end of one.
    pub crossed: u32,
    /// Whether none of them ends by the limit of turns, so that they are the same from the same state.
    pub repeats: bool,
}

impl Sum {
    /// Of no path.
    pub fn none() -> Sum
        ensures { result ≡ no_paths }
    {
        Sum {
            paths: Some(0),
            stopped: Some(0),
            after: u32::MAX,
            crossed: 0,
            repeats: true,
        }
    }

    /// With more paths.
    pub fn with(self, more: Sum) -> Sum
        ensures { result ≡ added self more }
    {
        Sum {
            paths: sum_of(self.paths, more.paths),
            stopped: sum_of(self.stopped, more.stopped),
            after: self.after.min(more.after),
            crossed: self.crossed.max(more.crossed),
            repeats: self.repeats && more.repeats,
        }
    }
}
