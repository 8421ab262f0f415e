ghost use Rattle.std.specs.Prelude.{◌++◌, ◌∷◌, [], IsTrue};
ghost use Rattle.measuring.specs.VisitRuns.{are_visit_runs};

use flow_base::{List, NoMemory};
use std::alloc::Global;

/// A mask that is the same for a number of visits of a point.
#[derive(Clone, Copy)]
pub struct VisitRun {
    /// The number of visits, 1 or more.
    pub count: u64,
    /// The mask at each of them.
    pub mask: u32,
}

/// The masks of the visits of one point that was visited, in order, as runs: neighbouring runs have different masks,
/// unless the two together have 2^64 visits or more.
#[derive(Drop)]
pub struct PointVisits {
    /// The runs before the latest.
    pub earlier: List<VisitRun>,
    /// The run of the latest visit.
    pub latest: VisitRun,
    ghost sound: { IsTrue (are_visit_runs (earlier ++ latest ∷ [])) },
}

impl PointVisits {
    ghost use Rattle.std.specs.Prelude.{◌≡◌, ◌++◌, replicate, true, OnOk, OnErr};
    ghost use Rattle.measuring.specs.PointMasks.{point_masks};
    ghost use Rattle.measuring.specs.VisitRuns.{is_visit_run, stay_apart};

    /// The visits of one run. It takes no memory.
    pub fn first(alloc: Global, run: VisitRun) -> PointVisits
        requires { is_visit_run run ≡ true }
        ensures { point_masks result ≡ replicate run.count run.mask }
    {
        PointVisits {
            earlier: List::new(alloc),
            latest: run,
        }
    }

    /// The visits of a run more. `NoMemory` where there is not enough; the visits stay then.
    #[inline(always)]
    pub fn add(&mut self, run: VisitRun) -> Result<(), NoMemory>
        requires { is_visit_run run ≡ true }
        ensures ok { OnOk result (point_masks self.new ≡ point_masks self.old ++ replicate run.count run.mask) }
        ensures err { OnErr result (self.new ≡ self.old) }
    {
        if self.latest.mask != run.mask {
            return self.begin(run);
        }
        match self.latest.count.checked_add(run.count) {
            Some(count) => {
                self.latest.count = count;
                Ok(())
            }
            None => self.begin(run),
        }
    }

    /// A new run, which cannot be one with the latest.
    #[inline(never)]
    fn begin(&mut self, run: VisitRun) -> Result<(), NoMemory>
        requires some { is_visit_run run ≡ true }
        requires apart { stay_apart self.old.latest run ≡ true }
        ensures ok { OnOk result (point_masks self.new ≡ point_masks self.old ++ replicate run.count run.mask) }
        ensures err { OnErr result (self.new ≡ self.old) }
    {
        let latest = self.latest;
        match self.earlier.push(latest) {
            Ok(()) => {
                self.latest = run;
                Ok(())
            }
            Err(_) => Err(NoMemory),
        }
    }
}
