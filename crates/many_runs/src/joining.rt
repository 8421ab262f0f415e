ghost use Rattle.std.specs.Prelude.{◌≡◌, ◌++◌, IfOk, OnOk, option_copied};
ghost use Rattle.measuring.specs.KeptVisits.{masks_if_any};
ghost use Rattle.measuring.specs.VisitRuns.{run_masks};
ghost use Rattle.measuring.specs.Visits.{all_masks};
ghost use Rattle.many_runs.specs.Private.Joining.{recorded_masks};
ghost use Rattle.many_runs.specs.Uniting.{united_masks};

use flow_base::{List, NoMemory, Point};
use measuring::{KeptVisits, PointVisits, Recording, VisitRun};
use std::alloc::Global;

/// Puts runs of visits at the end.
fn put_all(runs: &mut List<VisitRun>, more: &[VisitRun]) -> Result<(), NoMemory>
    ensures { OnOk result (runs.new ≡ runs.old ++ more.now) }
{
    let mut rest = more;
    while let [run, others @ ..] = rest {
        runs.push(*run)?;
        rest = others;
    }
    Ok(())
}

/// The masks that are kept of the visits of a point, as runs.
fn kept_runs(alloc: Global, visits: Option<&PointVisits>) -> Result<List<VisitRun>, NoMemory>
    ensures { IfOk result (λ runs. run_masks runs ≡ masks_if_any (option_copied visits.entry)) }
{
    let mut runs = List::new(alloc);
    let Some(kept) = visits else {
        return Ok(runs);
    };
    put_all(&mut runs, kept.earlier.as_slice())?;
    runs.push(kept.latest)?;
    Ok(runs)
}

/// The masks of the visits of a point, as runs.
fn runs_at(alloc: Global, visits: &KeptVisits, point: &Point) -> Result<List<VisitRun>, NoMemory>
    ensures { IfOk result (λ runs. run_masks runs ≡ all_masks visits.now point.now) }
{
    let mut runs = kept_runs(alloc, visits.points.get(point))?;
    runs.push(VisitRun {
        count: u64::from(visits.counts.count(point)),
        mask: 0,
    })?;
    Ok(runs)
}

/// The masks of a point in two runs, visit by visit.
fn join(alloc: Global, first: &[VisitRun], second: &[VisitRun]) -> Result<List<VisitRun>, NoMemory>
    ensures { IfOk result (λ runs. run_masks runs ≡ united_masks (run_masks first.now) (run_masks second.now)) }
{
    let mut runs = List::new(alloc);
    let mut one = VisitRun { count: 0, mask: 0 };
    let mut other = VisitRun { count: 0, mask: 0 };
    let mut ones = first;
    let mut others = second;
    'visits: loop {
        if one.count == 0 {
            let [next, more @ ..] = ones else {
                runs.push(other)?;
                put_all(&mut runs, others)?;
                return Ok(runs);
            };
            one = *next;
            ones = more;
        } else if other.count == 0 {
            let [next, more @ ..] = others else {
                runs.push(one)?;
                put_all(&mut runs, ones)?;
                return Ok(runs);
            };
            other = *next;
            others = more;
        } else {
            let count = one.count.min(other.count);
            runs.push(VisitRun {
                count,
                mask: one.mask | other.mask,
            })?;
            one.count -= count;
            other.count -= count;
        }
    }
}

/// The masks of a point in all recordings, visit by visit.
pub(crate) fn joined_runs(
    alloc: Global,
    recordings: &[Recording],
    point: &Point,
) -> Result<List<VisitRun>, NoMemory>
    ensures { IfOk result (λ runs. run_masks runs ≡ recorded_masks point.now recordings.now) }
{
    match recordings {
        [] => Ok(List::new(alloc)),
        [recording, rest @ ..] => {
            let here = runs_at(alloc, &recording.visits, point)?;
            let there = joined_runs(alloc, rest, point)?;
            join(alloc, here.as_slice(), there.as_slice())
        }
    }
}
