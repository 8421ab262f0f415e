ghost use Rattle.std.specs.Prelude.{◌≡◌, ◌<◌, ◌+◌, ◌^◌, ◌++◌, ◌∷◌, [], true, length, replicate, IfOk, OnOk};
ghost use Rattle.std.specs.List.{AllByRecursion, list_all};
ghost use Rattle.flow_base.specs.Points.{is_slot};
ghost use Rattle.cut_file.specs.Cuts.{are_runs, have_other_masks, is_point, is_point_of, is_run, neighbours_pass};
ghost use Rattle.cut_file.specs.Masks.{listed_masks};
ghost use Rattle.measuring.specs.CutRuns.{HasKeptMasks, as_run, as_runs, once, points_of, united_runs};
ghost use Rattle.measuring.specs.Cutting.{FitsCut};
ghost use Rattle.measuring.specs.Visits.{all_masks};
ghost use Rattle.measuring.specs.PointMasks.{point_masks};
ghost use Rattle.measuring.specs.VisitRuns.{is_visit_run, run_masks};

use crate::kept_visits::KeptVisits;
use crate::point_visits::{PointVisits, VisitRun};
use cut_file::{CutPoint, Run};
use flow_base::{List, NoMemory, Point, Slot};
use std::alloc::Global;

/// Puts a run of visits at the end.
fn put_run(runs: &mut List<Run>, run: VisitRun) -> Result<(), NoMemory>
    requires some { is_visit_run run ≡ true }
    requires few { run.count < 2 ^ 32 }
    ensures put { OnOk result (runs.new ≡ runs.old ++ as_run run ∷ []) }
    ensures valid { OnOk result (is_run (as_run run) ≡ true) }
{
    runs.push(Run {
        count: run.count as u32,
        mask: run.mask,
    })
}

/// Runs of visits as runs of a cut.
fn put_runs(runs: &mut List<Run>, visits: &[VisitRun]) -> Result<(), NoMemory>
    requires some { list_all is_visit_run visits.now ≡ true }
    requires few { length (run_masks visits.now) < 2 ^ 32 }
    requires valid { list_all is_run runs.old ≡ true }
    ensures put { OnOk result (runs.new ≡ runs.old ++ as_runs visits.now) }
    ensures valid { OnOk result (list_all is_run runs.new ≡ true) }
{
    let mut rest = visits;
    while let [run, more @ ..] = rest {
        put_run(runs, *run)?;
        rest = more;
    }
    Ok(())
}

/// Puts so many visits with mask 0 at the end, where no run of that mask stands.
fn put_clean(runs: &mut List<Run>, clean: u32) -> Result<(), NoMemory>
    requires valid { list_all is_run runs.old ≡ true }
    requires apart { neighbours_pass have_other_masks (runs.old ++ once 0) ≡ true }
    ensures masks { OnOk result (listed_masks runs.new ≡ listed_masks runs.old ++ replicate clean 0) }
    ensures valid { OnOk result (are_runs runs.new ≡ true) }
{
    if clean == 0 {
        return Ok(());
    }
    put_run(
        runs,
        VisitRun {
            count: u64::from(clean),
            mask: 0,
        },
    )
}

/// Puts the latest run of a point's visits at the end, and then so many visits with mask 0: they are one run where the
/// latest has that mask.
fn put_latest(runs: &mut List<Run>, latest: VisitRun, clean: u32) -> Result<(), NoMemory>
    requires some { is_visit_run latest ≡ true }
    requires few { latest.count + clean < 2 ^ 32 }
    requires valid { list_all is_run runs.old ≡ true }
    requires apart { neighbours_pass have_other_masks (runs.old ++ as_run latest ∷ []) ≡ true }
    ensures masks { OnOk result (listed_masks runs.new ≡ listed_masks runs.old
        ++ (replicate latest.count latest.mask ++ replicate clean 0)) }
    ensures valid { OnOk result (are_runs runs.new ≡ true) }
{
    if latest.mask == 0 {
        let count = latest.count + u64::from(clean);
        return put_run(runs, VisitRun { count, mask: 0 });
    }
    put_run(runs, latest)?;
    put_clean(runs, clean)
}

/// The masks of the visits of a point, and then so many visits with mask 0, as runs of a cut.
fn runs_of(alloc: Global, visits: &PointVisits, clean: u32) -> Result<List<Run>, NoMemory>
    requires { length (point_masks visits.now) + clean < 2 ^ 32 }
    ensures masks { IfOk result (λ runs. listed_masks runs ≡ point_masks visits.now ++ replicate clean 0) }
    ensures valid { IfOk result (λ runs. are_runs runs ≡ true) }
{
    let mut runs = List::new(alloc);
    put_runs(&mut runs, visits.earlier.as_slice())?;
    put_latest(&mut runs, visits.latest, clean)?;
    Ok(runs)
}

/// So many visits with mask 0 as runs of a cut.
fn clean_runs(alloc: Global, clean: u32) -> Result<List<Run>, NoMemory>
    ensures masks { IfOk result (λ runs. listed_masks runs ≡ replicate clean 0) }
    ensures valid { IfOk result (λ runs. are_runs runs ≡ true) }
{
    let mut runs = List::new(alloc);
    put_clean(&mut runs, clean)?;
    Ok(runs)
}

/// The masks that are kept of a point's visits as runs of a cut; none where it was not visited.
fn runs_at(alloc: Global, visits: &KeptVisits, point: &Point) -> Result<List<Run>, NoMemory>
    requires { length (all_masks visits.now point.now) < 2 ^ 32 }
    ensures masks { IfOk result (λ runs. listed_masks runs ≡ all_masks visits.now point.now) }
    ensures valid { IfOk result (λ runs. are_runs runs ≡ true) }
{
    let clean = visits.counts.count(point);
    match visits.points.get(point) {
        Some(kept) => runs_of(alloc, kept, clean),
        None => clean_runs(alloc, clean),
    }
}

/// The bits that the masks of some of the runs have.
fn union(runs: &[Run]) -> u32
    ensures { result ≡ united_runs runs.now }
{
    let mut mask = 0;
    let mut rest = runs;
    while let [run, more @ ..] = rest {
        mask |= run.mask;
        rest = more;
    }
    mask
}

/// One visit with this mask, as a pattern of masks.
fn pattern(alloc: Global, mask: u32) -> Result<List<Run>, NoMemory>
    ensures { IfOk result (λ rest. rest ≡ once mask) }
{
    let mut rest = List::new(alloc);
    rest.push(Run { count: 1, mask })?;
    Ok(rest)
}

/// The point of these parts; its slot is one that a turn can pass.
fn known_point(region: u16, address: u32, slot: Slot) -> Point
    requires { is_slot slot ≡ true }
    ensures point { result ≡ record { region = region; address = address; slot = slot } }
    ensures valid { is_point result ≡ true }
{
    Point {
        region,
        address,
        slot,
    }
}

/// A point of the cut with the masks of its visits, and after them their union.
fn cut_point(alloc: Global, visits: &KeptVisits, point: &Point) -> Result<CutPoint, NoMemory>
    requires { FitsCut visits.now point.now }
    ensures point { IfOk result (λ cut_point. cut_point.point ≡ point.now) }
    ensures masks { IfOk result (λ cut_point. HasKeptMasks visits.now cut_point) }
    ensures valid { IfOk result (λ cut_point. is_point_of 1 cut_point ≡ true) }
{
    let known = known_point(point.region, point.address, point.slot);
    let runs = runs_at(alloc, visits, &known)?;
    let rest = pattern(alloc, union(runs.as_slice()))?;
    Ok(CutPoint {
        point: known,
        runs,
        rest,
    })
}

/// The points of the cut, each with the masks of its visits, and after them their union.
pub(crate) fn cut_points(
    alloc: Global,
    visits: &KeptVisits,
    points: &[Point],
) -> Result<List<CutPoint>, NoMemory>
    requires { AllByRecursion (FitsCut visits.now) points.now }
    ensures points { IfOk result (λ made. points_of made ≡ points.now) }
    ensures masks { IfOk result (λ made. AllByRecursion (HasKeptMasks visits.now) made) }
    ensures valid { IfOk result (λ made. list_all (is_point_of 1) made ≡ true) }
{
    let mut made = List::new(alloc);
    let mut rest = points;
    while let [point, more @ ..] = rest {
        let next = cut_point(alloc, visits, point)?;
        made.push(next)?;
        rest = more;
    }
    Ok(made)
}
