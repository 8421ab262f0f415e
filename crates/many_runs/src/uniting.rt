ghost use Rattle.std.specs.Prelude.{◌≡◌, ◌++◌, List as Seq, IfOk, OnOk, replicate};
ghost use Rattle.flow_graph.specs.declared.events.Event.{Event as AnEvent};
ghost use Rattle.measuring.specs.Recordings.{Records};
ghost use Rattle.measuring.specs.VisitRuns.{run_masks};
ghost use Rattle.many_runs.specs.Private.Joining.{passes, passes_at, recorded_links, recorded_masks};
ghost use Rattle.many_runs.specs.Private.Recordings.{AllKeep, RecordsUnion};

use crate::joining::joined_runs;
use crate::links::add_links;
use crate::points::all_points;
use flow_base::{NoMemory, Point};
use flow_graph::{Event, Events};
use measuring::{Recording, VisitRun};
use std::alloc::Global;

/// Adds so many visits of a point.
fn add_visits(union: &mut Recording, point: Point, run: VisitRun) -> Result<(), NoMemory>
    ensures { OnOk result ((events : Seq AnEvent) → Records union.old events → Records union.new
        (events ++ passes point (replicate run.count run.mask))) }
{
    for _visit in 0..run.count {
        union.add(Event::Pass {
            point,
            mask: run.mask,
        })?;
    }
    Ok(())
}

/// Adds the visits of a point.
fn add_runs(union: &mut Recording, point: Point, runs: &[VisitRun]) -> Result<(), NoMemory>
    ensures { OnOk result ((events : Seq AnEvent) → Records union.old events → Records union.new
        (events ++ passes point (run_masks runs.now))) }
{
    let mut rest = runs;
    while let [run, more @ ..] = rest {
        add_visits(union, point, *run)?;
        rest = more;
    }
    Ok(())
}

/// Adds the visits of points in all recordings, visit by visit.
fn add_points(
    alloc: Global,
    union: &mut Recording,
    recordings: &[Recording],
    points: &[Point],
) -> Result<(), NoMemory>
    ensures { OnOk result ((events : Seq AnEvent) → Records union.old events → Records union.new
        (events ++ passes_at recordings.now points.now)) }
{
    let mut rest = points;
    while let [point, more @ ..] = rest {
        let runs = joined_runs(alloc, recordings, point)?;
        add_runs(union, *point, runs.as_slice())?;
        rest = more;
    }
    Ok(())
}

/// Adds the links of all recordings.
fn add_all_links(union: &mut Recording, recordings: &[Recording]) -> Result<(), NoMemory>
    ensures { OnOk result ((events : Seq AnEvent) → Records union.old events → Records union.new
        (events ++ recorded_links recordings.now)) }
{
    let mut rest = recordings;
    while let [recording, more @ ..] = rest {
        add_links(union, &recording.collapse.links.named.map)?;
        rest = more;
    }
    Ok(())
}

/// A recording of what several recordings have together: of each point the masks of all, visit by visit, and the links of
/// all. Its error is lack of memory.
pub(crate) fn unite(alloc: Global, recordings: &[Recording]) -> Result<Recording, NoMemory>
    ensures { IfOk result (λ union. (runs : Seq (Seq AnEvent)) → AllKeep recordings.now runs → RecordsUnion runs union) }
{
    let points = all_points(alloc, recordings)?;
    let mut union = Recording::new(alloc)?;
    add_points(alloc, &mut union, recordings, points.as_slice())?;
    add_all_links(&mut union, recordings)?;
    Ok(union)
}
