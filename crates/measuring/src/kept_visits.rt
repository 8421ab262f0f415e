ghost use Rattle.std.specs.Prelude.{◌≡◌, ◌<◌, ◌++◌, ◌∷◌, [], true};
ghost use Rattle.std.specs.Prelude.{length, None, List as Seq, OnOk};
ghost use Rattle.std.specs.Map.{lookup};
ghost use Rattle.flow_base.specs.declared.points.Point.{Point as ThePoint};
ghost use Rattle.flow_graph.specs.declared.events.Event.{Event as AnEvent};
ghost use Rattle.flow_base.specs.PointOrders.{is_same};
ghost use Rattle.hinted_map.specs.Maps.{StandsAt};
ghost use Rattle.measuring.specs.KeptVisits.{Adds};
ghost use Rattle.measuring.specs.Visits.{AddsVisit, HasVisits, Settles, all_masks};
ghost use Rattle.measuring.specs.VisitRuns.{is_visit_run};

use crate::point_visits::{PointVisits, VisitRun};
use crate::visit_counts::VisitCounts;
use flow_base::{NoMemory, Point};
use flow_graph::Event;
use hinted_map::HintedMap;
use std::alloc::Global;

/// The masks of the visits of each point that was visited, those of mask 0 too. Visits of mask 0 that are the latest of
/// their point are counted; all before them are kept as runs of equal masks, the points in the order in which they
/// first had such a run.
#[derive(Drop)]
pub struct KeptVisits {
    pub counts: VisitCounts,
    pub points: HintedMap<Point, PointVisits>,
    pub alloc: Global,
}

impl KeptVisits {
    /// No visits. It takes no memory.
    pub fn new(alloc: Global) -> KeptVisits
        ensures { (q : ThePoint) → all_masks result q ≡ [] }
    {
        KeptVisits {
            counts: VisitCounts::new(alloc),
            points: HintedMap::new(alloc),
            alloc,
        }
    }

    /// The first run of a point.
    #[inline(never)]
    fn start(&mut self, point: Point, run: VisitRun) -> Result<(), NoMemory>
        requires unknown { lookup (is_same point) self.old.points.map.entries ≡ None }
        requires some { is_visit_run run ≡ true }
        ensures ok { OnOk result (Adds self.old.points.map.entries self.new.points.map.entries point run) }
        ensures counts { self.new.counts ≡ self.old.counts }
    {
        let visits = PointVisits::first(self.alloc, run);
        self.points.add(point, visits)?;
        Ok(())
    }

    /// A run more of the point at an index.
    #[inline(always)]
    fn again(&mut self, index: usize, run: VisitRun) -> Result<(), NoMemory>
        requires within { index < length self.old.points.map.entries }
        requires some { is_visit_run run ≡ true }
        ensures ok { OnOk result ((p : ThePoint) → StandsAt is_same self.old.points.map.entries p index →
            Adds self.old.points.map.entries self.new.points.map.entries p run) }
        ensures counts { self.new.counts ≡ self.old.counts }
    {
        self.points.note(index);
        self.points.map[index].add(run)
    }

    /// A run more of a point.
    #[inline(always)]
    fn put(&mut self, point: Point, run: VisitRun) -> Result<(), NoMemory>
        requires { is_visit_run run ≡ true }
        ensures ok { OnOk result (Adds self.old.points.map.entries self.new.points.map.entries point run) }
        ensures counts { self.new.counts ≡ self.old.counts }
    {
        match self.points.find(&point) {
            Some(index) => self.again(index, run),
            None => self.start(point, run),
        }
    }

    /// The visits of a point that are counted become a run. The masks stay.
    #[inline(always)]
    fn settle(&mut self, point: Point) -> Result<(), NoMemory>
        ensures { OnOk result (Settles self.old self.new point) }
    {
        let count = self.counts.clear(&point)?;
        if count == 0 {
            return Ok(());
        }
        self.put(
            point,
            VisitRun {
                count: u64::from(count),
                mask: 0,
            },
        )
    }

    /// One visit more of a point, which is kept in a run.
    #[inline(always)]
    fn visit_in_runs(&mut self, point: Point, mask: u32) -> Result<(), NoMemory>
        ensures { OnOk result (AddsVisit self.old self.new point mask) }
    {
        self.settle(point)?;
        self.put(point, VisitRun { count: 1, mask })
    }

    /// One visit more of a point with mask 0, which is kept in a run.
    #[inline(never)]
    fn visit_uncounted(&mut self, point: Point) -> Result<(), NoMemory>
        ensures { OnOk result (AddsVisit self.old self.new point 0) }
    {
        self.visit_in_runs(point, 0)
    }

    /// One visit more of a point, with mask 0.
    #[inline(always)]
    fn visit_clean(&mut self, point: Point) -> Result<(), NoMemory>
        ensures { OnOk result (AddsVisit self.old self.new point 0) }
    {
        let counted = self.counts.more(&point)?;
        if counted {
            Ok(())
        } else {
            self.visit_uncounted(point)
        }
    }

    /// One visit more of a point.
    #[inline(always)]
    fn visit(&mut self, point: Point, mask: u32) -> Result<(), NoMemory>
        ensures { OnOk result (AddsVisit self.old self.new point mask) }
    {
        if mask == 0 {
            self.visit_clean(point)
        } else {
            self.visit_in_runs(point, mask)
        }
    }

    /// Takes an event: a visit, if it is one. Its error is lack of memory.
    #[inline(always)]
    pub fn take(&mut self, event: Event) -> Result<(), NoMemory>
        ensures { OnOk result ((events : Seq AnEvent) → HasVisits self.old events → HasVisits self.new
            (events ++ event ∷ [])) }
    {
        match event {
            Event::Pass { point, mask } => self.visit(point, mask),
            _ => Ok(()),
        }
    }
}
