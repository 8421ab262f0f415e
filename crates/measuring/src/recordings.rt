ghost use Rattle.std.specs.Prelude.{◌≡◌, [], IfOk, false};
ghost use Rattle.measuring.specs.Recordings.{Records};

use crate::kept_visits::KeptVisits;
use flow_base::{NoMemory, Point};
use flow_graph::{Event, Events};
use location_collapse::{Collapse, CollapseFault, more_events_exceed};
use std::alloc::Global;

/// A receiver of a run's events: it keeps their graph and the masks of each point's visits, and no event. Once their
/// graph exceeds a limit it notes that, and takes every event and keeps nothing more.
#[derive(Drop)]
pub struct Recording {
    /// The graph of the events.
    pub collapse: Collapse,
    /// The masks of the visits of each point.
    pub visits: KeptVisits,
}

impl Recording {
    /// No events. Its error is lack of memory.
    pub fn new(alloc: Global) -> Result<Recording, NoMemory>
        ensures { IfOk result (λ recording. Records recording []) }
    {
        let collapse = Collapse::new(alloc)?;
        Ok(Recording {
            collapse,
            visits: KeptVisits::new(alloc),
        })
    }
}

impl Events for Recording {
    ghost use Rattle.std.specs.Prelude.{◌++◌, ◌∷◌, [], List as Seq, OnOk};
    ghost use Rattle.flow_graph.specs.declared.events.Event.{Event as AnEvent};
    ghost use Rattle.flow_graph.specs.Events.{again_events};
    ghost use Rattle.measuring.specs.Recordings.{Records};

    ghost stands_for = { λ recording events. Records recording events };

    /// Takes an event. Where the graph exceeds a limit with it, or did so before, nothing is kept of it.
    #[inline(always)]
    fn add(&mut self, event: Event) -> Result<(), NoMemory>
        ensures { OnOk result ((events : Seq AnEvent) → Records self.old events → Records self.new
            (events ++ event ∷ [])) }
    {
        more_events_exceed();
        match self.collapse.add(event) {
            Ok(()) => self.visits.take(event),
            Err(CollapseFault::Limit) => Ok(()),
            Err(CollapseFault::Memory) => Err(NoMemory),
        }
    }

    /// Takes the events of an output that gives out again what it gave before. A run may make billions of these, and
    /// mostly they are only counted.
    #[inline(always)]
    fn add_again(&mut self, point: Point, mask: u32) -> Result<(), NoMemory>
        ensures { OnOk result ((events : Seq AnEvent) → Records self.old events → Records self.new
            (events ++ again_events point mask)) }
    {
        more_events_exceed();
        match self.collapse.add_again(&point, mask) {
            Ok(()) => self.visits.take(Event::Pass { point, mask }),
            Err(CollapseFault::Limit) => Ok(()),
            Err(CollapseFault::Memory) => Err(NoMemory),
        }
    }
}
