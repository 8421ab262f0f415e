ghost use Rattle.std.specs.Prelude.{◌≡◌, ◌++◌, ◌∷◌, [], OnOk, OnErr};

use crate::events::{Event, Events};
use flow_base::{List, NoMemory};
use std::alloc::Global;
use std::marker::Model;

/// The events that were added, in order. It stands for exactly that list.
#[derive(Drop)]
pub struct EventList {
    events: List<Event>,
}

impl Model for EventList {
    ghost use Rattle.std.specs.Prelude.{List as Seq};
    ghost use Rattle.flow_graph.specs.declared.events.Event.{Event as AnEvent};

    ghost Value = { Seq AnEvent };

    ghost view = { λ l. l.events };
}

impl EventList {
    /// No events. It takes no memory.
    pub fn new(alloc: Global) -> EventList
        ensures { result ≡ [] }
    {
        EventList {
            events: List::new(alloc),
        }
    }

    /// The events in order.
    pub fn events(&self) -> &List<Event>
        ensures { result.now ≡ self.now }
    {
        &self.events
    }
}

impl Events for EventList {
    ghost use Rattle.std.specs.Prelude.{◌≡◌, ◌++◌, ◌∷◌, [], OnOk, OnErr, List as Seq};
    ghost use Rattle.flow_graph.specs.declared.events.Event.{Event as AnEvent};

    ghost stands_for = { λ list events. list ≡ events };

    /// Puts the event at the end; where memory is short the list stays as it was.
    fn add(&mut self, event: Event) -> Result<(), NoMemory>
        ensures stands { OnOk result ((events : Seq AnEvent) → self.old ≡ events → self.new ≡ events ++ event ∷ []) }
        ensures ok { OnOk result (self.new ≡ self.old ++ event ∷ []) }
        ensures err { OnErr result (self.new ≡ self.old) }
    {
        self.events.push(event)
    }
}
