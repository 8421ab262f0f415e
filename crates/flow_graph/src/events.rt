ghost use Rattle.std.specs.Prelude.{◌++◌, ◌∷◌, [], List as Seq, OnOk};
ghost use Rattle.flow_graph.specs.declared.events.Event.{Event as AnEvent};
ghost use Rattle.flow_graph.specs.Events.{again_events};

use flow_base::{NoMemory, Point};

/// What one step of a measured run adds to its graph (McCamant and Ernst, PLDI 2008).
#[derive(Clone, Copy)]
pub enum Event {
    /// A value passes a point; the bits of the mask may depend on the secret.
    Pass { point: Point, mask: u32 },
    /// Bits that passed the source flow on to the target.
    Link { source: Point, target: Point },
    /// The point takes a byte of the secret.
    FromSecret { point: Point },
    /// Bits that passed the point decide which way the program goes on: in a region towards the region's outputs, in
    /// region 0 towards all that can be seen of the run.
    Implicit { point: Point, region: u16 },
    /// An output of a region, at its leave, passes the point.
    Out { region: u16, point: Point },
}

/// A receiver of events. Its meaning is a relation, `stands_for`: which lists of events a value stands for.
pub trait Events {
    ghost stands_for: { Self → Seq AnEvent → Type 0 };

    /// Takes an event. Where the receiver stood for a list and takes the event, it stands for that list with the event
    /// at its end. Where memory is short it answers so.
    fn add(&mut self, event: Event) -> Result<(), NoMemory>
        ensures { OnOk result ((events : Seq AnEvent) → stands_for self.old events
            → stands_for self.new (events ++ event ∷ [])) };

    /// Takes the events of an output of a region that gives out again what it gave before: bits of the mask pass the
    /// point, they flowed there from the point itself, and the region gives them out. A receiver may know these links
    /// already, and only count. Where memory is short it answers so, and may have taken a first part of them.
    fn add_again(&mut self, point: Point, mask: u32) -> Result<(), NoMemory>
        ensures { OnOk result ((events : Seq AnEvent) → stands_for self.old events
            → stands_for self.new (events ++ again_events point mask)) }
    {
        self.add(Event::Pass { point, mask })?;
        self.add(Event::Link {
            source: point,
            target: point,
        })?;
        self.add(Event::Out {
            region: point.region,
            point,
        })
    }
}
