ghost use Rattle.std.specs.Prelude.{◌++◌, List as Seq, OnOk};
ghost use Rattle.std.specs.Map.{keys_of};
ghost use Rattle.flow_graph.specs.declared.events.Event.{Event as AnEvent};
ghost use Rattle.measuring.specs.Recordings.{Records};
ghost use Rattle.many_runs.specs.Private.Joining.{event_between, link_events};

use flow_base::NoMemory;
use flow_graph::{Event, Events, NamedEnd, NamedLink};
use indexmap::IndexMap;
use measuring::Recording;

/// Adds the event that makes a link.
fn add_link(union: &mut Recording, link: &NamedLink) -> Result<(), NoMemory>
    ensures { OnOk result ((events : Seq AnEvent) → Records union.old events → Records union.new
        (events ++ event_between link.now.source link.now.target)) }
{
    match (link.source, link.target) {
        (NamedEnd::Source, NamedEnd::At(point)) => union.add(Event::FromSecret { point }),
        (NamedEnd::At(source), NamedEnd::At(target)) => union.add(Event::Link { source, target }),
        (NamedEnd::At(point), NamedEnd::Relay(region)) => union.add(Event::Implicit {
            point,
            region,
        }),
        (NamedEnd::At(point), NamedEnd::Sink) => union.add(Event::Implicit { point, region: 0 }),
        (NamedEnd::Relay(region), NamedEnd::At(point)) => union.add(Event::Out { region, point }),
        _ => Ok(()),
    }
}

/// Adds the events that make the links of a recording.
pub(crate) fn add_links(
    union: &mut Recording,
    named: &IndexMap<NamedLink, ()>,
) -> Result<(), NoMemory>
    ensures { OnOk result ((events : Seq AnEvent) → Records union.old events → Records union.new
        (events ++ link_events (keys_of named.now.entries))) }
{
    for index in 0..named.len() {
        if let Some((link, _)) = named.get_index(index) {
            add_link(union, link)?;
        }
    }
    Ok(())
}
