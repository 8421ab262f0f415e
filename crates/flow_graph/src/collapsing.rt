ghost use Rattle.std.specs.Prelude.{◌≡◌, ◌^◌, IfOk, length, nat_lt, true};
ghost use Rattle.flow_graph.specs.EventGraphs.{HasFewPoints, IsGraphOf};
ghost use Rattle.flow_graph.specs.Builders.{StandsFor};

use crate::builders::Builder;
use crate::event_lists::EventList;
use crate::events::Event;
use crate::graphs::Graph;
use flow_base::NoMemory;
use std::alloc::Global;

/// Whether there are fewer than 2^32 events, so that their points are fewer than 2^32 in number.
pub fn has_few_events(events: &EventList) -> bool
    ensures few { result ≡ true → HasFewPoints events.now }
    ensures count { result ≡ nat_lt (length events.now) (2 ^ 32) }
{
    events.events().len() < 4_294_967_296
}

/// The builder that stands for a list of events. Its error is lack of memory.
fn builder_of(alloc: Global, events: &[Event]) -> Result<Builder, NoMemory>
    ensures { IfOk result (λ builder. StandsFor builder events.now) }
{
    let mut builder = Builder::new(alloc);
    for event in events {
        builder.add(*event)?;
    }
    Ok(builder)
}

/// The graph of a list of events whose points are fewer than 2^32 in number (McCamant and Ernst, PLDI 2008, with the
/// visits of a point collapsed to one node). Its error is lack of memory.
pub fn graph_of(alloc: Global, events: &EventList) -> Result<Graph, NoMemory>
    requires { HasFewPoints events.now }
    ensures { IfOk result (λ graph. IsGraphOf events.now graph) }
{
    let builder = builder_of(alloc, events.events().as_slice())?;
    let graph = builder.finish(alloc)?;
    Ok(graph)
}
