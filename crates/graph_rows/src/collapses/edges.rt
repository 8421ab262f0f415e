ghost use Rattle.std.specs.Prelude.{◌≡◌};
ghost use Rattle.graph_rows.specs.Words.{fault_word as word_of_fault};

use crate::collapses::loads::Load;
use flow_graph::Event;
use location_collapse::{Collapse, CollapseFault};
use std::alloc::Global;
use std::fmt;

/// A graph with as many points or links as there may be, or both.
#[derive(Clone, Copy)]
pub enum Edge {
    Points,
    Links,
    Both,
    BothByLink,
}

/// What is answered to events at a limit, each as a word.
#[derive(Clone, Copy)]
pub struct Answers {
    point: &'static str,
    link: &'static str,
    unmasked: &'static str,
    passed_over: &'static str,
    more: &'static str,
    again: &'static str,
    known: &'static str,
}

/// What is found at a limit.
#[derive(Clone, Copy)]
pub struct Found {
    pub answers: Answers,
    pub points: usize,
    pub relays: usize,
    pub links: usize,
}

impl fmt::Display for Answers {
    fn fmt<W: fmt::Write>(&self, f: &mut fmt::Formatter<W>) -> fmt::Result {
        let Answers {
            point,
            link,
            unmasked,
            passed_over,
            more,
            again,
            known,
        } = *self;
        write!(
            f,
            "known {point} {link} passed over {unmasked} {passed_over} "
        )?;
        write!(f, "more {more} again {again} then {known}")
    }
}

pub const EDGES: [Edge; 4] = [Edge::Points, Edge::Links, Edge::Both, Edge::BothByLink];

/// Why an event was not taken, as a word.
fn fault_word(fault: CollapseFault) -> &'static str
    ensures { result.now ≡ word_of_fault fault }
{
    match fault {
        CollapseFault::Limit => "limit",
        CollapseFault::Memory => "memory",
    }
}

/// An answer as a word.
fn word_of(answer: Result<(), CollapseFault>) -> &'static str {
    match answer {
        Ok(()) => "taken",
        Err(fault) => fault_word(fault),
    }
}

impl Edge {
    /// Its name in a row.
    pub fn name(self) -> &'static str {
        match self {
            Edge::Points => "points",
            Edge::Links => "links",
            Edge::Both => "both-by-point",
            Edge::BothByLink => "both-by-link",
        }
    }

    fn load(self) -> Load {
        let (points, links) = match self {
            Edge::Points => (65_536, 0),
            Edge::Links => (1_024, 1_048_576),
            Edge::Both | Edge::BothByLink => (65_536, 1_048_576),
        };
        Load {
            points,
            links,
            events: 0,
        }
    }

    /// The event that exceeds the limit: a point or a link more.
    fn more(self, load: &Load) -> Event {
        match self {
            Edge::Points | Edge::Both => load.pass(load.points),
            Edge::Links | Edge::BothByLink => Event::FromSecret {
                point: load.point(0),
            },
        }
    }

    /// The answers to a point and a link that are known, to a mask of 0 at a point that is not, to a link to such a
    /// point, to the event that exceeds the limit, to this event again and to a point that is known.
    fn answers(self, load: &Load, collapse: &mut Collapse) -> Answers {
        let unmasked = Event::Pass {
            point: load.point(load.points),
            mask: 0,
        };
        let passed_over = Event::Implicit {
            point: load.point(load.points),
            region: 7,
        };
        Answers {
            point: word_of(collapse.add(load.pass(0))),
            link: word_of(collapse.add(load.link(0))),
            unmasked: word_of(collapse.add(unmasked)),
            passed_over: word_of(collapse.add(passed_over)),
            more: word_of(collapse.add(self.more(load))),
            again: word_of(collapse.add(self.more(load))),
            known: word_of(collapse.add(load.pass(0))),
        }
    }

    /// These answers, and how many points, relays and links the graph has that is left.
    pub fn found(self, alloc: Global) -> Result<Found, CollapseFault> {
        let load = self.load();
        let mut collapse = load.start(alloc)?;
        let answers = self.answers(&load, &mut collapse);
        match collapse.finish(alloc) {
            Ok(graph) => Ok(Found {
                answers,
                points: graph.points.len(),
                relays: graph.relays.len(),
                links: graph.links.len(),
            }),
            Err(_) => Err(CollapseFault::Memory),
        }
    }
}
