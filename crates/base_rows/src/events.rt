use crate::input::{hexadecimal, number};
use flow_base::{Point, Slot};
use flow_graph::{Arc, End, Event};

/// The point of an address, outside regions.
pub fn point(address: u32) -> Point {
    Point {
        region: 0,
        address,
        slot: Slot::Result,
    }
}

/// The event at a point in a region that a word names.
fn event_in(name: &str, point: Point, word: &str) -> Option<Event> {
    let region = word.parse::<u16>().ok()?;
    match name {
        "implicit" => Some(Event::Implicit { point, region }),
        "out" => Some(Event::Out { point, region }),
        _ => None,
    }
}

/// The event at a point, with a word for its mask, its other address or its region.
fn event_at(name: &str, first: Point, word: &str) -> Option<Event> {
    match name {
        "secret" => Some(Event::FromSecret { point: first }),
        "pass" => Some(Event::Pass {
            point: first,
            mask: hexadecimal(word)?,
        }),
        "link" => Some(Event::Link {
            source: first,
            target: point(number(word)?),
        }),
        _ => event_in(name, first, word),
    }
}

/// The event of a row: its name, and words for its addresses, its mask or its region.
pub fn event_of(name: &str, row: &str) -> Option<Event> {
    let mut words = row.split(' ');
    let address = number(words.next().unwrap_or(""))?;
    event_at(name, point(address), words.next().unwrap_or(""))
}

/// The end of a kind with a number.
fn numbered_end(kind: &str, number: &str) -> Option<End> {
    match kind {
        "point" => Some(End::Point(number.parse::<u32>().ok()?)),
        "relay" => Some(End::Relay(number.parse::<u16>().ok()?)),
        _ => None,
    }
}

/// The end that a word names: `source`, `sink`, `point:INDEX` or `relay:REGION`.
fn end_of(word: &str) -> Option<End> {
    match word {
        "source" => Some(End::Source),
        "sink" => Some(End::Sink),
        _ => match word.split_once(':') {
            Some((kind, number)) => numbered_end(kind, number),
            None => None,
        },
    }
}

/// The ends of the link that a word names.
fn ends_of(word: &str) -> Option<(End, End)> {
    match word.split_once('-') {
        Some((source, target)) => end_of(source).zip(end_of(target)),
        None => None,
    }
}

/// The link that a word names, `END-END`.
pub fn link_of(word: &str) -> Option<Arc> {
    match ends_of(word) {
        Some((source, target)) => Some(Arc { source, target }),
        None => None,
    }
}
