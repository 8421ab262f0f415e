ghost use Rattle.std.specs.Prelude.{◌≡◌};
ghost use Rattle.flow_certificate.specs.Private.Guessing.{below as below_limit, end_at as end_in, guess as guessed};
ghost use Rattle.flow_certificate.specs.Private.Guessing.{half_of as half_named, link_at as link_in, point_at as point_in};
ghost use Rattle.flow_certificate.specs.Private.Guessing.{relay_at as relay_in};

use crate::lines::{Line, LinkLine, PointLine, RelayLine};
use flow_base::{Point, byte_at, number_in_front, skip, slot_in_front, word_in_front};
use flow_graph::{Arc, End};
use max_flow::Half;

/// A number as one of 16 bits, or 0.
fn short(number: u64) -> u16
    ensures { result ≡ below_limit 65536 number }
{
    if number < 65_536 { number as u16 } else { 0 }
}

/// A number as one of 32 bits, or 0.
fn word(number: u64) -> u32
    ensures { result ≡ below_limit 4294967296 number }
{
    if number < 4_294_967_296 {
        number as u32
    } else {
        0
    }
}

/// The end of a link in front, and the rest.
#[tactic(auto, unfolding(crate::specs::Private::Guessing::end_at))]
fn end_at(bytes: &[u8]) -> (End, &[u8])
    ensures { (result.0, result.1.now) ≡ end_in bytes.now }
{
    let first = byte_at(bytes, 0);
    let (number, rest) = number_in_front(skip(bytes, 1));
    if first == b'p' {
        (End::Point(word(number)), rest)
    } else if first == b'r' {
        (End::Relay(short(number)), rest)
    } else if byte_at(bytes, 1) == b'o' {
        (End::Source, skip(bytes, 6))
    } else {
        (End::Sink, skip(bytes, 4))
    }
}

/// The halves of a point by their letter.
fn half_of(letter: u8) -> Half
    ensures { result ≡ half_named letter }
{
    match letter {
        b's' => Half::Both,
        b'm' => Half::FirstOnly,
        b'o' => Half::SecondOnly,
        _ => Half::Neither,
    }
}

/// The parts of the line of a point, after its first word.
#[tactic(auto, unfolding(crate::specs::Private::Guessing::point_at))]
fn point_at(bytes: &[u8]) -> PointLine
    ensures { result ≡ point_in bytes.now }
{
    let (region, rest) = number_in_front(bytes);
    let address = word_in_front(skip(rest, 3));
    let (slot, rest) = slot_in_front(skip(rest, 12));
    let (capacity, rest) = number_in_front(skip(rest, 10));
    let (flow, rest) = number_in_front(skip(rest, 6));
    PointLine {
        point: Point {
            region: short(region),
            address,
            slot,
        },
        capacity,
        flow,
        half: half_of(byte_at(rest, 6)),
    }
}

/// The parts of the line of a relay, after its first word.
#[tactic(auto, unfolding(crate::specs::Private::Guessing::relay_at))]
fn relay_at(bytes: &[u8]) -> RelayLine
    ensures { result ≡ relay_in bytes.now }
{
    let (region, rest) = number_in_front(bytes);
    RelayLine {
        region: short(region),
        inside: byte_at(rest, 6) == b's',
    }
}

/// The parts of the line of a link, after its first word.
#[tactic(auto, unfolding(crate::specs::Private::Guessing::link_at))]
fn link_at(bytes: &[u8]) -> LinkLine
    ensures { result ≡ link_in bytes.now }
{
    let (source, rest) = end_at(bytes);
    let (target, rest) = end_at(skip(rest, 1));
    let (flow, _) = number_in_front(skip(rest, 6));
    LinkLine {
        link: Arc { source, target },
        flow,
    }
}

/// The line that may stand in front, by its first letter and the numbers at their places.
#[tactic(auto, unfolding(crate::specs::Private::Guessing::guess))]
pub fn guess(bytes: &[u8]) -> Line
    ensures { result ≡ guessed bytes.now }
{
    let first = byte_at(bytes, 0);
    if first == b'l' {
        Line::Link(link_at(skip(bytes, 5)))
    } else if first == b'p' {
        Line::Point(point_at(skip(bytes, 6)))
    } else if first == b'r' {
        Line::Relay(relay_at(skip(bytes, 6)))
    } else if first == b'v' {
        Line::Value(number_in_front(skip(bytes, 6)).0)
    } else if first == b'f' {
        Line::Version
    } else {
        Line::End
    }
}
