ghost use Rattle.std.specs.Prelude.{◌≡◌, IfOk, nat_lt, option_map};
ghost use Rattle.flow_certificate.specs.Private.Guessing.{line_in};
ghost use Rattle.flow_certificate.specs.Keeping.{is_number as is_known_number, is_certificate_point};
ghost use Rattle.flow_certificate.specs.Keeping.{is_region_or_outside};
ghost use Rattle.flow_certificate.specs.Lines.{is_end as is_known_end, is_line as is_known_line};

use crate::guessing::guess;
use crate::line_texts::put_line;
use crate::lines::Line;
use flow_base::{NoMemory, Point, after};
use flow_graph::End;
use std::alloc::Global;

/// Numbers of a certificate are below this one, 2^48.
pub const LIMIT: u64 = 281_474_976_710_656;

/// Whether a number of 16 bits can be that of a region: each can.
pub fn is_region(region: u16) -> bool
    ensures { result ≡ is_region_or_outside region }
{
    let _ = region;
    true
}

/// Whether a number of 32 bits can be an address or an index: each can.
fn is_word(word: u32) -> bool
    ensures { result ≡ nat_lt word 4294967296 }
{
    let _ = word;
    true
}

/// Whether a certificate can name a number.
pub fn is_number(number: u64) -> bool
    ensures { result ≡ is_known_number number }
{
    number < LIMIT
}

/// Whether a certificate can name a point.
pub fn is_place(point: Point) -> bool
    ensures { result ≡ is_certificate_point point }
{
    is_region(point.region) && is_word(point.address) && point.slot.is_known()
}

/// Whether a link can name an end.
fn is_end(end: End) -> bool
    ensures { result ≡ is_known_end end }
{
    match end {
        End::Source | End::Sink => true,
        End::Point(index) => is_word(index),
        End::Relay(region) => is_region(region),
    }
}

/// Whether the numbers of a line are in their ranges, and its slot is one.
fn is_line(line: &Line) -> bool
    ensures { result ≡ is_known_line line.now }
{
    match line {
        Line::Version => true,
        Line::End => true,
        Line::Value(value) => is_number(*value),
        Line::Point(line) => {
            is_place(line.point)
                && 0 < line.capacity
                && is_number(line.capacity)
                && is_number(line.flow)
        }
        Line::Relay(line) => is_region(line.region),
        Line::Link(line) => {
            is_end(line.link.source) && is_end(line.link.target) && is_number(line.flow)
        }
    }
}

/// The line in front of bytes, and what stands after its line feed; None where no line stands there.
#[tactic(auto, unfolding(crate::specs::Private::Guessing::line_in))]
pub fn line_at(alloc: Global, bytes: &[u8]) -> Result<Option<(Line, &[u8])>, NoMemory>
    ensures { IfOk result (λ found. option_map (λ p. (p.0, p.1.now)) found ≡ line_in bytes.now) }
{
    let line = guess(bytes);
    if !is_line(&line) {
        return Ok(None);
    }
    let mut text = Vec::new(alloc);
    put_line(alloc, &mut text, &line)?;
    match after(text.as_slice(), bytes) {
        Some(rest) => Ok(Some((line, rest))),
        None => Ok(None),
    }
}
