ghost use Rattle.std.specs.Prelude.{◌≡◌, ◌++◌, ◌∷◌, [], OnOk};
ghost use Rattle.std.specs.Fmt.{decimal};
ghost use Rattle.flow_base.specs.Points.{point_text as place_text};
ghost use Rattle.flow_certificate.specs.Lines.{half_text, inside_text, line_text, link_text, point_text, relay_text};
ghost use Rattle.flow_certificate.specs.VerdictTexts.{end_text};

use crate::lines::{Line, LinkLine, PointLine, RelayLine};
use flow_base::{NoMemory, Point, hex_word, put, put_number, put_slot};
use flow_graph::End;
use max_flow::Half;
use std::alloc::Global;

/// Puts a word and a number at the end of a text.
fn put_field(alloc: Global, text: &mut Vec<u8>, word: &[u8], number: u64) -> Result<(), NoMemory>
    ensures { OnOk result (text.new.items ≡ text.old.items ++ (word.now ++ decimal number)) }
{
    put(text, word)?;
    put_number(alloc, text, number)
}

/// Puts the text of an end of a link at the end of a text.
fn put_end(alloc: Global, text: &mut Vec<u8>, end: End) -> Result<(), NoMemory>
    ensures { OnOk result (text.new.items ≡ text.old.items ++ end_text end) }
{
    match end {
        End::Source => put(text, b"source"),
        End::Point(index) => put_field(alloc, text, b"p", u64::from(index)),
        End::Relay(region) => put_field(alloc, text, b"r", u64::from(region)),
        End::Sink => put(text, b"sink"),
    }
}

/// Puts the letter of a point's halves at the end of a text.
fn put_half(text: &mut Vec<u8>, half: Half) -> Result<(), NoMemory>
    ensures { OnOk result (text.new.items ≡ text.old.items ++ half_text half) }
{
    match half {
        Half::Both => put(text, b"s"),
        Half::FirstOnly => put(text, b"m"),
        Half::SecondOnly => put(text, b"o"),
        Half::Neither => put(text, b"t"),
    }
}

/// Puts the letter of a relay at the end of a text.
fn put_inside(text: &mut Vec<u8>, inside: bool) -> Result<(), NoMemory>
    ensures { OnOk result (text.new.items ≡ text.old.items ++ inside_text inside) }
{
    if inside {
        put(text, b"s")
    } else {
        put(text, b"t")
    }
}

/// Puts the region, the address and the slot of a point at the end of a text.
fn put_place(alloc: Global, text: &mut Vec<u8>, point: &Point) -> Result<(), NoMemory>
    ensures { OnOk result (text.new.items ≡ text.old.items ++ place_text point.now) }
{
    put_number(alloc, text, u64::from(point.region))?;
    put(text, b" ")?;
    put(text, &hex_word(point.address))?;
    put(text, b" ")?;
    put_slot(alloc, text, point.slot)?;
    Ok(())
}

/// Puts the line of a point at the end of a text.
fn put_point(alloc: Global, text: &mut Vec<u8>, line: &PointLine) -> Result<(), NoMemory>
    ensures { OnOk result (text.new.items ≡ text.old.items ++ point_text line.now) }
{
    put(text, b"point ")?;
    put_place(alloc, text, &line.point)?;
    put_field(alloc, text, b" capacity ", line.capacity)?;
    put_field(alloc, text, b" flow ", line.flow)?;
    put(text, b" side ")?;
    put_half(text, line.half)?;
    Ok(())
}

/// Puts the line of a relay at the end of a text.
fn put_relay(alloc: Global, text: &mut Vec<u8>, line: &RelayLine) -> Result<(), NoMemory>
    ensures { OnOk result (text.new.items ≡ text.old.items ++ relay_text line.now) }
{
    put_field(alloc, text, b"relay ", u64::from(line.region))?;
    put(text, b" side ")?;
    put_inside(text, line.inside)?;
    Ok(())
}

/// Puts the line of a link at the end of a text.
fn put_link(alloc: Global, text: &mut Vec<u8>, line: &LinkLine) -> Result<(), NoMemory>
    ensures { OnOk result (text.new.items ≡ text.old.items ++ link_text line.now) }
{
    put(text, b"link ")?;
    put_end(alloc, text, line.link.source)?;
    put(text, b" ")?;
    put_end(alloc, text, line.link.target)?;
    put_field(alloc, text, b" flow ", line.flow)?;
    Ok(())
}

/// Puts the text of a line at the end of a text, without its line feed.
#[tactic(auto, unfolding(crate::specs::Lines::line_text))]
fn put_form(alloc: Global, text: &mut Vec<u8>, line: &Line) -> Result<(), NoMemory>
    ensures { OnOk result (text.new.items ≡ text.old.items ++ line_text line.now) }
{
    match line {
        Line::Version => put(text, b"flowcheck-graph 1"),
        Line::Value(value) => put_field(alloc, text, b"value ", *value),
        Line::Point(line) => put_point(alloc, text, line),
        Line::Relay(line) => put_relay(alloc, text, line),
        Line::Link(line) => put_link(alloc, text, line),
        Line::End => put(text, b"end"),
    }
}

/// Puts a line with its line feed at the end of a text.
pub fn put_line(alloc: Global, text: &mut Vec<u8>, line: &Line) -> Result<(), NoMemory>
    ensures { OnOk result (text.new.items ≡ text.old.items ++ (line_text line.now ++ (10 ∷ []))) }
{
    put_form(alloc, text, line)?;
    put(text, b"\n")?;
    Ok(())
}
