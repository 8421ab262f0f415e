ghost use Rattle.std.specs.Prelude.{◌≡◌, ◌<◌, ◌++◌, ◌∷◌, [], map, string_bytes, IfOk, OnOk};
ghost use Rattle.graph_rows.specs.Rows.{half_letter, relay_letter, row_text};

use crate::flows::reading::graph_of;
use flow_base::NoMemory;
use flow_graph::Graph;
use max_flow::{Half, Solved, is_within_limits, solve};
use std::alloc::Global;

/// The letter of a point's halves: `s` inside, `t` outside, `m` and `o` for the first or the second alone inside.
fn letter_of(half: Half) -> char
    ensures letter { result ≡ half_letter half }
    ensures ascii { result < 128 }
{
    match half {
        Half::Both => 's',
        Half::FirstOnly => 'm',
        Half::SecondOnly => 'o',
        Half::Neither => 't',
    }
}

/// The letter of a relay: `s` inside, `t` outside.
fn letter_of_relay(inside: bool) -> char
    ensures letter { result ≡ relay_letter inside }
    ensures ascii { result < 128 }
{
    if inside { 's' } else { 't' }
}

/// Puts the letters of points at the end.
fn push_points(text: &mut String, points: &[Half]) -> Result<(), NoMemory>
    ensures { OnOk result (string_bytes text.new ≡ string_bytes text.old ++ map half_letter points.now) }
{
    for half in points {
        push_letter(text, letter_of(*half))?;
    }
    Ok(())
}

/// Puts the letters of relays at the end.
fn push_relays(text: &mut String, relays: &[bool]) -> Result<(), NoMemory>
    ensures { OnOk result (string_bytes text.new ≡ string_bytes text.old ++ map relay_letter relays.now) }
{
    for inside in relays {
        push_letter(text, letter_of_relay(*inside))?;
    }
    Ok(())
}

/// Puts a letter at the end.
fn push_letter(text: &mut String, letter: char) -> Result<(), NoMemory>
    requires { letter < 128 }
    ensures { OnOk result (string_bytes text.new ≡ string_bytes text.old ++ letter ∷ []) }
{
    text.push(letter)?;
    Ok(())
}

/// The row of an answer: its value, a blank, and the letters of its points and relays.
fn row_of(alloc: Global, solved: &Solved) -> Result<String, NoMemory>
    ensures { IfOk result (λ row. string_bytes row ≡ row_text solved.now) }
{
    let value = solved.value;
    let mut row = format!(in alloc; "{value} ")?;
    push_points(&mut row, solved.side.points.as_slice())?;
    push_relays(&mut row, solved.side.relays.as_slice())?;
    Ok(row)
}

/// The row of a graph; None where it is not within the limits.
fn row_of_graph(alloc: Global, graph: &Graph) -> Result<Option<String>, NoMemory> {
    if !is_within_limits(graph) {
        return Ok(None);
    }
    let solved = solve(alloc, graph)?;
    let row = row_of(alloc, &solved)?;
    Ok(Some(row))
}

/// The row of the graph of a line; None where the line is no graph within the limits.
pub fn row(alloc: Global, line: &str) -> Result<Option<String>, NoMemory> {
    match graph_of(alloc, line)? {
        Some(graph) => row_of_graph(alloc, &graph),
        None => Ok(None),
    }
}
