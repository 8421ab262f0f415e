//! The lines of a bound.

ghost use Rattle.std.specs.Prelude.{◌≡◌, ◌++◌, ◌∷◌, ℕ, [], codes, option_map, IfOk};
ghost use Rattle.hex.specs.Hex.{encode_lower};
ghost use Rattle.every_secret.specs.Bounds.{IsLeastPower, counted, halt_of, output_count as output_count_of, summary_in};
ghost use Rattle.task_answers.specs.BoundLines.{bounded_line as bounded_line_of, count_text as count_text_of};
ghost use Rattle.task_answers.specs.BoundLines.{hex_bytes as hex_bytes_of, listing as listing_of};
ghost use Rattle.task_answers.specs.BoundLines.{mask_text as mask_text_of, path_text as path_text_of};
ghost use Rattle.task_answers.specs.BoundLines.{paths_text as paths_text_of, status_text as status_text_of};
ghost use Rattle.task_answers.specs.BoundLines.{public_text as public_text_of};
ghost use Rattle.task_answers.specs.BoundLines.{pattern_line as pattern_line_of, pattern_lines as pattern_lines_of};
ghost use Rattle.task_answers.specs.BoundLines.{stop_line as stop_line_of, too_many_line as too_many_line_of};
ghost use Rattle.task_answers.specs.BoundLines.{unclear_line as unclear_line_of};

use crate::texts::joined;
use crossing_bits::Bits;
use every_secret::{
    Bounded, Pattern, StoppedPath, UnclearWhy, free_bits, output_bits, output_count,
};
use flow_base::{Bytes, List, NoMemory};
use std::alloc::Global;

/// Bytes as hexadecimal digits, `-` where there are none.
fn hex_bytes(alloc: Global, bytes: &[u8]) -> Result<Bytes, NoMemory>
    ensures { IfOk result (λ text. text ≡ hex_bytes_of bytes.now) }
{
    if bytes.is_empty() {
        return List::from_slice(alloc, b"-");
    }
    let text = hex::encode(alloc, bytes).map_err(|_| NoMemory)?;
    Ok(List::from_vec(text.into_bytes()))
}

/// The choices of a path.
fn path_text(alloc: Global, bits: &Bits) -> Result<Bytes, NoMemory>
    ensures { IfOk result (λ text. text ≡ path_text_of bits.now.bits) }
{
    let hex = bits.hex_text(alloc)?;
    let count = bits.count();
    let tail = format!(in alloc; " bits {count}")?;
    let text = joined(alloc, b" path ", hex.as_slice(), tail.as_bytes())?;
    Ok(text)
}

/// The line of the path that is unclear.
pub fn unclear_line(alloc: Global, bits: &Bits, why: UnclearWhy) -> Result<Bytes, NoMemory>
    ensures { IfOk result (λ text. text ≡ unclear_line_of bits.now.bits why) }
{
    let path = path_text(alloc, bits)?;
    let tail = format!(in alloc; " {why}\n")?;
    let text = joined(alloc, b"unclear", path.as_slice(), tail.as_bytes())?;
    Ok(text)
}

/// The line of so many walks, the last of which was along this string.
pub fn too_many_line(alloc: Global, bits: &Bits, walks: u32) -> Result<Bytes, NoMemory>
    ensures { IfOk result (λ text. text ≡ too_many_line_of bits.now.bits walks) }
{
    let path = path_text(alloc, bits)?;
    let tail = format!(in alloc; " paths {walks}\n")?;
    let text = joined(alloc, b"unclear", path.as_slice(), tail.as_bytes())?;
    Ok(text)
}

/// The mask of the status of a pattern, after a space.
fn status_mask_text(alloc: Global, pattern: &Pattern) -> Result<Bytes, NoMemory>
    ensures { IfOk result (λ text. text ≡ codes " " ++ encode_lower (pattern.now.status_mask ∷ [])) }
{
    let status = hex_bytes(alloc, &[pattern.status_mask])?;
    let text = joined(alloc, b"", b" ", status.as_slice())?;
    Ok(text)
}

/// The masks of a pattern with so many free bits; nothing where it has none.
fn mask_text(alloc: Global, free: u128, pattern: &Pattern) -> Result<Bytes, NoMemory>
    ensures { IfOk result (λ text. text ≡ mask_text_of free pattern.now) }
{
    if free == 0 {
        return Ok(Bytes::new(alloc));
    }
    let tail = status_mask_text(alloc, pattern)?;
    let masks = hex_bytes(alloc, pattern.byte_masks.as_slice())?;
    let text = joined(alloc, b" mask ", masks.as_slice(), tail.as_slice())?;
    Ok(text)
}

/// The end of the line of a pattern with so many free bits.
fn status_text(alloc: Global, free: u128, pattern: &Pattern) -> Result<Bytes, NoMemory>
    ensures { IfOk result (λ text. text ≡ status_text_of free pattern.now) }
{
    let status = pattern.status;
    let masks = mask_text(alloc, free, pattern)?;
    let head = format!(in alloc; " status {status}")?;
    let text = joined(alloc, head.as_bytes(), masks.as_slice(), b"\n")?;
    Ok(text)
}

/// The line of the pattern with a number.
fn pattern_line(alloc: Global, number: usize, pattern: &Pattern) -> Result<Bytes, NoMemory>
    ensures { IfOk result (λ text. text ≡ pattern_line_of number pattern.now) }
{
    let free = free_bits(pattern);
    let bytes = hex_bytes(alloc, pattern.bytes.as_slice())?;
    let tail = status_text(alloc, free, pattern)?;
    let head = format!(in alloc; "output {number} free {free} bytes ")?;
    let text = joined(alloc, head.as_bytes(), bytes.as_slice(), tail.as_slice())?;
    Ok(text)
}

/// The lines of patterns, counted from 1.
fn pattern_lines(alloc: Global, patterns: &[Pattern]) -> Result<Vec<u8>, NoMemory>
    ensures { IfOk result (λ text. text.items ≡ pattern_lines_of 1 patterns.now) }
{
    let mut text = Vec::new(alloc);
    for (place, pattern) in patterns.iter().enumerate() {
        let line = pattern_line(alloc, place + 1, pattern)?;
        text.extend_from_slice(line.as_slice())?;
    }
    Ok(text)
}

/// The line of a path that stops.
fn halt_line(alloc: Global, stopped: &StoppedPath) -> Result<Bytes, NoMemory>
    ensures { IfOk result (λ text. text ≡ stop_line_of (Some (halt_of stopped.now))) }
{
    let path = path_text(alloc, &stopped.bits)?;
    let stop = stopped.stop;
    let tail = format!(in alloc; " {stop}\n")?;
    let text = joined(alloc, b"stopped", path.as_slice(), tail.as_bytes())?;
    Ok(text)
}

/// The line of the first path that stops, if one does.
fn stop_line(alloc: Global, first: &Option<StoppedPath>) -> Result<Bytes, NoMemory>
    ensures { IfOk result (λ text. text ≡ stop_line_of (option_map (λ stopped. halt_of stopped) first.now)) }
{
    match first {
        Some(stopped) => halt_line(alloc, stopped),
        None => Ok(Bytes::new(alloc)),
    }
}

/// A line for each pattern, and one for the first path that stops, where they are to be listed.
pub fn listing(alloc: Global, listed: bool, found: &Bounded) -> Result<Vec<u8>, NoMemory>
    ensures { IfOk result (λ text. text.items ≡ listing_of listed (summary_in found.now)) }
{
    if !listed {
        return Ok(Vec::new(alloc));
    }
    let mut text = pattern_lines(alloc, found.patterns.as_slice())?;
    let stop = stop_line(alloc, &found.first_stop)?;
    text.extend_from_slice(stop.as_slice())?;
    Ok(text)
}

/// A number, `-` where it is 2^64 or more.
fn count_text(alloc: Global, count: Option<u64>) -> Result<Bytes, NoMemory>
    ensures { IfOk result (λ text. text ≡ count_text_of count) }
{
    match count {
        Some(count) => {
            let text = format!(in alloc; "{count}")?;
            Ok(Bytes::from_vec(text.into_bytes()))
        }
        None => List::from_slice(alloc, b"-"),
    }
}

/// For how many outputs the patterns stand.
fn outputs_text(alloc: Global, patterns: &[Pattern]) -> Result<Bytes, NoMemory>
    ensures { IfOk result (λ text. text ≡ codes " outputs " ++ count_text_of (counted (output_count_of patterns.now))) }
{
    let count = count_text(alloc, output_count(patterns))?;
    let text = joined(alloc, b"", b" outputs ", count.as_slice())?;
    Ok(text)
}

/// How many paths stop, and for how many outputs the patterns stand.
fn stopped_text(alloc: Global, found: &Bounded) -> Result<Bytes, NoMemory>
    ensures { IfOk result (λ text. text ≡ codes " stopped " ++ (count_text_of found.now.stopped ++ (codes " outputs "
        ++ count_text_of (counted (output_count_of found.now.patterns))))) }
{
    let stopped = count_text(alloc, found.stopped)?;
    let outputs = outputs_text(alloc, found.patterns.as_slice())?;
    let text = joined(alloc, b" stopped ", stopped.as_slice(), outputs.as_slice())?;
    Ok(text)
}

/// How many paths there are, how many of them stop, and for how many outputs the patterns stand.
fn paths_text(alloc: Global, found: &Bounded) -> Result<Bytes, NoMemory>
    ensures { IfOk result (λ text. text ≡ paths_text_of (summary_in found.now)) }
{
    let paths = count_text(alloc, found.paths)?;
    let stopped = stopped_text(alloc, found)?;
    let text = joined(alloc, b" paths ", paths.as_slice(), stopped.as_slice())?;
    Ok(text)
}

/// How many bytes the public input has, if they are not known; else nothing.
pub fn public_text(alloc: Global, any: bool, count: usize) -> Result<Bytes, NoMemory>
    ensures { IfOk result (λ text. text ≡ public_text_of any count) }
{
    if any {
        let text = format!(in alloc; " public {count}")?;
        Ok(Bytes::from_slice(alloc, text.as_bytes())?)
    } else {
        Ok(Bytes::new(alloc))
    }
}

/// The line of a bound, where so many bits suffice for the outputs.
fn bounded_text(
    alloc: Global,
    secret_length: u32,
    public: &[u8],
    regions: usize,
    found: &Bounded,
    bits: u128,
) -> Result<Bytes, NoMemory>
    ensures { IfOk result (λ text. text ≡ bounded_line_of secret_length public.now regions (summary_in found.now) bits) }
{
    let paths = paths_text(alloc, found)?;
    let head = format!(in alloc; "bounded secret {secret_length}")?;
    let middle = format!(in alloc; " regions {regions}")?;
    let tail = format!(in alloc; " bits {bits}\n")?;
    let start = joined(alloc, head.as_bytes(), public, middle.as_bytes())?;
    let text = joined(alloc, start.as_slice(), paths.as_slice(), tail.as_bytes())?;
    Ok(text)
}

/// The line of a bound, in which so much is said of the public input.
pub fn bounded_line(
    alloc: Global,
    secret_length: u32,
    public: &[u8],
    regions: usize,
    found: &Bounded,
) -> Result<Bytes, NoMemory>
    ensures { IfOk result (λ text. (bits : ℕ) × IsLeastPower (output_count_of found.now.patterns) bits
        × (text ≡ bounded_line_of secret_length public.now regions (summary_in found.now) bits)) }
{
    let bits = output_bits(alloc, found.patterns.as_slice())?;
    let text = bounded_text(alloc, secret_length, public, regions, found, bits)?;
    Ok(text)
}
