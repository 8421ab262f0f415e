//! What an answer means that is not the plain one, and what to change.

ghost use Rattle.std.specs.Prelude.{◌≡◌, ◌<◌, ◌⊎◌, is_some, true, None, IfOk, IfSome, string_bytes};
ghost use Rattle.help_texts.specs.Texts.{IsComplaint};

use crate::complaints::complaint;
use crate::findings::add_findings;
use crate::naming::{named, options_last};
use crate::notes::add_notes;
use crate::refusals::{add_malformed, add_not_loaded, add_refused_run, add_too_large};
use clap::ArgMatches;
use std::alloc::{AllocError, Global};

const NOT_WRITTEN: &str =
    "error: standard output did not take the whole text\nIs the disk full, or was the reader of \
    a pipe gone? What was written is a beginning of the text: remove it, and call again.\n";

const NO_MEMORY: &str =
    "error: there was not enough memory, and nothing was written\nEnd other programs, or raise the \
    limit that `ulimit -v` shows. Fewer turns take less (--turns N), and so do a smaller input and a region around the \
    busiest function (tools/regions.py).\n";

/// The beginning of bytes that is text.
fn text_of(bytes: &[u8]) -> &str {
    match bytes.utf8_chunks().next() {
        Some(chunk) => chunk.valid(),
        None => "",
    }
}

/// Adds what a line means that says why words are refused.
fn add_refusal<'a>(
    alloc: Global,
    text: &mut String,
    words: &[String],
    matches: &ArgMatches<'a>,
    line: &'a str,
) -> Result<(), AllocError> {
    if let Some(refused) = line.strip_prefix("refused 3 ") {
        return add_malformed(text, matches, refused);
    }
    if let Some(fault) = line.strip_prefix("refused 4 ") {
        return add_refused_run(text, matches, fault);
    }
    if let Some(file) = line.strip_prefix("refused 5 load ") {
        return add_not_loaded(alloc, text, words, matches, file);
    }
    match line.strip_prefix("refused 6 too-large ") {
        Some(refused) => add_too_large(alloc, text, words, matches, refused),
        None => Ok(()),
    }
}

/// Adds what the answer to a command line means, by its status and the text that was put, or a beginning of it.
fn add_meaning<'a>(
    alloc: Global,
    text: &mut String,
    status: u8,
    words: &[String],
    matches: &ArgMatches<'a>,
    said: &'a str,
) -> Result<(), AllocError> {
    match matches.subcommand() {
        Some((name, after)) if status == 0 => add_notes(text, after, name, said),
        Some((_, after)) if status == 1 => add_findings(alloc, text, after, said),
        Some((_, after)) => add_refusal(alloc, text, words, after, said.trim_end()),
        None => Ok(()),
    }
}

/// Adds what the answer to words means, where they are a command line.
fn add_answer(
    alloc: Global,
    text: &mut String,
    status: u8,
    words: &[String],
    said: &str,
) -> Result<(), AllocError> {
    let ordered = options_last(alloc, words)?;
    match named(alloc, ordered.as_slice())? {
        Some(matches) => add_meaning(alloc, text, status, words, &matches, said),
        None => Ok(()),
    }
}

/// What the answer to words means, of a command line; None where there is nothing to say.
fn of_command_line(
    alloc: Global,
    status: u8,
    words: &[String],
    said: &str,
) -> Result<Option<String>, AllocError> {
    let mut text = String::new(alloc);
    add_answer(alloc, &mut text, status, words, said)?;
    if text.is_empty() {
        return Ok(None);
    }
    Ok(Some(text))
}

/// What the answer to words means and what to change, by its status and by the text that was put, or a beginning of it;
/// None where there is nothing to say. Its error is out of memory.
pub fn explanation(
    alloc: Global,
    status: u8,
    words: &[String],
    text: &[u8],
) -> Result<Option<String>, AllocError>
    ensures said { (status ≡ 2) ⊎ ((status ≡ 7) ⊎ (status ≡ 8)) → IfOk result (λ told. is_some told ≡ true) }
    ensures complaint { status ≡ 2 → IfOk result (λ told. IfSome told (λ words. IsComplaint (string_bytes words))) }
    ensures none { 8 < status → IfOk result (λ told. told ≡ None) }
{
    match status {
        2 => Ok(Some(complaint(alloc, words)?)),
        0 | 1 | 3 | 4 | 5 | 6 => of_command_line(alloc, status, words, text_of(text)),
        7 => Ok(Some(NOT_WRITTEN.to_string(alloc)?)),
        8 => Ok(Some(NO_MEMORY.to_string(alloc)?)),
        _ => Ok(None),
    }
}
