//! What is told beside a plain answer: how far it reaches, and what reaches further.

use crate::adding::{add_all, add_words};
use clap::ArgMatches;
use std::alloc::AllocError;

const NOTHING_FLOWS: &str =
    "note: 0 bits: in this run nothing of the secret reaches the output. If the guest is to use \
    it: have the public input and the secret changed places, or is it read at all? This tells:";

const ONE_RUN: &str =
    "note: the number is of this one run. The least bound of all outputs, whatever the secret is, is looked \
    for by make NAME.bound, or by";

const NO_BREAK: &str =
    "note: with regions this is said of runs that break none. Whether random secrets break one is told by";

/// Adds a note and the words of a script below `tools`.
fn add_note(
    text: &mut String,
    matches: &ArgMatches<'_>,
    note: &str,
    words: &'static str,
) -> Result<(), AllocError> {
    add_all(text, &[note, " python3"])?;
    add_words(text, matches, words)
}

/// Adds what is told beside a measured run.
fn add_of_measure(
    text: &mut String,
    matches: &ArgMatches<'_>,
    said: &str,
) -> Result<(), AllocError> {
    if said.contains("\nbits 0\n") {
        add_note(
            text,
            matches,
            NOTHING_FLOWS,
            "tools/run.py PROG PUBLIC SECRET",
        )?;
        text.push('\n')?;
    }
    add_note(text, matches, ONE_RUN, "tools/best.py PROG PUBLIC SECRET")?;
    text.push('\n')
}

/// Adds what is told beside a bound with regions.
fn add_of_bound(text: &mut String, matches: &ArgMatches<'_>) -> Result<(), AllocError> {
    if let Some(file) = matches.get_str("regions") {
        add_note(
            text,
            matches,
            NO_BREAK,
            "tools/lint.py PROG --secret SECRET --public PUBLIC",
        )?;
        add_all(text, &[" --regions=", file, "\n"])?;
    }
    Ok(())
}

/// Adds what is told beside the plain answer of the command of this name.
pub fn add_notes(
    text: &mut String,
    matches: &ArgMatches<'_>,
    name: &str,
    said: &str,
) -> Result<(), AllocError> {
    if name == "measure" {
        return add_of_measure(text, matches, said);
    }
    if name == "bound" {
        return add_of_bound(text, matches);
    }
    Ok(())
}
