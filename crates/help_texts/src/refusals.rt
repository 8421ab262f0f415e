//! What a refusal means, and what to change.

use crate::adding::{add_all, add_run_options, add_words};
use crate::complaints::add_form_line;
use crate::file_meanings::{FileKind, file_kinds, meaning_of_file};
use crate::meanings::meaning_of;
use crate::naming::{role_of, secret_of, word_for};
use crate::run_meanings::RUNS;
use clap::ArgMatches;
use std::alloc::{AllocError, Global};

/// The kind of file that a word of a refusal names.
fn kind_of<'a>(word: &str) -> Option<&'a FileKind> {
    for kind in file_kinds() {
        if kind.word == word {
            return Some(kind);
        }
    }
    None
}

/// The file of a kind.
fn file_of<'a>(matches: &ArgMatches<'a>, kind: &FileKind) -> &'a str {
    let [first, second] = kind.names;
    match matches.get_str(first) {
        Some(file) => file,
        None => word_for(matches, second),
    }
}

/// Adds what a file that is malformed means, of a line that goes on by `KIND FAULT`.
pub fn add_malformed<'a>(
    text: &mut String,
    matches: &ArgMatches<'a>,
    refused: &'a str,
) -> Result<(), AllocError> {
    let Some((word, fault)) = refused.split_once(' ') else {
        return Ok(());
    };
    let Some(kind) = kind_of(word) else {
        return Ok(());
    };
    let file = file_of(matches, kind);
    let meaning = meaning_of_file(word, fault);
    add_all(text, &["error: ", kind.noun])?;
    add_all(text, &[" ", file, ": ", fault, "\n", meaning, "\n"])
}

/// The number of a run of several and what stands after it, where a fault begins so.
fn numbered<'a>(fault: &'a str) -> Option<(&'a str, &'a str)> {
    match fault.strip_prefix("run ") {
        Some(rest) => rest.split_once(' '),
        None => fault.strip_prefix("length ")?.split_once(' '),
    }
}

/// Adds where tools tell more of a run that is refused.
fn add_more_of_run<'a>(
    text: &mut String,
    matches: &ArgMatches<'a>,
    fault: &'a str,
    secret: &'a str,
) -> Result<(), AllocError> {
    if !fault.contains("0x") || matches.get_str("FILE").is_some() {
        return Ok(());
    }
    text.push_str("python3")?;
    add_words(text, matches, "tools/explain.py PROG PUBLIC")?;
    add_all(text, &[" ", secret])?;
    add_run_options(text, matches)?;
    text.push_str(" --text says in which line that is.\n")
}

/// The secret of a run that is refused, where its number or the words name it.
fn refused_secret<'a>(matches: &ArgMatches<'a>, fault: &str) -> Option<&'a str> {
    match numbered(fault) {
        Some((number, _)) => secret_of(matches, number),
        None => matches.get_str("SECRET"),
    }
}

/// The fault of one run: what stands after the number of a run of several.
fn fault_of_run<'a>(fault: &'a str) -> &'a str {
    match numbered(fault) {
        Some((_, rest)) if fault.starts_with("run") => rest,
        _ => fault,
    }
}

/// Adds what a run, or several, that are refused for a fault mean.
pub fn add_refused_run<'a>(
    text: &mut String,
    matches: &ArgMatches<'a>,
    fault: &'a str,
) -> Result<(), AllocError> {
    let program = word_for(matches, "PROG");
    let secret = refused_secret(matches, fault).unwrap_or("SECRET");
    let cause = fault_of_run(fault);
    let meaning = meaning_of(RUNS, cause);
    add_all(
        text,
        &[
            "error: run of ",
            program,
            " on ",
            secret,
            ": ",
            fault,
            "\n",
            meaning,
            "\n",
        ],
    )?;
    add_more_of_run(text, matches, cause, secret)
}

const NO_NUMBER: &str =
    "It is a number, and this word is the name of a file: look at the order of the words.";

const NO_FILE: &str =
    "Is the name right, as seen from this folder? It is to be a file that you may read, no folder.";

/// What to change where a file of this name could not be loaded.
fn advice_on_file(file: &str) -> &'static str {
    if file.parse::<u64>().is_ok() {
        NO_NUMBER
    } else {
        NO_FILE
    }
}

/// Adds what a file that could not be loaded means.
pub fn add_not_loaded(
    alloc: Global,
    text: &mut String,
    words: &[String],
    matches: &ArgMatches<'_>,
    file: &str,
) -> Result<(), AllocError> {
    add_all(text, &["error: cannot read ", file, " as "])?;
    let role = role_of(matches, file);
    add_all(text, &[role.what, "\n", advice_on_file(file), "\n"])?;
    add_form_line(alloc, text, words)
}

/// Adds what a file that has too many bytes means, of a line that goes on by `FILE NUMBER`.
pub fn add_too_large(
    alloc: Global,
    text: &mut String,
    words: &[String],
    matches: &ArgMatches<'_>,
    refused: &str,
) -> Result<(), AllocError> {
    let Some((file, _)) = refused.rsplit_once(' ') else {
        return Ok(());
    };
    add_all(text, &["error: ", file, " is too large for "])?;
    let role = role_of(matches, file);
    add_all(
        text,
        &[
            role.what,
            ", which may have ",
            role.limit,
            "\n",
            role.advice,
            "\n",
        ],
    )?;
    add_form_line(alloc, text, words)
}
