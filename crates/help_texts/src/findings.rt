//! What it means that secrets are rejected or unclear, that paths are unclear, or that a certificate is rejected.

use crate::adding::{add_all, add_run_options, add_words};
use crate::meanings::meaning_of;
use crate::naming::{secret_of, word_for};
use crate::run_meanings::{FINDINGS, VERDICTS};
use clap::ArgMatches;
use std::alloc::{AllocError, Global};

/// The number of a secret that is rejected or unclear, and why, where a line says so.
fn finding<'a>(line: &'a str) -> Option<(&'a str, &'a str)> {
    match line.strip_prefix("rejected ") {
        Some(rest) => rest.split_once(' '),
        None => line.strip_prefix("unclear ")?.split_once(' '),
    }
}

/// Why a path is unclear, as a line `unclear path H bits N WHY` says.
fn path_cause<'a>(line: &'a str) -> Option<&'a str> {
    let rest = line.strip_prefix("unclear path ")?;
    let (_, after) = rest.split_once(" bits ")?;
    let (_, cause) = after.split_once(' ')?;
    Some(cause)
}

/// The name of a secret that is rejected or unclear, and why, where a line says so.
fn named_finding<'a>(matches: &ArgMatches<'a>, line: &'a str) -> Option<(&'a str, &'a str)> {
    let (number, cause) = finding(line)?;
    Some((secret_of(matches, number)?, cause))
}

/// The first secret that is rejected or unclear; None where no line speaks of one.
fn first_secret<'a>(matches: &ArgMatches<'a>, said: &'a str) -> Option<&'a str> {
    for line in said.lines() {
        if let Some((secret, _)) = named_finding(matches, line) {
            return Some(secret);
        }
    }
    None
}

/// Adds a line of each secret that is rejected or unclear.
fn add_secrets<'a>(
    text: &mut String,
    matches: &ArgMatches<'a>,
    said: &'a str,
) -> Result<(), AllocError> {
    for line in said.lines() {
        if let Some((secret, cause)) = named_finding(matches, line) {
            add_all(text, &[secret, ": ", cause, "\n"])?;
        }
    }
    Ok(())
}

/// Adds the meaning of a cause where it does not stand there yet.
fn add_meaning(meanings: &mut String, cause: &str) -> Result<(), AllocError> {
    let meaning = meaning_of(FINDINGS, cause);
    if meanings.as_str().contains(meaning) {
        return Ok(());
    }
    add_all(meanings, &[meaning, "\n"])
}

/// Adds the meanings of the causes, each once.
fn add_meanings<'a>(
    meanings: &mut String,
    matches: &ArgMatches<'a>,
    said: &'a str,
) -> Result<(), AllocError> {
    for line in said.lines() {
        if let Some((_, cause)) = named_finding(matches, line) {
            add_meaning(meanings, cause)?;
        }
    }
    Ok(())
}

/// Adds the words by which a page of a finding is asked for, up to its secret.
fn add_asking(text: &mut String, matches: &ArgMatches<'_>, option: &str) -> Result<(), AllocError> {
    text.push_str("python3")?;
    add_words(text, matches, "tools/explain.py PROG PUBLIC")?;
    add_all(text, &[" --", option])?;
    add_words(text, matches, "CUT BUDGET")
}

/// Adds the options of that page.
fn add_options(text: &mut String, matches: &ArgMatches<'_>) -> Result<(), AllocError> {
    add_run_options(text, matches)?;
    text.push_str(" --text says where and why.\n")
}

/// The option by which a page of secrets is asked for.
fn option_for<'a>(said: &str) -> &'a str {
    if said.contains("unclear ") {
        "taint"
    } else {
        "check"
    }
}

/// Adds what is known of secrets that are rejected or unclear, each by the name of its file; `first` is one of them.
fn add_of_secrets<'a>(
    alloc: Global,
    text: &mut String,
    matches: &ArgMatches<'a>,
    said: &'a str,
    first: &'a str,
) -> Result<(), AllocError> {
    let mut meanings = String::new(alloc);
    add_meanings(&mut meanings, matches, said)?;
    add_secrets(text, matches, said)?;
    text.push_str(meanings.as_str())?;
    add_asking(text, matches, option_for(said))?;
    add_all(text, &[" ", first])?;
    add_options(text, matches)
}

/// Why the first path is unclear that a line speaks of; None where no line does.
fn first_path_cause<'a>(said: &'a str) -> Option<&'a str> {
    for line in said.lines() {
        if let Some(cause) = path_cause(line) {
            return Some(cause);
        }
    }
    None
}

/// Adds the words by which a cut is looked for.
fn add_looking(text: &mut String, matches: &ArgMatches<'_>) -> Result<(), AllocError> {
    text.push_str("python3")?;
    add_words(text, matches, "tools/bound.py PROG PUBLIC LENGTH")?;
    add_run_options(text, matches)?;
    text.push_str(
        " looks for a cut by itself; LENGTH is that of the secrets in bytes. tools/best.py tries more.\n",
    )
}

/// Adds what is known of paths that are unclear, the first for this cause.
fn add_of_paths<'a>(
    text: &mut String,
    matches: &ArgMatches<'a>,
    cause: &'a str,
) -> Result<(), AllocError> {
    let meaning = meaning_of(FINDINGS, cause);
    add_all(text, &["no answer: ", cause, "\n", meaning, "\n"])?;
    add_asking(text, matches, "bound")?;
    add_options(text, matches)?;
    add_looking(text, matches)
}

/// Adds what is known of a certificate that is rejected for this cause.
fn add_of_certificate<'a>(
    text: &mut String,
    matches: &ArgMatches<'a>,
    cause: &'a str,
) -> Result<(), AllocError> {
    let file = word_for(matches, "CERT");
    let meaning = meaning_of(VERDICTS, cause);
    add_all(text, &["certificate ", file, ": ", cause, "\n", meaning])?;
    text.push_str(
        " The file was changed, or whoever made it is wrong: make it again by flowcheck graph PROG PUBLIC SECRET.\n",
    )
}

/// Adds what an answer with status 1 means, where it says something that is known.
pub fn add_findings<'a>(
    alloc: Global,
    text: &mut String,
    matches: &ArgMatches<'a>,
    said: &'a str,
) -> Result<(), AllocError> {
    if let Some(first) = first_secret(matches, said) {
        return add_of_secrets(alloc, text, matches, said, first);
    }
    if let Some(cause) = first_path_cause(said) {
        return add_of_paths(text, matches, cause);
    }
    if let Some(cause) = said.trim_end().strip_prefix("rejected ") {
        return add_of_certificate(text, matches, cause);
    }
    Ok(())
}
