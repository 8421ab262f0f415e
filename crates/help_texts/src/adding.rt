//! How a text is put together.

use crate::naming::word_for;
use clap::ArgMatches;
use std::alloc::AllocError;

/// Adds texts, one after the other.
pub fn add_all(text: &mut String, parts: &[&str]) -> Result<(), AllocError> {
    for part in parts {
        text.push_str(*part)?;
    }
    Ok(())
}

/// Adds words with a space before each; a name of a form is given as what stands for it.
pub fn add_words<'a>(
    text: &mut String,
    matches: &ArgMatches<'a>,
    words: &'a str,
) -> Result<(), AllocError> {
    for word in words.split(' ') {
        add_all(text, &[" ", word_for(matches, word)])?;
    }
    Ok(())
}

/// The options that say how a run is made.
const RUN_OPTIONS: [&str; 4] = ["turns", "regions", "rules", "paths"];

/// Adds the options that say how a run is made, with a space before each, as they stand in words.
pub fn add_run_options(text: &mut String, matches: &ArgMatches<'_>) -> Result<(), AllocError> {
    for name in &RUN_OPTIONS {
        if let Some(value) = matches.get_str(*name) {
            add_all(text, &[" --", *name, "=", value])?;
        }
    }
    Ok(())
}
