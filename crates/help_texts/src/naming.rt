//! What the words of a command line name.

use crate::forms::{Form, Takes, form_of};
use crate::parsers::command_line;
use clap::ArgMatches;
use clap::error::ErrorKind;
use std::alloc::{AllocError, Global};

/// What a word of a form stands for.
pub struct Role {
    /// The name that forms have for it.
    pub name: &'static str,
    /// What it is.
    pub what: &'static str,
    /// How many bytes such a file may have.
    pub limit: &'static str,
    /// What to change where it has more.
    pub advice: &'static str,
}

const ADVICE_ON_INPUT: &str =
    "Take a shorter one. Is it the program? That is the first file, and the public input the second.";

const ADVICE_ON_REGIONS: &str = "Is it a region file? Enclose fewer calls.";

/// What a file is that no form has a word for.
const ANY_FILE: Role = Role {
    name: "",
    what: "a file",
    limit: "fewer bytes",
    advice: "Take a smaller file.",
};

const ROLES: [Role; 8] = [
    Role {
        name: "PROG",
        what: "the program",
        limit: "16 MiB",
        advice: "Remove what only a debugger needs, by riscv64-unknown-elf-strip.",
    },
    Role {
        name: "PUBLIC",
        what: "the public input",
        limit: "1 MiB",
        advice: ADVICE_ON_INPUT,
    },
    Role {
        name: "SECRET",
        what: "a secret",
        limit: "65,536 bytes",
        advice: ADVICE_ON_INPUT,
    },
    Role {
        name: "CUT",
        what: "the cut",
        limit: "64 MiB",
        advice: "Measure with --cut 2, which folds masks that repeat.",
    },
    Role {
        name: "regions",
        what: "the region file",
        limit: "65,536 bytes",
        advice: ADVICE_ON_REGIONS,
    },
    Role {
        name: "FILE",
        what: "the region file",
        limit: "65,536 bytes",
        advice: ADVICE_ON_REGIONS,
    },
    Role {
        name: "SOURCE",
        what: "the source",
        limit: "1 MiB",
        advice: "Remove comments. Is it the source?",
    },
    Role {
        name: "CERT",
        what: "the certificate",
        limit: "64 MiB",
        advice: "Is it a certificate?",
    },
];

/// What words of forms stand for.
fn roles<'a>() -> &'a [Role] {
    &ROLES
}

/// Whether the value of an option is the word after it: of one that takes a value, where no `=` stands in its word.
fn takes_next(form: &Form, word: &str) -> bool {
    let Some(name) = word.strip_prefix("--") else {
        return false;
    };
    for option in form.options {
        if option.name == name {
            return !matches!(option.takes, Takes::Nothing);
        }
    }
    false
}

/// Adds the options with their values among words, or the other words.
fn add_of_words<'a>(
    ordered: &mut Vec<&'a str>,
    form: &Form,
    words: &'a [String],
    options: bool,
) -> Result<(), AllocError> {
    let mut is_value = false;
    for word in words {
        let word = word.as_str();
        let is_option = is_value || word.starts_with('-');
        is_value = is_option && !is_value && takes_next(form, word);
        if is_option == options {
            ordered.push(word)?;
        }
    }
    Ok(())
}

/// The words of a command line, the options with their values last: `clap` takes no secret after an option.
pub fn options_last<'a>(alloc: Global, words: &'a [String]) -> Result<Vec<&'a str>, AllocError> {
    let mut ordered = Vec::new(alloc);
    if let Some(form) = form_of(words) {
        add_of_words(&mut ordered, form, words, false)?;
        add_of_words(&mut ordered, form, words, true)?;
    }
    Ok(ordered)
}

/// What the words of a command line are; None where they are none.
pub fn named<'a>(
    alloc: Global,
    words: &'a [&'a str],
) -> Result<Option<ArgMatches<'a>>, AllocError> {
    match command_line(alloc)?.try_get_matches_from(words) {
        Ok(matches) => Ok(Some(matches)),
        Err(error) if error.kind() == ErrorKind::OutOfMemory => Err(AllocError),
        Err(_) => Ok(None),
    }
}

/// The word that stands for this name of a form, or else the name.
pub fn word_for<'a>(matches: &ArgMatches<'a>, name: &'a str) -> &'a str {
    matches.get_str(name).unwrap_or(name)
}

/// The secret of this number, counted from 1; None where there is none.
pub fn secret_of<'a>(matches: &ArgMatches<'a>, number: &str) -> Option<&'a str> {
    let number = number.parse::<usize>().ok()?;
    let secrets = matches.get_strs("SECRET")?;
    secrets.get(number.checked_sub(1)?).copied()
}

/// Whether a file is among what stands for this name of a form.
fn stands_for(matches: &ArgMatches<'_>, name: &str, file: &str) -> bool {
    match matches.get_strs(name) {
        Some(words) => words.contains(&file),
        None => false,
    }
}

/// What the file of this name stands for.
pub fn role_of<'a>(matches: &ArgMatches<'_>, file: &str) -> &'a Role {
    for role in roles() {
        if stands_for(matches, role.name, file) {
            return role;
        }
    }
    &ANY_FILE
}
