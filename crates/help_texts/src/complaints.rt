ghost use Rattle.std.specs.Prelude.{IfOk, string_bytes};
ghost use Rattle.help_texts.specs.Texts.{IsComplaint};

use crate::adding::add_all;
use crate::forms::{Form, form_of, forms};
use crate::meanings::meaning_of;
use crate::parsers::{command_line, usage_of};
use clap::error::ErrorKind;
use std::alloc::{AllocError, Global};

const EMPTY: &str = "error: a word or a value is empty: is a variable of the shell not set?";

const DASHES: &str =
    "error: `-` and `--` are no words here: a file of such a name is named with ./ before it, and only after `=` does \
    a value begin with `-`";

const DIGITS: &str =
    "error: a number is written in decimal digits alone, without a sign and without leading zeros";

/// What to do beside what `clap` says is wrong, by how that begins and what it contains.
const TIPS: &str = "\
    error: unexpected value '| for '<SECRET>...'|a call takes 1 to 64 secrets; tools/sweep.py judges any number by \
        calls of check\n\
    error: invalid value '| for '<BUDGET>'|<BUDGET> stands after the cut; it is a number of bits in decimal digits, \
        as in the cut's line `bits`\n\
    error: invalid value '|: invalid digit found in string|a number is written in decimal digits alone\n\
    error: unexpected argument '--||\n\
    error: unexpected argument '-||a file whose name begins with `-` is named with ./ before it\n\
    error: the following required arguments were not provided|<SECRET>|a guest that reads no public input has an \
        empty file in its place\n\
    ";

const ONE_SECRET: &str = "this command takes one secret; measure-all measures several together";

const OPTIONS: &str = "\nOptions stand after the command. For all of it: flowcheck --help";

/// Adds an empty line, and the form of the command that the words begin with, or of a command line where they begin with
/// none.
pub fn add_form_line(alloc: Global, text: &mut String, words: &[String]) -> Result<(), AllocError> {
    let form = usage_of(alloc, form_of(words))?;
    add_all(text, &["\n", form.as_str(), "\n"])
}

/// Adds the options of a command, in a line of their own, where it has any.
fn add_options(text: &mut String, form: &Form) -> Result<(), AllocError> {
    let mut lead = "\nOptions: --";
    for option in form.options {
        text.push_str(lead)?;
        text.push_str(option.name)?;
        lead = ", --";
    }
    Ok(())
}

/// Adds the names of the commands, in a line of their own.
fn add_commands(text: &mut String) -> Result<(), AllocError> {
    let mut lead = "\nCommands: ";
    for form in forms() {
        text.push_str(lead)?;
        text.push_str(form.name)?;
        lead = ", ";
    }
    text.push_str(OPTIONS)
}

/// Adds the options of a command, and where its words and options are told of.
fn add_command(text: &mut String, form: &Form) -> Result<(), AllocError> {
    add_options(text, form)?;
    text.push_str("\nFor its words and options: flowcheck help ")?;
    text.push_str(form.name)
}

/// The form of the command that the words begin with, its options, and where these are told of; or the form of a command
/// line, and the commands.
fn form_told(alloc: Global, words: &[String]) -> Result<String, AllocError> {
    let form = form_of(words);
    let mut text = usage_of(alloc, form)?;
    match form {
        Some(form) => add_command(&mut text, form)?,
        None => add_commands(&mut text)?,
    }
    Ok(text)
}

/// Whether words name one run to measure, and then more.
fn is_of_one_run(words: &[String]) -> bool {
    match words {
        [name, _, _, _, _, ..] => {
            let name = name.as_str();
            name == "measure" || name == "graph" || name == "report"
        }
        _ => false,
    }
}

/// What to do beside what `clap` says is wrong with words; empty where there is nothing to say.
fn tip_of(words: &[String], head: &str) -> &'static str {
    let tip = meaning_of(TIPS, head);
    if tip.is_empty()
        && head.starts_with("error: unexpected argument '")
        && !head.starts_with("error: unexpected argument '-")
        && is_of_one_run(words)
    {
        return ONE_SECRET;
    }
    tip
}

/// Adds the tips of `clap`, but those that name `--`, which is no word here.
fn add_tips(start: &mut String, rest: &str) -> Result<(), AllocError> {
    for line in rest.lines() {
        if line.starts_with("  tip: ") && !line.contains("use '") {
            start.push('\n')?;
            start.push_str(line)?;
        }
    }
    Ok(())
}

/// The start of what `clap` says is wrong with words, up to its first blank line, with what to do after that and with
/// its tips.
fn start_of(alloc: Global, words: &[String], text: &str) -> Result<String, AllocError> {
    let (head, rest) = text.split_once("\n\n").unwrap_or((text, ""));
    let mut start = head.trim_end().to_string(alloc)?;
    let tip = tip_of(words, head);
    if !tip.is_empty() {
        start.push_str("\n  tip: ")?;
        start.push_str(tip)?;
    }
    add_tips(&mut start, rest)?;
    Ok(start)
}

/// What is wrong with words that `clap` takes.
fn narrower(words: &[String]) -> &'static str {
    for word in words {
        let word = word.as_str();
        if word.is_empty() || word.starts_with('-') && word.ends_with('=') {
            return EMPTY;
        }
        if word == "-" || word == "--" {
            return DASHES;
        }
    }
    DIGITS
}

/// The words that are wrong: after `help` a word that is no command, else all.
fn wrong_words<'a>(words: &'a [String]) -> &'a [String] {
    match words {
        [first, rest @ ..] if first.as_str() == "help" && rest.len() == 1 => rest,
        _ => words,
    }
}

/// What `clap` says is wrong with words that are no command line.
fn wrong(alloc: Global, words: &[String]) -> Result<String, AllocError> {
    let Err(error) = command_line(alloc)?.try_get_matches_from(wrong_words(words)) else {
        return narrower(words).to_string(alloc);
    };
    if error.kind() == ErrorKind::OutOfMemory {
        return Err(AllocError);
    }
    let text = format!(in alloc; "{error}")?;
    start_of(alloc, words, text.as_str())
}

/// What is wrong with words that are no command line, the nearest name with it, an empty line, and the form of their
/// command with a line feed. Its error is out of memory.
pub fn complaint(alloc: Global, words: &[String]) -> Result<String, AllocError>
    ensures { IfOk result (λ text. IsComplaint (string_bytes text)) }
{
    let wrong = wrong(alloc, words)?;
    let form = form_told(alloc, words)?;
    format!(in alloc; "{wrong}\n\n{form}\n")
}
