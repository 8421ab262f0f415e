ghost use Rattle.std.specs.Prelude.{◌≡◌, ◌∷◌, [], IfOk, Some, is_some, map, option_map, string_bytes, true};
ghost use Rattle.std.specs.List.{list_any};
ghost use Rattle.help_texts.specs.Texts.{asks, asks_version, is_command, is_help, is_help_option, is_judging, is_single, is_telling, is_version, version};

use crate::endings::add_ending;
use crate::forms::{Form, form_named, forms};
use crate::parsers::help_of;
use std::alloc::{AllocError, Global};

const VERSION: &str = "flowcheck 0.1.0\nproved with rattle-kit-13\n";

const BELOW: &str =
    "\nflowcheck help COMMAND tells of one command. docs/GUIDE.md says what each answer means.\n";

/// The help of a command: its form as `clap` tells it, its statuses and an example.
fn form_text(alloc: Global, form: &Form) -> Result<String, AllocError> {
    let mut text = help_of(alloc, Some(form))?;
    add_ending(&mut text, form)?;
    Ok(text)
}

/// Adds an empty line and the help of a command.
fn add_form(alloc: Global, text: &mut String, form: &Form) -> Result<(), AllocError> {
    text.push('\n')?;
    let shown = form_text(alloc, form)?;
    text.push_str(shown.as_str())
}

/// The text of the help: the commands, and then the form of each, as `clap` tells them, with its statuses and an
/// example. Its error is out of memory.
pub fn help(alloc: Global) -> Result<String, AllocError> {
    let mut text = help_of(alloc, None)?;
    text.push_str(BELOW)?;
    for form in forms() {
        add_form(alloc, &mut text, form)?;
    }
    Ok(text)
}

/// The help of the command of this name.
fn command_help(alloc: Global, name: &str) -> Result<String, AllocError> {
    match form_named(name) {
        Some(form) => form_text(alloc, form),
        None => help(alloc),
    }
}

/// Whether a word is the name of a command that judges secrets, or bounds the outputs of all.
fn is_judging_name(word: &str) -> bool
    ensures { result ≡ is_judging word.now }
{
    word == "check" || word == "taint" || word == "bound"
}

/// Whether a word is the name of a command that runs a guest on secrets and tells of the runs.
fn is_telling_name(word: &str) -> bool
    ensures { result ≡ is_telling word.now }
{
    word == "measure"
        || word == "measure-all"
        || word == "graph"
        || word == "report"
        || word == "learn"
}

/// Whether a word is the name of a command of one file or one number.
fn is_single_name(word: &str) -> bool
    ensures { result ≡ is_single word.now }
{
    word == "asm" || word == "list" || word == "verify" || word == "migrate" || word == "trial"
}

/// Whether a word is the name of a command.
fn is_command_name(word: &str) -> bool
    ensures { result ≡ is_command word.now }
{
    is_judging_name(word) || is_telling_name(word) || is_single_name(word)
}

/// Whether a word after a command asks for its help.
fn is_option_of_help(word: &str) -> bool
    ensures { result ≡ is_help_option word.now }
{
    word == "--help" || word == "-h"
}

/// Whether a lone word asks for the help.
fn is_word_of_help(word: &str) -> bool
    ensures { result ≡ is_help word.now }
{
    is_option_of_help(word) || word == "help"
}

/// Whether a lone word asks for the version.
fn is_word_of_version(word: &str) -> bool
    ensures { result ≡ is_version word.now }
{
    word == "--version" || word == "-V"
}

/// The text that a lone word asks for; None exactly where it asks for none.
fn text_of_word(alloc: Global, word: &str) -> Result<Option<String>, AllocError>
    ensures asked { IfOk result (λ text. is_some text ≡ asks (word.now ∷ [])) }
    ensures version { is_version word.now ≡ true → IfOk result (λ text. option_map string_bytes text ≡ Some version) }
{
    if is_word_of_version(word) {
        return Ok(Some(VERSION.to_string(alloc)?));
    }
    if is_word_of_help(word) {
        return Ok(Some(help(alloc)?));
    }
    Ok(None)
}

/// Whether one of some words asks for help.
fn has_option_of_help(words: &[String]) -> bool
    ensures { result ≡ list_any is_help_option (map string_bytes words.now) }
{
    words.iter().any(|word| is_option_of_help(word.as_str()))
}

/// The text that two or more words ask for; None exactly where they ask for none.
fn text_of_more(
    alloc: Global,
    first: &str,
    second: &str,
    rest: &[String],
) -> Result<Option<String>, AllocError>
    ensures { IfOk result (λ text. is_some text ≡ asks (first.now ∷ second.now ∷ map string_bytes rest.now)) }
{
    if is_word_of_help(first) && is_command_name(second) {
        return Ok(Some(command_help(alloc, second)?));
    }
    if is_command_name(first) && (is_option_of_help(second) || has_option_of_help(rest)) {
        return Ok(Some(command_help(alloc, first)?));
    }
    Ok(None)
}

/// The text that words ask for: `--help`, `-h` or `help`, `--version` or `-V`; of a command one of the first three before
/// its name, or `--help` or `-h` anywhere behind it. None exactly where they ask for none. Its error is out of memory.
pub fn text_asked(alloc: Global, words: &[String]) -> Result<Option<String>, AllocError>
    ensures asked { IfOk result (λ text. is_some text ≡ asks (map string_bytes words.now)) }
    ensures version { asks_version (map string_bytes words.now) ≡ true
        → IfOk result (λ text. option_map string_bytes text ≡ Some version) }
{
    match words {
        [word] => text_of_word(alloc, word.as_str()),
        [first, second, rest @ ..] => { text_of_more(alloc, first.as_str(), second.as_str(), rest) }
        _ => Ok(None),
    }
}
