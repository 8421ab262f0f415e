//! The forms as `clap` has them. What is a command line is decided by `command_line` alone.

use crate::forms::{Form, Item, Takes, forms};
use clap::builder::ValueParser;
use clap::{Arg, ArgAction, Command};
use std::alloc::{AllocError, Global};

const ABOUT: &str = "How many bits of its secret can a program's output have given away?";

/// A command without words, of which `clap`'s own words for help and version are none.
fn bare<'a>(alloc: Global, name: &'a str) -> Command<'a> {
    Command::new(alloc, name)
        .no_binary_name(true)
        .disable_help_flag(true)
        .disable_version_flag(true)
        .disable_help_subcommand(true)
}

/// A word of a form.
fn word<'a>(alloc: Global, item: &'a Item) -> Arg<'a> {
    let word = Arg::new(alloc, item.name).required(true).help(item.help);
    match item.takes {
        Takes::Nothing | Takes::File => word,
        Takes::Files => word.num_args(1..=64usize),
        Takes::Number(least, most) => word.value_parser(ValueParser::unsigned(least, most)),
    }
}

/// An option of a form.
fn option<'a>(alloc: Global, item: &'a Item) -> Arg<'a> {
    let option = Arg::new(alloc, item.name).long(item.name).help(item.help);
    match item.takes {
        Takes::Nothing => option.action(ArgAction::SetTrue),
        Takes::File | Takes::Files => option.value_name("FILE"),
        Takes::Number(least, most) => option
            .value_name("N")
            .value_parser(ValueParser::unsigned(least, most)),
    }
}

/// The words and the options of a form.
fn args<'a>(alloc: Global, form: &'a Form) -> Result<Vec<Arg<'a>>, AllocError> {
    let mut args: Vec<Arg<'a>> = Vec::new(alloc);
    for item in form.words {
        args.push(word(alloc, item))?;
    }
    for item in form.options {
        args.push(option(alloc, item))?;
    }
    Ok(args)
}

/// A command of this name without words.
fn wordless<'a>(alloc: Global, name: &'a str) -> Result<Command<'a>, AllocError> {
    let line = format!(in alloc; "flowcheck {name}")?;
    bare(alloc, name).bin_name(line.as_str())
}

/// The command of a form.
pub fn command<'a>(alloc: Global, form: &'a Form) -> Result<Command<'a>, AllocError> {
    let args = args(alloc, form)?;
    wordless(alloc, form.name)?.about(form.about).args(args)
}

/// The commands of all forms.
fn commands<'a>(alloc: Global) -> Result<Vec<Command<'a>>, AllocError> {
    let mut commands: Vec<Command<'a>> = Vec::new(alloc);
    for form in forms() {
        let form: &'a Form = form;
        commands.push(command(alloc, form)?)?;
    }
    Ok(commands)
}

/// A command line: any of the commands.
pub fn command_line<'a>(alloc: Global) -> Result<Command<'a>, AllocError> {
    bare(alloc, "flowcheck")
        .about(ABOUT)
        .subcommand_required(true)
        .subcommands(commands(alloc)?)
}

/// The command of a form, or a command line without a form.
fn told<'a>(alloc: Global, form: Option<&'a Form>) -> Result<Command<'a>, AllocError> {
    match form {
        Some(form) => command(alloc, form),
        None => command_line(alloc),
    }
}

/// What `clap` tells of the command of a form, or of a command line.
pub fn help_of(alloc: Global, form: Option<&Form>) -> Result<String, AllocError> {
    told(alloc, form)?.render_help()
}

/// The line that `clap` has for the command of a form, or for a command line.
pub fn usage_of(alloc: Global, form: Option<&Form>) -> Result<String, AllocError> {
    told(alloc, form)?.render_usage()
}
