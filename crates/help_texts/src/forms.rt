//! The form of each command: what its words and options are, what its statuses mean, and an example.

use crate::form_table::FORMS;

/// What a word of a form is, or what an option takes.
pub enum Takes {
    /// Nothing: an option that is a flag.
    Nothing,
    /// The name of a file.
    File,
    /// The names of 1 to 64 files.
    Files,
    /// A number from the first to the second.
    Number(u64, u64),
}

/// A word of a form, or an option.
pub struct Item {
    /// Its name, of an option without the two hyphens.
    pub name: &'static str,
    /// What it is, or what the option takes.
    pub takes: Takes,
    /// What the help says of it.
    pub help: &'static str,
}

/// The form of a command.
pub struct Form {
    /// The command.
    pub name: &'static str,
    /// What it does.
    pub about: &'static str,
    /// The words after the command, in their order.
    pub words: &'static [Item],
    /// Its options.
    pub options: &'static [Item],
    /// What status 0 means.
    pub done: &'static str,
    /// What status 1 means; empty where it does not come.
    pub not_done: &'static str,
    /// What status 4 means; empty where it does not come.
    pub refused: &'static str,
    /// Whether the command loads files.
    pub has_files: bool,
    /// The folder in which the example runs.
    pub folder: &'static str,
    /// The words of the example.
    pub example: &'static str,
}

/// The forms of all commands.
pub fn forms<'a>() -> &'a [Form] {
    &FORMS
}

/// The form of the command of this name; None where there is no such command.
pub fn form_named<'a>(name: &str) -> Option<&'a Form> {
    for form in forms() {
        if form.name == name {
            return Some(form);
        }
    }
    None
}

/// The form of the command that words begin with; None where they begin with none.
pub fn form_of<'a>(words: &[String]) -> Option<&'a Form> {
    match words {
        [name, ..] => form_named(name.as_str()),
        [] => None,
    }
}
