//! What stands below the form of a command in its help: its statuses and an example.

use crate::adding::add_all;
use crate::forms::Form;
use std::alloc::AllocError;

/// Adds the line of a status, where it has a meaning.
fn add_status(text: &mut String, status: &str, meaning: &str) -> Result<(), AllocError> {
    if meaning.is_empty() {
        return Ok(());
    }
    add_all(text, &[status, meaning, "\n"])
}

/// Adds the lines of the statuses up to 6.
fn add_statuses(text: &mut String, form: &Form) -> Result<(), AllocError> {
    add_status(text, "  0  ", form.done)?;
    add_status(text, "  1  ", form.not_done)?;
    text.push_str("  2  the words are no command line\n")?;
    if !form.has_files {
        return add_status(text, "  4  ", form.refused);
    }
    text.push_str("  3  a file is malformed\n")?;
    add_status(text, "  4  ", form.refused)?;
    text.push_str("  5  a file cannot be read\n  6  a file is too large\n")
}

const LAST_STATUSES: &str =
    "  7  the text cannot be written\n  8  there is not enough memory\n\nExample, in ";

/// Adds what stands below the form of a command.
pub fn add_ending(text: &mut String, form: &Form) -> Result<(), AllocError> {
    text.push_str("\nStatus:\n")?;
    add_statuses(text, form)?;
    add_all(
        text,
        &[
            LAST_STATUSES,
            form.folder,
            ":\n  flowcheck ",
            form.example,
            "\n",
        ],
    )
}
