//! The program and the cut of a command line, and what is told if the cut is not of the program.

use crate::adding::add_all;
use crate::naming::{named, options_last};
use std::alloc::{AllocError, Global};

const OF_ANOTHER: &str =
    ", where the program has no instruction: is it of another program, or of another build of it? Write a new one by \
    flowcheck measure PROG PUBLIC SECRET >cut.\n";

/// The names of a program and of a cut for it, as words give them.
#[derive(Drop)]
pub struct CutNames {
    /// The name of the program.
    pub program: String,
    /// The name of the cut.
    pub cut: String,
}

/// The names of the program and of the cut, of a command line that has both; else None. Its error is out of memory.
pub fn cut_names(alloc: Global, words: &[String]) -> Result<Option<CutNames>, AllocError> {
    let ordered = options_last(alloc, words)?;
    let Some(matches) = named(alloc, ordered.as_slice())? else {
        return Ok(None);
    };
    let Some((_, after)) = matches.subcommand() else {
        return Ok(None);
    };
    match (after.get_str("PROG"), after.get_str("CUT")) {
        (Some(program), Some(cut)) => Ok(Some(CutNames {
            program: program.to_string(alloc)?,
            cut: cut.to_string(alloc)?,
        })),
        _ => Ok(None),
    }
}

/// What is told of a cut that names a place, as `0x00010018`, at which the program has no instruction. Its error is out
/// of memory.
pub fn other_cut_note(alloc: Global, cut: &str, place: &str) -> Result<String, AllocError> {
    let mut text = String::new(alloc);
    add_all(
        &mut text,
        &["note: the cut ", cut, " names ", place, OF_ANOTHER],
    )?;
    Ok(text)
}
