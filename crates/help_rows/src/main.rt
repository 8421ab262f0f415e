//! Says of each line of a table of which command it is a command line; else it prints the text that the line asks for,
//! or what is wrong with it. Which rows are command lines was found by hand. Of a line `STATUS TEXT <- WORDS` it prints
//! what that answer to the words means; there ` / ` stands for a line feed of the text.
#![tactic(auto)]

mod answers;
mod names;
mod words;

use answers::meaning;
use help_texts::{complaint, text_asked};
use names::command_name;
use std::alloc::{AllocError, Global};
use std::io;
use words::words_of_line;

/// What is printed of the words of a line.
fn answer(alloc: Global, words: &[String]) -> Result<String, AllocError> {
    if let Some(text) = text_asked(alloc, words)? {
        return Ok(text);
    }
    match command_name(alloc, words) {
        Ok(Some(name)) => format!(in alloc; "{name}\n"),
        Ok(None) => complaint(alloc, words),
        Err(_) => Err(AllocError),
    }
}

/// What is printed of a line.
fn answer_to_line(alloc: Global, line: &str) -> Result<String, AllocError> {
    match line.split_once(" <- ") {
        Some((said, rest)) => {
            let words = words_of_line(alloc, rest)?;
            meaning(alloc, said, words.as_slice())
        }
        None => {
            let words = words_of_line(alloc, line)?;
            answer(alloc, words.as_slice())
        }
    }
}

fn main(rt: HostRuntime) -> io::Result<()> {
    let alloc = rt.alloc();
    for line in rt.lines(alloc) {
        print!(rt; "{}", answer_to_line(alloc, line?.as_str())?)?;
    }
    Ok(())
}
