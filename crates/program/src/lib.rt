//! What the program does: the answer to its words over files on a disk and standard output, by books of all tables of
//! mask rules; and texts for people.
#![tactic(auto)]

mod keeping;
mod other_cuts;

use commands::flowcheck;
use flow_base::{DiskFiles, Sink, StandardOut};
use help_texts::{explanation, text_asked};
use keeping::KeepingSink;
use other_cuts::note_of_cut;
use std::alloc::Global;
use std::env;
use std::io::ErrorKind;
use std::process::ExitCode;
use transfer_rules::{book_1, book_2, book_3};

/// The words after the program's name, or the status where they cannot be had: 8 where memory is out, else 9.
fn words_of(rt: &HostRuntime, alloc: Global) -> Result<Vec<String>, u8> {
    let mut words = Vec::new(alloc);
    let args = match env::args(rt) {
        Ok(args) => args,
        Err(error) if error.kind() == ErrorKind::OutOfMemory => return Err(8),
        Err(_) => return Err(9),
    };
    for word in args.skip(1) {
        if words.push(word).is_err() {
            return Err(8);
        }
    }
    Ok(words)
}

/// Writes a text, and the status of that: 0, or 7 where the write fails.
fn written(rt: HostRuntime, text: &str) -> u8 {
    let mut out = StandardOut::new(rt);
    match out.put(text.as_bytes()) {
        Ok(()) => 0,
        Err(_) => 7,
    }
}

/// Writes to standard error what an answer means and what to change, where there is something to say. `text` is what was
/// put, or a beginning of it.
fn explain(rt: HostRuntime, status: u8, text: &[u8]) {
    let Ok(words) = words_of(&rt, rt.alloc()) else {
        return;
    };
    if let Ok(Some(told)) = explanation(rt.alloc(), status, words.as_slice(), text) {
        let _ = rt.eprint(told);
    }
    // Where all is accepted, a cut of another program has done no harm.
    if status == 1
        && let Some(told) = note_of_cut(rt.alloc(), &mut DiskFiles::new(rt), words.as_slice())
    {
        let _ = rt.eprint(told);
    }
}

/// Answers the words that the system gives, over files on a disk and standard output, and gives the status with which the
/// process ends: that of the answer, 8 where the words cannot be had since memory is out, and 9 where they cannot be had
/// for another cause. A text that is asked for is written in place of an answer. What an answer means that is not the
/// plain one stands on standard error.
pub fn run(rt: HostRuntime) -> ExitCode {
    let words = match words_of(&rt, rt.alloc()) {
        Ok(words) => words,
        Err(status) => return ExitCode::from(status),
    };
    match text_asked(rt.alloc(), words.as_slice()) {
        Ok(None) => {}
        Ok(Some(text)) => return ExitCode::from(written(rt, text.as_str())),
        Err(_) => return ExitCode::from(8),
    }
    let mut files = DiskFiles::new(rt);
    let mut out = KeepingSink::new(rt.alloc(), StandardOut::new(rt));
    let books = [book_1!(), book_2!(), book_3!()];
    let status = flowcheck(rt.alloc(), words, &mut files, &mut out, &books);
    explain(rt, status, out.kept());
    ExitCode::from(status)
}
