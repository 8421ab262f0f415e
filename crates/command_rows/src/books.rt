use commands::flowcheck;
use flow_base::{MemoryFiles, MemorySink};
use std::alloc::Global;
use transfer_rules::{book_1, book_2, book_3};

/// The status of words that are answered by the mask rules of all tables.
pub fn answer_by_books(
    alloc: Global,
    words: Vec<String>,
    files: &mut MemoryFiles,
    sink: &mut MemorySink,
) -> u8 {
    let books = [book_1!(), book_2!(), book_3!()];
    flowcheck(alloc, words, files, sink, &books)
}
