//! What the crates of Flowcheck speak of: lists and bytes, pieces of text, words in hexadecimal, the points of a run, the
//! words of texts that name numbers and slots, registers and their names, what is inside guest memory, an output, and the
//! outside: where files come from and where text goes.
#![tactic(auto)]

mod guests;
mod hex_words;
mod host;
mod lists;
mod loading;
mod memory_files;
mod memory_sink;
mod outputs;
mod point_orders;
mod points;
mod putting;
mod register_file;
mod register_names;
mod text_pieces;
mod text_words;

pub use guests::{MEMORY_SIZE, is_inside};
pub use hex_words::{HexWord, digit, hex_digits, hex_word};
pub use host::{DiskFiles, StandardOut};
pub use lists::{Bytes, List, NoMemory};
pub use loading::{Files, LoadFault};
pub use memory_files::{Held, MemoryFiles};
pub use memory_sink::{MemorySink, SinkFail};
pub use outputs::Output;
pub use point_orders::points_are_ordered;
pub use points::{Point, Slot};
pub use putting::{Sink, SinkFault};
pub use register_file::Registers;
pub use register_names::register_named;
pub use text_pieces::{after, byte_at, put, put_number, put_slot, skip};
pub use text_words::{
    hex_word_named, number_in_front, number_named, slot_in_front, slot_named, word_in_front,
};
