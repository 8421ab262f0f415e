//! What one register or one byte of memory may be where some bytes are unknown: bits that are known beside bits that
//! are not, or a word for each value of one unknown byte. Each answer holds for every value that the unknown bytes may
//! have.
#![tactic(auto)]

mod byte_sets;
mod cells;
mod computing;
mod covering;
mod deciding;
mod loading;
mod naming;
mod telling;
mod unknowns;

pub use byte_sets::ByteSet;
pub use cells::{Bits, Cell, Table, same_table};
pub use computing::{by_table, compute};
pub use covering::{bits_of, bits_of_table, cover};
pub use deciding::{Decided, agreeing, decide};
pub use loading::{load_of, part_of};
pub use naming::{name_byte, name_word};
pub use telling::tell;
pub use unknowns::{Known, Origin, Unknown, Unknowns};
