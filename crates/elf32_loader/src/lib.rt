//! ELF32 program files of RV32IM (System V ABI, Executable and Linking Format, 32-bit): the image that is loaded from
//! one, and the file that is written for one.
#![tactic(auto)]

mod fault;
mod fields;
mod header_checks;
mod headers;
mod images;
mod laws;
mod load_checks;
mod loading;
mod searching;
mod segments;
mod writing;

pub use fault::ElfFault;
pub use images::Image;
pub use laws::{
    files_give_one_image_or_a_fault, memory_is_what_is_loaded, written_files_give_their_images,
};
pub use loading::load_image;
pub use segments::Segment;
pub use writing::write_image;
