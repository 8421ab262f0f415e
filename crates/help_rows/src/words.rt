use std::alloc::{AllocError, Global};

/// The words of a line, which stand between single spaces; between two spaces stands an empty one.
pub fn words_of_line(alloc: Global, line: &str) -> Result<Vec<String>, AllocError> {
    let mut words = Vec::new(alloc);
    for word in line.split(' ') {
        words.push(word.to_string(alloc)?)?;
    }
    Ok(words)
}
