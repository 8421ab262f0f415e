use help_texts::explanation;
use std::alloc::{AllocError, Global};

/// The status and the text of an answer, in which ` / ` stands for a line feed; None where there is no number.
fn answered(alloc: Global, said: &str) -> Result<Option<(u8, String)>, AllocError> {
    let Some((status, put)) = said.split_once(' ') else {
        return Ok(None);
    };
    let Ok(status) = status.parse::<u8>() else {
        return Ok(None);
    };
    let mut text = String::new(alloc);
    for line in put.split(" / ") {
        text.push_str(line)?;
        text.push('\n')?;
    }
    Ok(Some((status, text)))
}

/// What an answer to words means.
pub fn meaning(alloc: Global, said: &str, words: &[String]) -> Result<String, AllocError> {
    if let Some((status, text)) = answered(alloc, said)? {
        if let Some(told) = explanation(alloc, status, words, text.as_str().as_bytes())? {
            return Ok(told);
        }
    }
    "nothing to say\n".to_string(alloc)
}
