//! Messages as words.

use std::alloc::{AllocError, Global};

/// Words, as bytes.
pub(crate) fn spelled(alloc: Global, words: &[u32]) -> Result<Vec<u8>, AllocError> {
    let mut bytes = Vec::new(alloc);
    for word in words {
        bytes.extend_from_slice(&word.to_be_bytes())?;
    }
    Ok(bytes)
}

/// Messages of words, as bytes.
pub(crate) fn all_spelled(alloc: Global, messages: &[&[u32]]) -> Result<Vec<Vec<u8>>, AllocError> {
    let mut all = Vec::new(alloc);
    for words in messages {
        all.push(spelled(alloc, words)?)?;
    }
    Ok(all)
}
