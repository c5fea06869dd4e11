//! Records as their words.

use std::alloc::{AllocError, Global};

/// Puts numbers behind, as words of a record.
pub(crate) fn add_words(bytes: &mut Vec<u8>, numbers: &[u32]) -> Result<(), AllocError> {
    for number in numbers {
        bytes.extend_from_slice(&number.to_be_bytes())?;
    }
    Ok(())
}

/// Numbers as words of a record, and bytes behind them.
pub(crate) fn words(alloc: Global, numbers: &[u32], rest: &[u8]) -> Result<Vec<u8>, AllocError> {
    let mut bytes = Vec::new(alloc);
    add_words(&mut bytes, numbers)?;
    bytes.extend_from_slice(rest)?;
    Ok(bytes)
}

/// Whether bytes are these numbers as words of a record.
pub(crate) fn are_words(bytes: &[u8], numbers: &[u32]) -> bool {
    let (words, rest) = bytes.as_chunks::<4>();
    let mut same = words.len() == numbers.len() && rest.is_empty();
    for (word, number) in words.iter().zip(numbers) {
        same = u32::from_be_bytes(*word) == *number && same;
    }
    same
}
