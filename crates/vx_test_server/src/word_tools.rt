//! What the tests share that compose records by hand from their words; the mark of a record stands first.

use std::alloc::{AllocError, Global};
use vx_io_traits::Link;
use vx_memory::{MemLink, MemReach};

/// Puts numbers behind bytes, as words.
pub(crate) fn push_words(bytes: &mut Vec<u8>, numbers: &[u32]) -> Result<(), AllocError> {
    for number in numbers {
        bytes.extend_from_slice(&number.to_be_bytes())?;
    }
    Ok(())
}

/// These numbers as words, and then those.
pub(crate) fn words(alloc: Global, first: &[u32], more: &[u32]) -> Result<Vec<u8>, AllocError> {
    let mut bytes = Vec::new(alloc);
    push_words(&mut bytes, first)?;
    push_words(&mut bytes, more)?;
    Ok(bytes)
}

/// What is behind these words at the front of bytes.
pub(crate) fn behind<'a>(bytes: &'a [u8], numbers: &[u32]) -> Option<&'a [u8]> {
    let mut rest = bytes;
    for number in numbers {
        rest = rest.strip_prefix(number.to_be_bytes().as_slice())?;
    }
    Some(rest)
}

/// A link that gives these words and then those, so many bytes a receive, and of which these calls fail.
pub(crate) fn link_of(
    alloc: Global,
    first: &[u32],
    more: &[u32],
    piece: usize,
    fails: &[u64],
) -> Result<MemLink, AllocError> {
    let bytes = words(alloc, first, more)?;
    let fails = fails.to_vec(alloc)?;
    Ok(MemLink::new(bytes, piece.max(1), Vec::new(alloc), fails))
}

/// A host that answers at port 9010 over a link.
pub(crate) fn reach_of<L: Link + Drop>(
    alloc: Global,
    host: &str,
    link: L,
) -> Result<MemReach<L>, AllocError> {
    match String::from_str(alloc, host) {
        Ok(host) => Ok(MemReach::new(link, host, 9010)),
        Err(error) => Err(error),
    }
}
