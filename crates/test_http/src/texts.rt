//! Texts that are made of parts, and texts as a head and what stands behind it.

use std::alloc::{AllocError, Global};
use std::test::Fail;
use sz_http::{HeadReading, Progress};

/// A text with so many copies of a part in its middle.
pub(crate) fn repeated(
    alloc: Global,
    front: &[u8],
    part: &[u8],
    count: usize,
    back: &[u8],
) -> Result<Vec<u8>, AllocError> {
    let mut text = Vec::from_slice(alloc, front)?;
    for _ in 0..count {
        text.extend_from_slice(part)?;
    }
    text.extend_from_slice(back)?;
    Ok(text)
}

/// What stands behind the head with which the text begins, and which the reading takes.
pub(crate) fn behind_head<'t>(reading: &mut HeadReading, text: &'t [u8]) -> Result<&'t [u8], Fail> {
    match reading.feed(text) {
        Ok(Progress::Whole { used }) => Ok(text.get(used..).unwrap_or(b"")),
        _ => Err("no head".into()),
    }
}
