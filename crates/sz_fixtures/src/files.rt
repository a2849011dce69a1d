//! Folders in memory, and the texts that name what is in them.

use crate::network::calls;
use std::alloc::Global;
use sz_base::{Bytes, OutOfMemory, Text, Texts};
use sz_io::{Files, MemoryFolder};

/// Adds a file of these bytes under a path.
pub fn add_file(
    alloc: Global,
    files: &mut Files,
    path: &[u8],
    bytes: &[u8],
) -> Result<(), OutOfMemory> {
    let path = Text::from_slice(alloc, path)?;
    let bytes = Bytes::from_slice(alloc, bytes)?;
    files.push((path, bytes))
}

/// A folder of these files, whose call of this number, counted from 1, fails; 0 for none.
pub fn folder(alloc: Global, files: Files, fails: u64) -> Result<MemoryFolder, OutOfMemory> {
    Ok(MemoryFolder::create(alloc, files, calls(alloc, fails)?))
}

/// Texts of these bytes, as the words of a command or the URIs of an image.
pub fn texts(alloc: Global, words: &[&[u8]]) -> Result<Texts, OutOfMemory> {
    let mut texts = Texts::create(alloc);
    for word in words {
        texts.push(Text::from_slice(alloc, word)?)?;
    }
    Ok(texts)
}
