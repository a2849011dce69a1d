//! The disks that the words name, each in its file.

use std::alloc::Global;
use std::fs::Files;
use sz_base::{OutOfMemory, Text};
use sz_disk::Disks;
use sz_real::{FileDisk, PositionedFile};

/// One disk for each distinct word that begins with `@`, under that word, in the file at the rest of it.
pub fn disks_named<'a, R: Files>(
    files: &'a R,
    alloc: Global,
    words: &[Text],
) -> Result<Disks<FileDisk<'a, R>>, OutOfMemory>
where
    R::File: PositionedFile,
{
    let mut disks = Disks::create(alloc);
    for word in words {
        let Some((b'@', path)) = word.as_slice().split_first() else {
            continue;
        };
        if disks.find(word.as_slice()).is_none() {
            let disk = FileDisk::create(files, alloc, Text::from_slice(alloc, path)?);
            disks.add(word.copy(alloc)?, disk)?;
        }
    }
    Ok(disks)
}
