//! Files of a source, each within a limit.

ghost use Rattle.std.specs.Prelude.{◌≡◌, IfOk};
ghost use Rattle.sz_io.specs.Folder.{bytes_at};
ghost use Rattle.sz_spec.specs.Cause.{HasCause};
ghost use Rattle.sz_visit.specs.Files.{artifact_of, blames_folder, file_of, Gives, message_of, under};

use crate::FileFault;
use std::alloc::Global;
use sz_base::{Bytes, MOST_ARTIFACT_BYTES, OutOfMemory, Text};
use sz_io::{Folder, Found, read_whole};

/// How many bytes a file with a DHCP or DNS message may have.
pub const MOST_MESSAGE_BYTES: u64 = 65_535;

/// The DHCP or DNS message in the file under this path. `Absent` where there is no such file, and `TooLarge` where it
/// has more than `MOST_MESSAGE_BYTES` bytes.
pub fn read_message<F: Folder>(
    alloc: Global,
    folder: &mut F,
    path: &Text,
) -> Result<Bytes, FileFault>
    ensures gives { Gives (F.files folder.old) (λ files. message_of (bytes_at files path.now)) result }
    ensures unchanged { F.files folder.new ≡ F.files folder.old }
    ensures cause { HasCause (F.faults folder.old) (F.faults folder.new) (blames_folder result) }
{
    match read_file(alloc, folder, path, MOST_MESSAGE_BYTES)? {
        Some(message) => Ok(message),
        None => Err(FileFault::Absent),
    }
}

/// An artifact under a name in a folder, where there is one.
pub(crate) fn read_artifact<F: Folder>(
    alloc: Global,
    folder: &mut F,
    base: &[u8],
    name: &[u8],
) -> Result<Option<Bytes>, FileFault>
    ensures gives { Gives (F.files folder.old) (λ files. artifact_of (bytes_at files (under base.now name.now)))
        result }
    ensures unchanged { F.files folder.new ≡ F.files folder.old }
    ensures cause { HasCause (F.faults folder.old) (F.faults folder.new) (blames_folder result) }
{
    let path = under(alloc, base, name)?;
    read_file(alloc, folder, &path, MOST_ARTIFACT_BYTES)
}

// The file under this path, where there is one.
fn read_file<F: Folder>(
    alloc: Global,
    folder: &mut F,
    path: &Text,
    most: u64,
) -> Result<Option<Bytes>, FileFault>
    ensures gives { Gives (F.files folder.old) (λ files. file_of most (bytes_at files path.now)) result }
    ensures unchanged { F.files folder.new ≡ F.files folder.old }
    ensures cause { HasCause (F.faults folder.old) (F.faults folder.new) (blames_folder result) }
{
    match read_whole(alloc, folder, path, most)? {
        Found::Absent => Ok(None),
        Found::Larger { length: _ } => Err(FileFault::TooLarge { limit: most }),
        Found::Whole(bytes) => Ok(Some(bytes)),
        Found::OutOfMemory => Err(FileFault::OutOfMemory),
    }
}

/// The path of this name in a folder.
pub(crate) fn under(alloc: Global, base: &[u8], name: &[u8]) -> Result<Text, OutOfMemory>
    ensures { IfOk result (λ path. path ≡ under base.now name.now) }
{
    let mut path = Text::from_slice(alloc, base)?;
    path.append(b"/")?;
    path.append(name)?;
    Ok(path)
}
