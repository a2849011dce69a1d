//! Opening plain files alone.
ghost use Rattle.std.specs.Prelude.{◌≡◌, ◌≢◌, ◌↔◌, IsOk, MatchResult, Ok, Err, Some, None, Result, IsErrAnd, ◌⊎◌};
ghost use Rattle.std.specs.IoError.{error_kind};
ghost use Rattle.std.specs.Fs.{IsFile, file_type};
ghost use Rattle.sz_real.specs.Plain.{IsFound};

use std::alloc::Global;
use std::fs::{self, File, Files, Metadata, OpenFile, OpenOptions};
use std::io::{self, ErrorKind};
use std::str;

/// A path as the runtime takes it, which is UTF-8.
pub(crate) fn path_text(path: &[u8]) -> io::Result<&str> {
    str::from_utf8(path).map_err(|_| io::Error::from(ErrorKind::InvalidFilename))
}

/// Opens the plain file at a path, and answers its length, too, or `None` where nothing has the path. Anything
/// else under that name (a folder, a pipe, a device) is an error. The name is looked at first, since to open a
/// pipe may wait for ever, and what was opened is looked at again.
pub(crate) fn open_plain<R: Files>(
    runtime: &R,
    how: &OpenOptions,
    path: &str,
) -> io::Result<Option<(R::File, u64)>> {
    if let Some(named) = found(fs::metadata(runtime, path))? {
        require_plain(&named)?;
    }
    let Some(file) = found(how.open(runtime, path))? else {
        return Ok(None);
    };
    let opened = file.metadata()?;
    require_plain(&opened)?;
    Ok(Some((file, opened.len())))
}

// The answer of a call on a path, or `None` where nothing has the path.
fn found<T>(answer: io::Result<T>) -> io::Result<Option<T>>
    ensures { IsFound answer result }
{
    match answer {
        Ok(value) => Ok(Some(value)),
        Err(error) if error.kind() == ErrorKind::NotFound => Ok(None),
        Err(error) => Err(error),
    }
}

fn require_plain(metadata: &Metadata) -> io::Result<()>
    ensures { IsOk result ↔ IsFile (file_type metadata.now) }
{
    if metadata.is_file() {
        Ok(())
    } else {
        Err(io::Error::from(ErrorKind::InvalidInput))
    }
}

/// Has the name of the file at a path on the medium: syncs the folder in which the file lies, also where
/// the path leads to it by a link.
pub(crate) fn sync_folder<R: Files>(runtime: &R, alloc: Global, path: &str) -> io::Result<()> {
    let real = runtime.canonicalize(alloc, path)?;
    match real.parent() {
        Some(folder) => File::open(runtime, folder)?.sync_all(),
        None => Err(io::Error::from(ErrorKind::InvalidFilename)),
    }
}
