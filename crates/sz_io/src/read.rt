//! Reading a file whole.
ghost use Rattle.std.specs.Prelude.{◌≡◌, ◌≢◌, ◌<◌, ◌≤◌, length, IfOk, IfSome, is_err};
ghost use Rattle.sz_spec.specs.Cause.{HasCause};
ghost use Rattle.sz_io.specs.Folder.{bytes_at, readable_at};
ghost use Rattle.sz_io.specs.Read.{found_of, IsWithin};

use crate::Folder;
use std::alloc::Global;
use sz_base::{Bytes, Failed, Text};

// How many bytes are asked for at a time.
const CHUNK: usize = 65536;

/// What was found at a path.
#[derive(Debug, Drop)]
pub enum Found {
    /// There is no such file.
    Absent,
    /// The file has so many bytes, which is more than were asked for.
    Larger { length: u64 },
    /// All of the file's bytes.
    Whole(Bytes),
    /// Memory ran out.
    OutOfMemory,
}

/// Reads a file whole, if it has at most `most` bytes. It asks for no more bytes than the folder said
/// that the file has; a file that ends sooner is what was read of it.
pub fn read_whole<F: Folder>(
    alloc: Global,
    folder: &mut F,
    path: &Text,
    most: u64,
) -> Result<Found, Failed>
    ensures found { IfOk result (λ found. found ≢ Found.OutOfMemory → IfSome (F.files folder.old) (λ told.
        found ≡ found_of most (bytes_at told path.now))) }
    ensures within { IfOk result (IsWithin most) }
    ensures unchanged { F.files folder.new ≡ F.files folder.old }
    ensures cause { HasCause (F.faults folder.old) (F.faults folder.new) (is_err result) }
{
    let Some(length) = folder.length(path)? else {
        return Ok(Found::Absent);
    };
    if length > most {
        return Ok(Found::Larger { length });
    }
    Ok(match read_front(alloc, folder, path, length)? {
        Some(bytes) => Found::Whole(bytes),
        None => Found::OutOfMemory,
    })
}

// The bytes of a file that has so many, as the folder said, or `None` where memory ran out.
fn read_front<F: Folder>(
    alloc: Global,
    folder: &mut F,
    path: &Text,
    size: u64,
) -> Result<Option<Bytes>, Failed>
    requires { IfSome (F.files folder.old) (λ told. size ≡ length (readable_at told path.now)) }
    ensures bytes { IfOk result (λ read. IfSome read (λ bytes. IfSome (F.files folder.old) (λ told.
        bytes ≡ readable_at told path.now))) }
    ensures within { IfOk result (λ read. IfSome read (λ bytes. length bytes ≤ size)) }
    ensures unchanged { F.files folder.new ≡ F.files folder.old }
    ensures cause { HasCause (F.faults folder.old) (F.faults folder.new) (is_err result) }
{
    let Ok(mut chunk) = vec![in alloc; 0u8; CHUNK.min(size as usize)] else {
        return Ok(None);
    };
    read_chunks(alloc, folder, path, size, chunk.as_mut_slice())
}

// The same, with a buffer for the reads.
fn read_chunks<F: Folder>(
    alloc: Global,
    folder: &mut F,
    path: &Text,
    size: u64,
    chunk: &mut [u8],
) -> Result<Option<Bytes>, Failed>
    requires size { IfSome (F.files folder.old) (λ told. size ≡ length (readable_at told path.now)) }
    requires room { 0 < size → 0 < length chunk.old }
    ensures bytes { IfOk result (λ read. IfSome read (λ bytes. IfSome (F.files folder.old) (λ told.
        bytes ≡ readable_at told path.now))) }
    ensures within { IfOk result (λ read. IfSome read (λ bytes. length bytes ≤ size)) }
    ensures unchanged { F.files folder.new ≡ F.files folder.old }
    ensures cause { HasCause (F.faults folder.old) (F.faults folder.new) (is_err result) }
{
    let mut bytes = Bytes::create(alloc);
    while (bytes.len() as u64) < size {
        let wanted = chunk.len().min((size - bytes.len() as u64) as usize);
        let count = folder.read_at(path, bytes.len() as u64, &mut chunk[..wanted])?;
        if count == 0 {
            break;
        }
        if bytes.append(&chunk[..count]).is_err() {
            return Ok(None);
        }
    }
    Ok(Some(bytes))
}
