//! Reading an input file that a word of the command names.
ghost use Rattle.std.specs.Prelude.{◌≡◌, ◌≤◌, length, take, Some, IfOk, IfErr, IfSome, is_err};
ghost use Rattle.std.specs.Option.{option_map};
ghost use Rattle.sz_spec.specs.Cause.{HasCause};
ghost use Rattle.sz_io.specs.Folder.{bytes_at, readable_at};
ghost use Rattle.sz_commands.specs.Failure.{IsUnread};
ghost use Rattle.sz_commands.specs.View.{failure_of, faults_folder};

use crate::Failure;
use std::alloc::Global;
use sz_base::{Bytes, Failed, Text};
use sz_io::Folder;

/// How many bytes the file at the path has, or why that can't be had.
pub fn input_size<'a, F: Folder>(path: &'a Text, folder: &mut F) -> Result<u64, Failure<'a>>
    ensures size { IfOk result (λ size. IfSome (F.files folder.old) (λ told.
        option_map length (bytes_at told path.now) ≡ Some size)) }
    ensures unread { IfErr result (λ failure. IsUnread path.now (F.files folder.old) (failure_of failure)) }
    ensures unchanged { F.files folder.new ≡ F.files folder.old }
    ensures cause { HasCause (F.faults folder.old) (F.faults folder.new) (faults_folder result) }
{
    match folder.length(path) {
        Ok(Some(size)) => Ok(size),
        Ok(None) => Err(Failure::NoFile(path)),
        Err(Failed) => Err(Failure::FileFault(path)),
    }
}

/// The first `most` bytes of the file at the path, or all of them where it has fewer, or why there are none to be
/// had. Memory is taken for no more than that, whatever the file has.
pub fn read_front<'a, F: Folder>(
    alloc: Global,
    path: &'a Text,
    most: usize,
    folder: &mut F,
) -> Result<Bytes, Failure<'a>>
    ensures front { IfOk result (λ front. IfSome (F.files folder.old) (λ told.
        option_map (take most) (bytes_at told path.now) ≡ Some front)) }
    ensures within { IfOk result (λ front. length front ≤ most) }
    ensures unread { IfErr result (λ failure. IsUnread path.now (F.files folder.old) (failure_of failure)) }
    ensures unchanged { F.files folder.new ≡ F.files folder.old }
    ensures cause { HasCause (F.faults folder.old) (F.faults folder.new) (faults_folder result) }
{
    let size = input_size(path, folder)?;
    let Ok(mut front) = vec![in alloc; 0u8; most.min(size as usize)] else {
        return Err(Failure::OutOfMemory);
    };
    match fill_front(folder, path, front.as_mut_slice()) {
        Ok(count) => {
            front.truncate(count);
            Ok(Bytes::from_vec(front))
        }
        Err(Failed) => Err(Failure::FileFault(path)),
    }
}

// Fills the buffer with the file's bytes from its front on, and answers how many there are: as many as it takes, but
// where the file ends sooner.
fn fill_front<F: Folder>(folder: &mut F, path: &Text, into: &mut [u8]) -> Result<usize, Failed>
    ensures within { IfOk result (λ count. count ≤ length into.new) }
    ensures front { IfOk result (λ count. IfSome (F.files folder.old) (λ told.
        take count into.new ≡ take (length into.old) (readable_at told path.now))) }
    ensures length { length into.new ≡ length into.old }
    ensures unchanged { F.files folder.new ≡ F.files folder.old }
    ensures cause { HasCause (F.faults folder.old) (F.faults folder.new) (is_err result) }
{
    let mut count = 0;
    while count < into.len() {
        let more = folder.read_at(path, count as u64, &mut into[count..])?;
        if more == 0 {
            break;
        }
        count += more;
    }
    Ok(count)
}
