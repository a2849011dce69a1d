//! A message is signed with the key on a disk, and its signature written to a file.
ghost use Rattle.std.specs.Prelude.{◌≡◌, IfOk, IfErr};
ghost use Rattle.sz_commands.specs.Objects.{folder_seen};
ghost use Rattle.sz_commands.specs.View.{failure_of, faults_folder};
ghost use Rattle.sz_keys.specs.SignRan.{IsMessage, IsUnsigned, Signed};
ghost use Rattle.sz_keys.specs.View.{made_of};
ghost use Rattle.sz_spec.specs.Cause.{HasCause};

use crate::spending::sign_with_next;
use std::alloc::Global;
use std::thread::Threads;
use sz_base::{Bytes, Failed, PutFault, Text};
use sz_commands::Failure;
use sz_disk::Disk;
use sz_io::{Folder, Found, read_whole};
use sz_lms_tree::Gate;

/// The most bytes of a file that is signed: 16 MiB.
const MOST_BYTES: u64 = 16_777_216;

/// The bytes of the file to sign. One that is too large is refused by its length, before memory is taken for it.
pub(crate) fn read_message<'a, F: Folder>(
    alloc: Global,
    path: &'a Text,
    folder: &mut F,
) -> Result<Bytes, Failure<'a>>
    ensures message { IfOk result (IsMessage (F.files folder.old) path.now) }
    ensures unsigned { IfErr result (λ failure. IsUnsigned path.now (F.files folder.old) (failure_of failure)) }
    ensures unchanged { F.files folder.new ≡ F.files folder.old }
    ensures cause { HasCause (F.faults folder.old) (F.faults folder.new) (faults_folder result) }
{
    match read_whole(alloc, folder, path, MOST_BYTES) {
        Ok(Found::Whole(bytes)) => Ok(bytes),
        Ok(Found::Absent) => Err(Failure::NoFile(path)),
        Ok(Found::Larger { length }) => Err(Failure::TooLarge(length)),
        Ok(Found::OutOfMemory) => Err(Failure::OutOfMemory),
        Err(Failed) => Err(Failure::FileFault(path)),
    }
}

/// Signs the message with the next leaf number of the key on the disk, and writes the signature to the file. Gives the
/// leaf number. The file is written only once the disk says that the number is spent.
pub(crate) fn sign_to_file<'a, R: Threads + Sync, G: Gate + Sync, D: Disk, F: Folder>(
    rt: &R,
    gate: &G,
    alloc: Global,
    message: &[u8],
    path: &'a Text,
    disk: &mut D,
    folder: &mut F,
) -> Result<u64, Failure<'a>>
    ensures { Signed D.seen message.now path.now disk.old disk.new
        (folder_seen (F.faults folder.old) (F.files folder.old))
        (folder_seen (F.faults folder.new) (F.files folder.new)) (made_of result) }
{
    let (leaf, signature) = sign_with_next(rt, gate, alloc, message, disk)?;
    match folder.write(path, signature.as_slice()) {
        Ok(()) => Ok(leaf),
        Err(PutFault::Failed) => Err(Failure::FileFault(path)),
        Err(PutFault::OutOfMemory) => Err(Failure::OutOfMemory),
    }
}
