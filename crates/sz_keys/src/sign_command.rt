//! The command `sign FILE SIGNATURE @KEY`, which signs a file with the next leaf number of the key on a disk.
ghost use Rattle.std.specs.Prelude.{◌==◌};
ghost use Rattle.sz_commands.specs.Ending.{output_fault};
ghost use Rattle.sz_commands.specs.Objects.{folder_seen};
ghost use Rattle.sz_commands.specs.Printed.{IsPrinted};
ghost use Rattle.sz_keys.specs.KeyLine.{sign_text, status_of};
ghost use Rattle.sz_keys.specs.SignRan.{SignRan};
ghost use Rattle.sz_keys.specs.View.{made_of, sign_seen, sign_words};
ghost use Rattle.sz_spec.specs.Cause.{HasCause};

use crate::signing::{read_message, sign_to_file};
use std::alloc::Global;
use std::thread::Threads;
use sz_base::Text;
use sz_commands::{Ending, Failure, Status, say_failure, say_number};
use sz_disk::{Disk, Disks};
use sz_io::{Folder, Sink};
use sz_lms_tree::Gate;

/// The words of a sign.
#[derive(Drop)]
pub struct SignWords {
    /// The path of the file to sign.
    pub file: Text,
    /// The path of the signature.
    pub signature: Text,
    /// The word of the disk.
    pub key: Text,
}

/// Signs the file with the next leaf number of the key on the disk under the word, and writes the signature to its
/// file. Gives the leaf number. FILE is looked at first, then whether there is such a disk, then the key; then the
/// number is spent, and then the signature is written. Where that fails, the number is spent nevertheless.
pub fn sign<'a, R: Threads + Sync, G: Gate + Sync, D: Disk, F: Folder>(
    rt: &R,
    gate: &G,
    alloc: Global,
    words: &'a SignWords,
    disks: &mut Disks<D>,
    folder: &mut F,
) -> Result<u64, Failure<'a>>
    ensures { SignRan D.seen (sign_words words.now)
        (sign_seen disks.old (folder_seen (F.faults folder.old) (F.files folder.old)))
        (sign_seen disks.new (folder_seen (F.faults folder.new) (F.files folder.new)))
        (made_of result) }
{
    let message = read_message(alloc, &words.file, folder)?;
    let Some(disk) = disks.find(words.key.as_slice()) else {
        return Err(Failure::NoFile(&words.key));
    };
    sign_to_file(
        rt,
        gate,
        alloc,
        message.as_slice(),
        &words.signature,
        disk,
        folder,
    )
}

/// Prints the line of what a sign came to, and gives the status.
pub fn say_signed<O: Sink>(answer: Result<u64, Failure<'_>>, out: &mut O) -> Status
    ensures printed { IsPrinted (status_of (made_of answer.entry)) (sign_text (made_of answer.entry)) result.0
        (O.written out.old) (O.written out.new) }
    ensures cause { HasCause (O.faults out.old) (O.faults out.new) (result.0 == output_fault) }
{
    match answer {
        Ok(leaf) => say_number(Ending::Done, b"leaf ", leaf, out),
        Err(failure) => say_failure(failure, out),
    }
}
