//! The command `init IDENTITY @DISK`, which makes a fresh disk stand for a device with an identity.
ghost use Rattle.std.specs.Prelude.{◌==◌};
ghost use Rattle.sz_commands.specs.Ending.{output_fault};
ghost use Rattle.sz_commands.specs.Objects.{folder_seen};
ghost use Rattle.sz_commands.specs.Printed.{IsPrinted};
ghost use Rattle.sz_device.specs.DoneLine.{init_text, status_of};
ghost use Rattle.sz_device.specs.InitRan.{InitRan};
ghost use Rattle.sz_device.specs.View.{answer_of, init_seen, init_words};
ghost use Rattle.sz_spec.specs.Cause.{HasCause};

use crate::identity_file::identity_at;
use crate::making::make_device;
use std::alloc::Global;
use sz_base::{Serial, Text};
use sz_commands::{Ending, Failure, Status, say, say_failure};
use sz_disk::{Disk, Disks};
use sz_io::{Folder, Sink};

/// The words of an init.
#[derive(Drop)]
pub struct InitWords {
    /// The path of the identity file.
    pub identity: Text,
    /// The word of the disk.
    pub disk: Text,
}

/// Makes the disk under the word stand for a device with the identity of the file, as it is made. Gives its serial
/// number. IDENTITY is looked at first, then whether there is such a disk, then the disk's size, and then whether it is
/// in use: a disk in use stays as it is.
pub fn init<'a, D: Disk, F: Folder>(
    alloc: Global,
    words: &'a InitWords,
    disks: &mut Disks<D>,
    folder: &mut F,
) -> Result<Serial, Failure<'a>>
    ensures { InitRan D.seen (init_words words.now)
        (init_seen disks.old (folder_seen (F.faults folder.old) (F.files folder.old)))
        (init_seen disks.new (folder_seen (F.faults folder.new) (F.files folder.new)))
        (answer_of result) }
{
    let identity = identity_at(alloc, &words.identity, folder)?;
    let Some(disk) = disks.find(words.disk.as_slice()) else {
        return Err(Failure::NoFile(&words.disk));
    };
    make_device(alloc, identity, disk)
}

/// Prints the line of what an init came to, and gives the status.
pub fn say_initialised<O: Sink>(answer: Result<Serial, Failure<'_>>, out: &mut O) -> Status
    ensures printed { IsPrinted (status_of (answer_of answer.entry)) (init_text (answer_of answer.entry)) result.0
        (O.written out.old) (O.written out.new) }
    ensures cause { HasCause (O.faults out.old) (O.faults out.new) (result.0 == output_fault) }
{
    match answer {
        Ok(serial) => say(Ending::Done, b"initialised ", serial.as_slice(), out),
        Err(failure) => say_failure(failure, out),
    }
}
