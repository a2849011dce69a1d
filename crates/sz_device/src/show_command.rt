//! The command `show @DISK`, which prints the device of a disk.
ghost use Rattle.std.specs.Prelude.{◌==◌};
ghost use Rattle.sz_commands.specs.Ending.{output_fault};
ghost use Rattle.sz_commands.specs.Printed.{IsPrinted};
ghost use Rattle.sz_device.specs.DoneLine.{show_lines, status_of};
ghost use Rattle.sz_device.specs.ShowRan.{ShowRan};
ghost use Rattle.sz_device.specs.View.{answer_of};
ghost use Rattle.sz_spec.specs.Cause.{HasCause};

use crate::looking::look_and_show;
use std::alloc::Global;
use sz_base::{Bytes, Text};
use sz_commands::{Ending, Failure, Status, say_failure, say_text};
use sz_disk::{Disk, Disks};
use sz_io::Sink;

/// The lines that show the device of the disk under the word. Nothing is written.
pub fn show<'a, D: Disk>(
    alloc: Global,
    word: &'a Text,
    disks: &mut Disks<D>,
) -> Result<Bytes, Failure<'a>>
    ensures { ShowRan D.seen word.now disks.old disks.new (answer_of result) }
{
    let Some(disk) = disks.find(word.as_slice()) else {
        return Err(Failure::NoFile(word));
    };
    look_and_show(alloc, disk)
}

/// Prints the text of what a show came to, and gives the status.
pub fn say_shown<O: Sink>(answer: Result<Bytes, Failure<'_>>, out: &mut O) -> Status
    ensures printed { IsPrinted (status_of (answer_of answer.entry)) (show_lines (answer_of answer.entry)) result.0
        (O.written out.old) (O.written out.new) }
    ensures cause { HasCause (O.faults out.old) (O.faults out.new) (result.0 == output_fault) }
{
    match answer {
        Ok(lines) => say_text(Ending::Done, lines.as_slice(), out),
        Err(failure) => say_failure(failure, out),
    }
}
