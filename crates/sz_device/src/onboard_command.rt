//! The command `onboard @DISK SOURCE ..`, which boots the device of a disk once over its sources.
ghost use Rattle.std.specs.Prelude.{◌==◌};
ghost use Rattle.sz_commands.specs.Ending.{output_fault};
ghost use Rattle.sz_commands.specs.Objects.{clock_seen, entropy_seen, folder_seen, net_seen};
ghost use Rattle.sz_commands.specs.Printed.{IsPrinted};
ghost use Rattle.sz_device.specs.OnboardRan.{OnboardRan};
ghost use Rattle.sz_device.specs.OnboardText.{status_of, text_of};
ghost use Rattle.sz_device.specs.View.{answer_of, beside, onboard_seen, onboard_words};
ghost use Rattle.sz_spec.specs.Cause.{HasCause};

use crate::booting::boot_device;
use crate::report_text::say_report;
use crate::sources::read_sources;
use std::alloc::Global;
use sz_agent::Report;
use sz_base::{BaseFault, Text, Texts};
use sz_commands::{Failure, Status, say_failure};
use sz_disk::{Disk, Disks};
use sz_io::{Clock, Entropy, Folder, Net, Sink};

/// The words of an onboard.
#[derive(Drop)]
pub struct OnboardWords {
    /// The word of the disk.
    pub disk: Text,
    /// The words of the sources.
    pub sources: Texts,
}

/// Boots the device of the disk under the word once, over the sources. Gives the report of the boot. The sources are
/// looked at first, then whether there is such a disk; then the clock is read, and then the disk is looked at.
pub fn onboard<'a, D: Disk, F: Folder, N: Net, C: Clock, E: Entropy>(
    alloc: Global,
    words: &'a OnboardWords,
    disks: &mut Disks<D>,
    folder: &mut F,
    net: &mut N,
    clock: &mut C,
    entropy: &mut E,
) -> Result<Report, Failure<'a>>
    ensures { OnboardRan D.seen (onboard_words words.now)
        (onboard_seen disks.old (beside (folder_seen (F.faults folder.old) (F.files folder.old))
        (net_seen (N.faults net.old) (N.traffic net.old))
        (clock_seen (C.faults clock.old) (C.answers clock.old))
        (entropy_seen (E.faults entropy.old) (E.bytes entropy.old))))
        (onboard_seen disks.new (beside (folder_seen (F.faults folder.new) (F.files folder.new))
        (net_seen (N.faults net.new) (N.traffic net.new))
        (clock_seen (C.faults clock.new) (C.answers clock.new))
        (entropy_seen (E.faults entropy.new) (E.bytes entropy.new))))
        (answer_of result) }
{
    let sources = match read_sources(alloc, &words.disk, words.sources.as_slice()) {
        Ok(sources) => sources,
        Err(BaseFault::Form) => return Err(Failure::Usage),
        Err(BaseFault::OutOfMemory) => return Err(Failure::OutOfMemory),
    };
    let Some(disk) = disks.find(words.disk.as_slice()) else {
        return Err(Failure::NoFile(&words.disk));
    };
    boot_device(alloc, sources, disk, folder, net, clock, entropy)
}

/// Prints what an onboard came to, once the boot has ended: a line for each visit and then that of the outcome. Gives
/// the status. No memory is taken.
pub fn say_onboarded<O: Sink>(answer: Result<Report, Failure<'_>>, out: &mut O) -> Status
    ensures printed { IsPrinted (status_of (answer_of answer.entry)) (text_of (answer_of answer.entry)) result.0
        (O.written out.old) (O.written out.new) }
    ensures cause { HasCause (O.faults out.old) (O.faults out.new) (result.0 == output_fault) }
{
    match answer {
        Ok(report) => say_report(&report, out),
        Err(failure) => say_failure(failure, out),
    }
}
