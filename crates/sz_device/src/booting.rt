//! The device of a disk is booted once.
ghost use Rattle.std.specs.Prelude.{◌≤◌, length};
ghost use Rattle.sz_commands.specs.Objects.{clock_seen, entropy_seen, folder_seen, net_seen};
ghost use Rattle.sz_device.specs.Booted.{Booted};
ghost use Rattle.sz_source.specs.Source.{most_sources};
ghost use Rattle.sz_device.specs.View.{answer_of, beside};

use crate::sizes::check_size;
use std::alloc::Global;
use sz_agent::{Report, boot};
use sz_commands::Failure;
use sz_disk::Disk;
use sz_io::{Clock, Entropy, Folder, Net};
use sz_source::Sources;

/// Boots the device of the disk once, at the time that the clock tells. The clock is read once, and before the disk is
/// looked at.
pub(crate) fn boot_device<'a, D: Disk, F: Folder, N: Net, C: Clock, E: Entropy>(
    alloc: Global,
    sources: Sources,
    disk: &mut D,
    folder: &mut F,
    net: &mut N,
    clock: &mut C,
    entropy: &mut E,
) -> Result<Report, Failure<'a>>
    requires { length sources ≤ most_sources }
    ensures { Booted D.seen sources disk.old disk.new
        (beside (folder_seen (F.faults folder.old) (F.files folder.old))
        (net_seen (N.faults net.old) (N.traffic net.old))
        (clock_seen (C.faults clock.old) (C.answers clock.old))
        (entropy_seen (E.faults entropy.old) (E.bytes entropy.old)))
        (beside (folder_seen (F.faults folder.new) (F.files folder.new))
        (net_seen (N.faults net.new) (N.traffic net.new))
        (clock_seen (C.faults clock.new) (C.answers clock.new))
        (entropy_seen (E.faults entropy.new) (E.bytes entropy.new)))
        (answer_of result) }
{
    let Ok(time) = clock.now() else {
        return Err(Failure::ClockFault);
    };
    check_size(disk)?;
    Ok(boot(alloc, disk, folder, net, entropy, sources, time))
}
