//! The device of a disk is looked at, and nothing is written.
ghost use Rattle.sz_device.specs.Looked.{Looks};
ghost use Rattle.sz_device.specs.ShowRan.{Shows};
ghost use Rattle.sz_device.specs.View.{answer_of};
ghost use Rattle.sz_audit.specs.Audit.{Audits};

use crate::device_text::device_lines;
use crate::sizes::check_size;
use crate::state_failure::failure_from;
use std::alloc::Global;
use sz_audit::Audit;
use sz_base::Bytes;
use sz_commands::Failure;
use sz_disk::Disk;
use sz_record::payloads_have_one_reading;
use sz_state::attach;

/// The lines that show the device of the disk.
pub(crate) fn look_and_show<'a, D: Disk>(alloc: Global, disk: &mut D) -> Result<Bytes, Failure<'a>>
    ensures { Looks D.seen Shows disk.old disk.new (answer_of result) }
{
    payloads_have_one_reading();
    check_size(disk)?;
    let held = match attach(alloc, disk) {
        Ok(held) => held,
        Err(fault) => return Err(failure_from(fault)),
    };
    match device_lines(alloc, &held.device) {
        Ok(lines) => Ok(lines),
        Err(_) => Err(Failure::OutOfMemory),
    }
}

/// What an audit finds of the device of the disk.
pub(crate) fn look_and_audit<'a, D: Disk>(alloc: Global, disk: &mut D) -> Result<Audit, Failure<'a>>
    ensures { Looks D.seen Audits disk.old disk.new (answer_of result) }
{
    payloads_have_one_reading();
    check_size(disk)?;
    match sz_audit::audit(alloc, disk) {
        Ok(audit) => Ok(audit),
        Err(fault) => Err(failure_from(fault)),
    }
}
