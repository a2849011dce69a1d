//! A disk is made to stand for a device with an identity.
ghost use Rattle.std.specs.Prelude.{◌≡◌};
ghost use Rattle.sz_base.specs.Identity.{IsWhole};
ghost use Rattle.sz_device.specs.DeviceMade.{DeviceMade};
ghost use Rattle.sz_device.specs.View.{answer_of};

use crate::sizes::check_size;
use crate::state_failure::failure_from;
use std::alloc::Global;
use sz_base::{Identity, Serial};
use sz_commands::Failure;
use sz_disk::Disk;

/// Makes a fresh disk stand for a device with this identity as it is made, and gives its serial number. The disk's size
/// is looked at first.
pub(crate) fn make_device<'a, D: Disk>(
    alloc: Global,
    identity: Identity,
    disk: &mut D,
) -> Result<Serial, Failure<'a>>
    requires { IsWhole identity }
    ensures { DeviceMade D.seen identity disk.old disk.new (answer_of result) }
{
    check_size(disk)?;
    match sz_state::init(alloc, disk, &identity) {
        Ok(()) => Ok(serial_of(identity)),
        Err(fault) => Err(failure_from(fault)),
    }
}

// The serial number of an identity.
fn serial_of(identity: Identity) -> Serial
    ensures { result ≡ identity.serial }
{
    let Identity {
        serial,
        anchors: _,
        os_name: _,
        os_version: _,
    } = identity;
    serial
}
