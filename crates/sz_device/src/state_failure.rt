//! The failures of commands that the refusals of a device's disk are.
ghost use Rattle.std.specs.Prelude.{◌≡◌};
ghost use Rattle.sz_commands.specs.View.{failure_of};
ghost use Rattle.sz_device.specs.StateFailure.{failure_from};

use sz_commands::Failure;
use sz_state::StateFault;

/// The failure of a command that a refusal of a device's disk is.
pub(crate) fn failure_from<'a>(fault: StateFault) -> Failure<'a>
    ensures { failure_of result ≡ failure_from fault }
{
    match fault {
        StateFault::Failed => Failure::DiskFault,
        StateFault::NotInitialised => Failure::NotInitialised,
        StateFault::Damaged {
            slot,
            sequence: _,
            length,
        } => Failure::Damaged {
            place: u64::from(slot),
            value: u64::from(length),
        },
        StateFault::BadRecord { place, value } => Failure::Damaged {
            place: u64::from(place),
            value: u64::from(value),
        },
        StateFault::InUse { slot } => Failure::SlotInUse(slot),
        StateFault::Exhausted { sequence: _ } => Failure::LastSequence,
        StateFault::OutOfMemory => Failure::OutOfMemory,
        StateFault::TooLarge { size } => Failure::TooLarge(size),
    }
}
