//! The failures of commands that a signer's faults are.
ghost use Rattle.std.specs.Prelude.{◌≡◌};
ghost use Rattle.sz_commands.specs.View.{failure_of};
ghost use Rattle.sz_keys.specs.SignerFailure.{failure_from};

use sz_commands::Failure;
use sz_signer::SignFault;

/// The failure of a command that a signer's fault is.
pub(crate) fn failure_from<'a>(fault: SignFault) -> Failure<'a>
    ensures { failure_of result ≡ failure_from fault }
{
    match fault {
        SignFault::Failed => Failure::DiskFault,
        SignFault::Exhausted { next, end } => Failure::Exhausted { next, end },
        SignFault::OutOfMemory => Failure::OutOfMemory,
        SignFault::NotFormatted => Failure::NotInitialised,
        SignFault::Damaged {
            slot,
            sequence: _,
            length,
        } => Failure::Damaged {
            place: u64::from(slot),
            value: u64::from(length),
        },
        SignFault::InUse => Failure::InUse,
        SignFault::EntropyFault => Failure::EntropyFault,
        SignFault::CellExhausted { sequence: _ } => Failure::LastSequence,
        SignFault::TooSmall { size } => Failure::SizeRefused(size),
        SignFault::BadKey { place, value } => Failure::Damaged {
            place: u64::from(place),
            value: u64::from(value),
        },
    }
}
