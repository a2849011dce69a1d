//! What a refusal of a call on the device's disk becomes.

ghost use Rattle.sz_agent.specs.Ending.{EndsFor, IsBootFault};

use crate::Outcome;
use sz_state::StateFault;

/// The outcome of a boot that ends for this refusal, which is one of those that `attach`, `install` and `onboard`
/// answer.
pub(crate) fn outcome_of(fault: StateFault) -> Outcome
    requires { IsBootFault fault }
    ensures { EndsFor fault result }
{
    match fault {
        StateFault::Failed => Outcome::DiskFault,
        StateFault::NotInitialised => Outcome::NotInitialised,
        StateFault::Damaged {
            slot,
            sequence,
            length,
        } => Outcome::Damaged {
            slot,
            sequence,
            length,
        },
        StateFault::BadRecord { place, value } => Outcome::BadRecord { place, value },
        StateFault::Exhausted { sequence } => Outcome::Exhausted { sequence },
        StateFault::OutOfMemory => Outcome::OutOfMemory,
        StateFault::InUse { .. } | StateFault::TooLarge { .. } => unreachable!(),
    }
}
