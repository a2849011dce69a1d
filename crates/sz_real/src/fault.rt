//! The one place where an error of the runtime is counted.
ghost use Rattle.std.specs.Prelude.{◌≡◌, ◌↔◌, MatchResult, Ok, Err, IsOk, IsErr, IsErrOf, IsErrAnd, is_err, true};
ghost use Rattle.std.specs.IoError.{error_kind};
ghost use Rattle.sz_base.specs.Fault.{put_failed};
ghost use Rattle.sz_spec.specs.Cause.{HasCause};

use std::io::{self, ErrorKind};
use sz_base::{Failed, PutFault};

/// The runtime's answer, where each of its errors is one more fault.
pub(crate) fn counted<T>(faults: &mut u64, answer: io::Result<T>) -> Result<T, Failed>
    ensures answer { MatchResult answer (λ value. result ≡ Ok value) (λ _. IsErr result) }
    ensures cause { HasCause faults.old faults.new (is_err result) }
{
    match answer {
        Ok(value) => Ok(value),
        Err(_) => {
            count_fault(faults);
            Err(Failed)
        }
    }
}

/// The same for a call that may also want memory, which is no fault.
pub(crate) fn put_counted(faults: &mut u64, answer: io::Result<()>) -> Result<(), PutFault>
    ensures ok { IsOk result ↔ IsOk answer }
    ensures memory { IsErrOf result PutFault.OutOfMemory
        ↔ IsErrAnd answer (λ error. error_kind error ≡ ErrorKind.OutOfMemory) }
    ensures cause { HasCause faults.old faults.new (put_failed result) }
{
    match answer {
        Ok(()) => Ok(()),
        Err(error) if error.kind() == ErrorKind::OutOfMemory => Err(PutFault::OutOfMemory),
        Err(_) => {
            count_fault(faults);
            Err(PutFault::Failed)
        }
    }
}

// One more fault. The count stands still at the greatest u64.
fn count_fault(faults: &mut u64)
    ensures { HasCause faults.old faults.new true }
{
    *faults = faults.saturating_add(1);
}
