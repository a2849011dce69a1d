//! The faults that every crate shares.

ghost use Rattle.std.specs.Prelude.{◌≡◌};
ghost use Rattle.sz_base.specs.declared.fault.BaseFault.TheVariants.{OutOfMemory as base_memory};
ghost use Rattle.sz_base.specs.declared.fault.PutFault.TheVariants.{OutOfMemory as put_memory};

use std::alloc::{AllocError, AllocFailed};

/// An object of the outside refused a call, and counted that as one of its faults.
#[derive(Clone, Copy, Debug, PartialEq, Eq)]
pub struct Failed;

/// Memory ran out.
#[derive(Clone, Copy, Debug, PartialEq, Eq)]
pub struct OutOfMemory;

impl From<AllocError> for OutOfMemory {
    fn from(_: AllocError) -> Self {
        OutOfMemory
    }
}

impl<T: Drop> From<AllocFailed<T>> for OutOfMemory {
    fn from(_: AllocFailed<T>) -> Self {
        OutOfMemory
    }
}

/// Why an object of the outside did not take what was handed to it.
#[derive(Clone, Copy, Debug, PartialEq, Eq)]
pub enum PutFault {
    /// The object refused, and counted that as one of its faults.
    Failed,
    /// Memory ran out.
    OutOfMemory,
}

impl From<OutOfMemory> for PutFault {
    ghost from_gives = { λ _ e. e ≡ put_memory };

    fn from(_: OutOfMemory) -> Self {
        PutFault::OutOfMemory
    }
}

/// Why a text was not read.
#[derive(Clone, Copy, Debug, PartialEq, Eq)]
pub enum BaseFault {
    /// The text is not in its form.
    Form,
    /// Memory ran out.
    OutOfMemory,
}

impl From<OutOfMemory> for BaseFault {
    ghost from_gives = { λ _ e. e ≡ base_memory };

    fn from(_: OutOfMemory) -> Self {
        BaseFault::OutOfMemory
    }
}
