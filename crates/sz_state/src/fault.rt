//! Why a call on a device's disk is refused.

ghost use Rattle.std.specs.Prelude.{◌≡◌};
ghost use Rattle.sz_state.specs.Fault.{of_attach, of_clear, of_format};
ghost use Rattle.sz_state.specs.declared.fault.StateFault.TheVariants.{Failed as state_fault, OutOfMemory as state_memory};

use sz_base::{Failed, OutOfMemory};
use sz_cell::{AttachFault, ClearFault, FormatFault};

/// Why a call on a device's disk is refused.
#[derive(Clone, Copy, Debug, PartialEq, Eq)]
pub enum StateFault {
    /// The disk failed.
    Failed,
    /// No gate of the cell is open.
    NotInitialised,
    /// This open slot is damaged.
    Damaged {
        slot: u8,
        sequence: u64,
        length: u32,
    },
    /// The record's first wrong byte stands at this place of the payload, and this is it, or 0 at the end.
    BadRecord {
        place: u32,
        value: u8,
    },
    /// The gate of this slot is open.
    InUse {
        slot: u8,
    },
    /// This sequence is the last.
    Exhausted {
        sequence: u64,
    },
    /// Memory ran out.
    OutOfMemory,
    /// The record has this many bytes, which do not fit.
    TooLarge {
        size: u64,
    },
}

impl From<Failed> for StateFault {
    ghost from_gives = { λ _ e. e ≡ state_fault };

    fn from(_: Failed) -> Self {
        StateFault::Failed
    }
}

impl From<OutOfMemory> for StateFault {
    ghost from_gives = { λ _ e. e ≡ state_memory };

    fn from(_: OutOfMemory) -> Self {
        StateFault::OutOfMemory
    }
}

impl From<AttachFault> for StateFault {
    ghost from_gives = { λ fault e. e ≡ of_attach fault };

    fn from(fault: AttachFault) -> Self {
        match fault {
            AttachFault::Failed => StateFault::Failed,
            AttachFault::NotFormatted => StateFault::NotInitialised,
            AttachFault::Damaged {
                slot,
                sequence,
                length,
            } => StateFault::Damaged {
                slot,
                sequence,
                length,
            },
        }
    }
}

impl From<FormatFault> for StateFault {
    ghost from_gives = { λ fault e. e ≡ of_format fault };

    fn from(fault: FormatFault) -> Self {
        match fault {
            FormatFault::Failed => StateFault::Failed,
            FormatFault::InUse { slot } => StateFault::InUse { slot },
        }
    }
}

impl From<ClearFault> for StateFault {
    ghost from_gives = { λ fault e. e ≡ of_clear fault };

    fn from(fault: ClearFault) -> Self {
        match fault {
            ClearFault::Failed => StateFault::Failed,
            ClearFault::Exhausted { sequence } => StateFault::Exhausted { sequence },
        }
    }
}
