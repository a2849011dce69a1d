//! Why a call of a signer is refused.

ghost use Rattle.std.specs.Prelude.{◌≡◌};
ghost use Rattle.sz_signer.specs.Fault.{of_attach, of_clear, of_format, of_key};
ghost use Rattle.sz_signer.specs.declared.fault.SignFault.TheVariants.{Failed as failed, OutOfMemory as no_memory};

use std::alloc::AllocError;
use sz_base::{Failed, OutOfMemory};
use sz_cell::{AttachFault, ClearFault, FormatFault};
use sz_hss::BadKey;

/// Why a call of a signer is refused.
#[derive(Clone, Copy, Debug, PartialEq, Eq)]
pub enum SignFault {
    /// The disk failed.
    Failed,
    /// As many leaf numbers are not left: this is the next one, and this the first that there is not.
    Exhausted {
        next: u64,
        end: u64,
    },
    /// Memory ran out.
    OutOfMemory,
    /// The disk has no key.
    NotFormatted,
    /// The disk's cell is damaged, at its first slot that is at fault.
    Damaged {
        slot: u8,
        sequence: u64,
        length: u32,
    },
    /// The disk is in use: a gate of its cell is open.
    InUse,
    /// The source of random bytes failed.
    EntropyFault,
    /// The cell had its last value.
    CellExhausted {
        sequence: u64,
    },
    /// The disk is too small for a key.
    TooSmall {
        size: u64,
    },
    /// The disk's value is no stored key: its first wrong byte stands at this place, and is this one, or 0 at the end.
    BadKey {
        place: u32,
        value: u8,
    },
}

impl From<Failed> for SignFault {
    ghost from_gives = { λ _ e. e ≡ failed };

    fn from(_: Failed) -> Self {
        SignFault::Failed
    }
}

impl From<AllocError> for SignFault {
    ghost from_gives = { λ _ e. e ≡ no_memory };

    fn from(_: AllocError) -> Self {
        SignFault::OutOfMemory
    }
}

impl From<OutOfMemory> for SignFault {
    ghost from_gives = { λ _ e. e ≡ no_memory };

    fn from(_: OutOfMemory) -> Self {
        SignFault::OutOfMemory
    }
}

impl From<BadKey> for SignFault {
    ghost from_gives = { λ bad e. e ≡ of_key bad };

    fn from(bad: BadKey) -> Self {
        SignFault::BadKey {
            place: bad.place,
            value: bad.value,
        }
    }
}

impl From<FormatFault> for SignFault {
    ghost from_gives = { λ fault e. e ≡ of_format fault };

    fn from(fault: FormatFault) -> Self {
        match fault {
            FormatFault::Failed => SignFault::Failed,
            FormatFault::InUse { slot: _ } => SignFault::InUse,
        }
    }
}

impl From<AttachFault> for SignFault {
    ghost from_gives = { λ fault e. e ≡ of_attach fault };

    fn from(fault: AttachFault) -> Self {
        match fault {
            AttachFault::Failed => SignFault::Failed,
            AttachFault::NotFormatted => SignFault::NotFormatted,
            AttachFault::Damaged {
                slot,
                sequence,
                length,
            } => SignFault::Damaged {
                slot,
                sequence,
                length,
            },
        }
    }
}

impl From<ClearFault> for SignFault {
    ghost from_gives = { λ fault e. e ≡ of_clear fault };

    fn from(fault: ClearFault) -> Self {
        match fault {
            ClearFault::Failed => SignFault::Failed,
            ClearFault::Exhausted { sequence } => SignFault::CellExhausted { sequence },
        }
    }
}
