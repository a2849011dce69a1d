//! Why a payload is refused.

ghost use Rattle.std.specs.Prelude.{◌≡◌};
ghost use Rattle.sz_record.specs.declared.fault.RecordFault.TheVariants.{OutOfMemory as record_memory};

use sz_base::OutOfMemory;

/// Why a payload is refused.
#[derive(Clone, Copy, Debug, PartialEq, Eq)]
pub enum RecordFault {
    /// The first wrong byte stands at this place, counted from 0, and this is it, or 0 at the end of the payload.
    BadRecord { place: usize, value: u8 },
    /// Memory ran out.
    OutOfMemory,
}

impl From<OutOfMemory> for RecordFault {
    ghost from_gives = { λ _ e. e ≡ record_memory };

    fn from(_: OutOfMemory) -> Self {
        RecordFault::OutOfMemory
    }
}
