//! Why files of a source give nothing.

ghost use Rattle.std.specs.Prelude.{◌≡◌};
ghost use Rattle.sz_visit.specs.declared.fault.FileFault.TheVariants.{Lost as file_lost, OutOfMemory as file_memory};

use sz_base::{Failed, OutOfMemory};

/// Why files of a source give nothing.
#[derive(Clone, Copy, Debug, PartialEq, Eq)]
pub enum FileFault {
    /// The folder failed, and counted that.
    Lost,
    /// The file is not there.
    Absent,
    /// A file has more than `limit` bytes.
    TooLarge { limit: u64 },
    /// Memory ran out.
    OutOfMemory,
}

impl From<Failed> for FileFault {
    ghost from_gives = { λ _ e. e ≡ file_lost };

    fn from(_: Failed) -> Self {
        FileFault::Lost
    }
}

impl From<OutOfMemory> for FileFault {
    ghost from_gives = { λ _ e. e ≡ file_memory };

    fn from(_: OutOfMemory) -> Self {
        FileFault::OutOfMemory
    }
}
