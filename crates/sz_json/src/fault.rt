//! Why a JSON text or a member is refused.

ghost use Rattle.std.specs.Prelude.{◌≡◌};
ghost use Rattle.sz_json.specs.declared.fault.JsonFault.TheVariants.{OutOfMemory as json_memory};

use crate::Name;
use std::alloc::AllocError;
use sz_base::OutOfMemory;

/// Why a text or a member is refused.
#[derive(Clone, Copy, Debug, PartialEq, Eq)]
pub enum JsonFault {
    /// The member of this name is missing or of the wrong form; `Json` where the text is no JSON.
    Member { name: Name },
    /// Memory ran out.
    OutOfMemory,
}

impl From<OutOfMemory> for JsonFault {
    ghost from_gives = { λ _ e. e ≡ json_memory };

    fn from(_: OutOfMemory) -> Self {
        JsonFault::OutOfMemory
    }
}

impl From<AllocError> for JsonFault {
    ghost from_gives = { λ _ e. e ≡ json_memory };

    fn from(_: AllocError) -> Self {
        JsonFault::OutOfMemory
    }
}
