//! Why a reply or a request is refused.

ghost use Rattle.std.specs.Prelude.{◌≡◌};
ghost use Rattle.sz_rest.specs.declared.fault.AskFault.TheVariants.{OutOfMemory as ask_memory};
ghost use Rattle.sz_rest.specs.declared.fault.RestFault.TheVariants.{OutOfMemory as rest_memory};

use sz_base::OutOfMemory;
use sz_json::{JsonFault, Name};

/// Why a reply gives no evidence.
#[derive(Clone, Copy, Debug, PartialEq, Eq)]
pub enum RestFault {
    /// The status is not 200.
    Status { code: u16 },
    /// The member of this name is missing or of the wrong form; `Json` where the body is no JSON.
    Member { name: Name },
    /// An artifact has more than `limit` bytes.
    TooLarge { limit: u64 },
    /// Memory ran out.
    OutOfMemory,
}

impl From<OutOfMemory> for RestFault {
    ghost from_gives = { λ _ e. e ≡ rest_memory };

    fn from(_: OutOfMemory) -> Self {
        RestFault::OutOfMemory
    }
}

impl From<JsonFault> for RestFault {
    ghost use Rattle.sz_rest.specs.Fault.{of_json};

    ghost from_gives = { λ fault e. e ≡ of_json fault };

    fn from(fault: JsonFault) -> Self {
        match fault {
            JsonFault::Member { name } => RestFault::Member { name },
            JsonFault::OutOfMemory => RestFault::OutOfMemory,
        }
    }
}

/// Why a request is not answered with what it asks for.
#[derive(Clone, Copy, Debug, PartialEq, Eq)]
pub enum AskFault {
    /// It is to be refused with this status.
    Refused { status: u16 },
    /// Memory ran out.
    OutOfMemory,
}

impl From<OutOfMemory> for AskFault {
    ghost from_gives = { λ _ e. e ≡ ask_memory };

    fn from(_: OutOfMemory) -> Self {
        AskFault::OutOfMemory
    }
}
