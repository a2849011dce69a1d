//! Why a server gives no evidence.

ghost use Rattle.std.specs.Prelude.{◌≡◌};
ghost use Rattle.sz_ask.specs.declared.fault.ServerFault.TheVariants.{OutOfMemory as server_memory};

use sz_base::OutOfMemory;
use sz_http::HttpFault;
use sz_json::Name;
use sz_rest::RestFault;

/// Why a server gives no evidence.
#[derive(Clone, Copy, Debug, PartialEq, Eq)]
pub enum ServerFault {
    /// The exchange was lost: the network failed, and counted that.
    Lost,
    /// The reply ended before its end was told.
    EndedEarly,
    /// The reply is no HTTP message.
    BadHttp,
    /// The reply has a coding that is not read.
    Coding,
    /// The reply, a part of it or an artifact in it has more than `limit` bytes.
    TooLarge { limit: u64 },
    /// The reply has a status other than 200.
    Status { code: u16 },
    /// The member of this name is missing or of the wrong form; `Json` where the body is no JSON.
    Member { name: Name },
    /// Memory ran out.
    OutOfMemory,
}

impl From<OutOfMemory> for ServerFault {
    ghost from_gives = { λ _ e. e ≡ server_memory };

    fn from(_: OutOfMemory) -> Self {
        ServerFault::OutOfMemory
    }
}

impl From<HttpFault> for ServerFault {
    ghost use Rattle.sz_ask.specs.Reply.{of_http};

    ghost from_gives = { λ fault e. e ≡ of_http fault };

    fn from(fault: HttpFault) -> Self {
        match fault {
            HttpFault::BadHead | HttpFault::BadChunk => ServerFault::BadHttp,
            HttpFault::TooLarge { limit } => ServerFault::TooLarge { limit },
            HttpFault::Coding => ServerFault::Coding,
            HttpFault::EndedEarly => ServerFault::EndedEarly,
        }
    }
}

impl From<RestFault> for ServerFault {
    ghost use Rattle.sz_ask.specs.Reply.{of_rest};

    ghost from_gives = { λ fault e. e ≡ of_rest fault };

    fn from(fault: RestFault) -> Self {
        match fault {
            RestFault::Status { code } => ServerFault::Status { code },
            RestFault::Member { name } => ServerFault::Member { name },
            RestFault::TooLarge { limit } => ServerFault::TooLarge { limit },
            RestFault::OutOfMemory => ServerFault::OutOfMemory,
        }
    }
}
