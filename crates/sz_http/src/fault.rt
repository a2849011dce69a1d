//! Why a message is refused.

ghost use Rattle.std.specs.Prelude.{◌≡◌};
ghost use Rattle.sz_http.specs.Verdict.{chunk_fault, framing_fault};

use crate::{ChunkFault, FramingFault};

/// What is wrong with a message.
#[derive(Clone, Copy, Debug, PartialEq, Eq)]
pub enum HttpFault {
    /// No head of at most 64 fields and 65,536 bytes begins with the bytes, or the fields of the head contradict each
    /// other on the length of the body (RFC 9112 sections 2 to 6).
    BadHead,
    /// No chunked body begins with the bytes behind the head (RFC 9112 section 7.1).
    BadChunk,
    /// The body has more bytes than this, or the line of a chunk has more than 256.
    TooLarge {
        /// How many bytes there may be.
        limit: u64,
    },
    /// A transfer coding other than `chunked`, or a content coding other than `identity`.
    Coding,
    /// The stream ended inside the message.
    EndedEarly,
}

impl HttpFault {
    // The fault of a head that is refused for its body.
    pub(crate) fn of_framing(fault: FramingFault) -> HttpFault
        ensures { result ≡ framing_fault fault }
    {
        match fault {
            FramingFault::BadHead => HttpFault::BadHead,
            FramingFault::Coding => HttpFault::Coding,
            FramingFault::TooLarge { limit } => HttpFault::TooLarge { limit },
        }
    }

    // The fault of a chunked body.
    pub(crate) fn of_chunks(fault: ChunkFault) -> HttpFault
        ensures { result ≡ chunk_fault fault }
    {
        match fault {
            ChunkFault::BadChunk => HttpFault::BadChunk,
            ChunkFault::TooLarge { limit } => HttpFault::TooLarge { limit },
        }
    }
}
