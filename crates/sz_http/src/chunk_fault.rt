//! Why a chunked body is refused.

/// What is wrong with a chunked body.
#[derive(Clone, Copy, Debug, PartialEq, Eq)]
pub enum ChunkFault {
    /// No chunked body begins with the bytes.
    BadChunk,
    /// The body has more bytes than this, or the line before a chunk has more than 256.
    TooLarge {
        /// How many bytes there may be.
        limit: u64,
    },
}
