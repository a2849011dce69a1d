//! Why the download of an image gave none.

use crate::Items;

/// Why one URI gave no image.
#[derive(Clone, Copy, Debug, PartialEq, Eq)]
pub enum ImageFault {
    /// The URI names no server that can be asked.
    Uri,
    /// The exchange was lost: the network failed, and counted that.
    Lost,
    /// The reply ended before its end was told.
    EndedEarly,
    /// The reply is no HTTP message.
    BadHttp,
    /// The reply has a coding that is not read.
    Coding,
    /// The reply's head is over its limit.
    HeadTooLarge,
    /// The reply has a status other than 200.
    Status {
        /// The status.
        code: u16,
    },
    /// The image does not fit the space that is kept for it.
    ImageTooLarge {
        /// The image's length in bytes.
        size: u64,
        /// The space's length in bytes.
        area: u64,
    },
    /// The image has another SHA-256 digest than the one asked for.
    WrongHash {
        /// The digest of what came.
        found: [u8; 32],
    },
    /// The disk failed, and counted that.
    DiskFault,
    /// Memory ran out.
    OutOfMemory,
}

/// Why no URI gave an image, one fault for each URI in their order.
pub type ImageFaults = Items<ImageFault>;
