//! Times, and the moment that a device judges at.

/// A time in whole seconds since 1970-01-01T00:00:00Z.
#[derive(Clone, Copy, Debug, PartialEq, Eq, PartialOrd, Ord)]
pub struct Seconds(pub i64);

/// When a device judges what it was handed, and the nonce that it drew for this.
#[derive(Clone, Copy, Debug, PartialEq, Eq)]
pub struct Moment {
    /// The device's time.
    pub time: Seconds,
    /// The nonce of this bootstrap (RFC 8366, section 5.3), or `None` where none was drawn.
    pub nonce: Option<[u8; 16]>,
}
