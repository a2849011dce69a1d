//! The kinds of heads.

/// What a head belongs to.
#[derive(Clone, Copy, Debug, PartialEq, Eq)]
pub enum Kind {
    /// A request line and its fields (RFC 9112 section 3).
    Request,
    /// A status line and its fields (RFC 9112 section 4).
    Reply,
    /// The fields after the last chunk (RFC 9112 section 7.1.2).
    Trailer,
}
