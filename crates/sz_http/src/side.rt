//! The two kinds of messages.

ghost use Rattle.std.specs.Prelude.{◌≡◌};
ghost use Rattle.sz_http.specs.Message.{kind_of};

use crate::Kind;

/// Which messages are read.
#[derive(Clone, Copy, Debug, PartialEq, Eq)]
pub enum Side {
    /// Requests, as a server reads them (RFC 9112 section 3).
    Request,
    /// Replies, as a client reads them (RFC 9112 section 4).
    Reply,
}

impl Side {
    /// The kind of the heads of these messages.
    pub(crate) fn kind(self) -> Kind
        ensures { result ≡ kind_of self }
    {
        match self {
            Side::Request => Kind::Request,
            Side::Reply => Kind::Reply,
        }
    }
}
