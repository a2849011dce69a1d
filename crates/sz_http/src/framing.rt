//! How a body is framed.

ghost use Rattle.sz_http.specs.Parts.{fields_of};
ghost use Rattle.sz_http.specs.Framing.{Frames};

use crate::fields::{declared_length, each_is, has};
use crate::{Fields, Kind};

/// How the body of a message ends (RFC 9112 section 6.3).
#[derive(Clone, Copy, Debug, PartialEq, Eq)]
pub enum Framing {
    /// It has this many bytes.
    Length(u64),
    /// It comes in chunks.
    Chunks,
    /// It ends with the connection.
    UntilEnd,
}

/// Why a head is refused for its body.
#[derive(Clone, Copy, Debug, PartialEq, Eq)]
pub enum FramingFault {
    /// A length is malformed, two are unequal, or a transfer coding stands beside one.
    BadHead,
    /// A transfer coding other than `chunked`, or a content coding other than `identity`.
    Coding,
    /// The declared length is over the limit.
    TooLarge {
        /// How many bytes a body may have.
        limit: u64,
    },
}

impl Framing {
    /// How the body behind a head of this kind with these fields is framed, where a body may have so many bytes. A bad
    /// length comes before a coding, and a coding before a length over the limit.
    pub fn of(kind: Kind, fields: &Fields<'_>, limit: u64) -> Result<Framing, FramingFault>
        ensures { Frames kind (fields_of fields.now) limit result }
    {
        let Ok(length) = declared_length(fields) else {
            return Err(FramingFault::BadHead);
        };
        let chunked = has(fields, b"Transfer-Encoding");
        if chunked && length.is_some() {
            return Err(FramingFault::BadHead);
        }
        if !each_is(fields, b"Transfer-Encoding", b"chunked")
            || !each_is(fields, b"Content-Encoding", b"identity")
        {
            return Err(FramingFault::Coding);
        }
        if chunked {
            return Ok(Framing::Chunks);
        }
        match length {
            Some(length) if length > limit => Err(FramingFault::TooLarge { limit }),
            Some(length) => Ok(Framing::Length(length)),
            None if kind == Kind::Reply => Ok(Framing::UntilEnd),
            None => Ok(Framing::Length(0)),
        }
    }
}
