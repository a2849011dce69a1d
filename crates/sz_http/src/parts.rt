//! The parts of a whole head, found by `httparse`.

ghost use Rattle.std.specs.Prelude.{IsSomeAnd};
ghost use Rattle.sz_http.specs.Head.{IsHead};
ghost use Rattle.sz_http.specs.Parts.{HasParts, parts_of};

use crate::{Fields, Head, Kind, MOST_FIELDS};
use httparse::Status;
use httparse::spans::{EMPTY_HEADER_SPAN, parse_headers, parse_request, parse_response};

/// The parts of a head of this kind, where the bytes are one.
pub(crate) fn parts(kind: Kind, bytes: &[u8]) -> Option<Head<'_>>
    ensures { IsHead kind bytes.now → IsSomeAnd result (λ head. HasParts kind bytes.now (parts_of head)) }
{
    match kind {
        Kind::Request => request_parts(bytes),
        Kind::Reply => reply_parts(bytes),
        Kind::Trailer => trailer_parts(bytes),
    }
}

fn request_parts(bytes: &[u8]) -> Option<Head<'_>>
    ensures { IsHead Kind.Request bytes.now
        → IsSomeAnd result (λ head. HasParts Kind.Request bytes.now (parts_of head)) }
{
    let mut spans = [EMPTY_HEADER_SPAN; MOST_FIELDS];
    match parse_request(bytes, &mut spans) {
        Ok(Status::Complete(found)) => Some(Head {
            method: found.method.of(bytes),
            target: found.path.of(bytes),
            status: 0,
            minor: found.version,
            fields: Fields {
                bytes,
                spans,
                count: found.headers,
            },
        }),
        _ => None,
    }
}

fn reply_parts(bytes: &[u8]) -> Option<Head<'_>>
    ensures { IsHead Kind.Reply bytes.now
        → IsSomeAnd result (λ head. HasParts Kind.Reply bytes.now (parts_of head)) }
{
    let mut spans = [EMPTY_HEADER_SPAN; MOST_FIELDS];
    match parse_response(bytes, &mut spans) {
        Ok(Status::Complete(found)) => Some(Head {
            method: b"",
            target: b"",
            status: found.code,
            minor: found.version,
            fields: Fields {
                bytes,
                spans,
                count: found.headers,
            },
        }),
        _ => None,
    }
}

fn trailer_parts(bytes: &[u8]) -> Option<Head<'_>>
    ensures { IsHead Kind.Trailer bytes.now
        → IsSomeAnd result (λ head. HasParts Kind.Trailer bytes.now (parts_of head)) }
{
    let mut spans = [EMPTY_HEADER_SPAN; MOST_FIELDS];
    match parse_headers(bytes, &mut spans) {
        Ok(Status::Complete((_, count))) => Some(Head {
            method: b"",
            target: b"",
            status: 0,
            minor: 0,
            fields: Fields {
                bytes,
                spans,
                count,
            },
        }),
        _ => None,
    }
}
