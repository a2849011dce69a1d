//! Heads cut at every place, refused at the byte that decides it, and at their limits.

use crate::texts::repeated;
use std::alloc::Global;
use std::test::Fail;
use sz_base::OutOfMemory;
use sz_http::{Head, HeadReading, Kind, MOST_BYTES, NoHead, Progress};

const REQUEST: &[u8] =
    b"POST /restconf/operations/ietf-sztp-bootstrap-server:get-bootstrapping-data HTTP/1.1\r\n\
    Host: 10.0.0.2:8443\r\nSztp-Serial-Number: A1\r\nContent-Length: 69\r\n\r\n";

const REPLY: &[u8] = b"HTTP/1.0 404 Not Found\r\nContent-Length:0 \t\r\n\r\n";

const HEADS: &[(Kind, &[u8])] = &[
    (Kind::Request, REQUEST),
    (Kind::Reply, REPLY),
    (Kind::Trailer, b"Digest: x\r\nEmpty:\r\n\r\n"),
    (Kind::Request, b"\r\n\nGET / HTTP/1.0\n\n"),
    (Kind::Reply, b"HTTP/1.1 200\n\n"),
    (Kind::Reply, b"HTTP/1.1 200 \n\n"),
    (Kind::Trailer, b"\n"),
];

// Whether a text that is fed in two pieces is a head that ends with its last byte.
fn is_head_in_two(alloc: Global, kind: Kind, text: &[u8], cut: usize) -> Result<bool, OutOfMemory> {
    let mut reading = HeadReading::create(alloc, kind)?;
    let (first, second) = text.split_at(cut.min(text.len()));
    match reading.feed(first) {
        Ok(Progress::More) => Ok(
            reading.feed(second) == Ok(Progress::Whole { used: second.len() }),
        ),
        answer => Ok(second.is_empty() && answer == Ok(Progress::Whole { used: first.len() })),
    }
}

fn is_head_anyhow_cut(alloc: Global, kind: Kind, text: &[u8]) -> Result<bool, OutOfMemory> {
    for cut in 0..=text.len() {
        if !is_head_in_two(alloc, kind, text, cut)? {
            return Ok(false);
        }
    }
    Ok(true)
}

#[test]
fn heads_are_cut_at_every_place(rt: HostRuntime) -> Result<(), OutOfMemory> {
    for &(kind, text) in HEADS {
        assert!(rt; is_head_anyhow_cut(rt.alloc(), kind, text)?);
    }
    Ok(())
}

/// What a text comes to that is fed byte by byte, and the index of the byte that decides it.
type Decided = Option<(usize, Result<Progress, NoHead>)>;

const WHOLE: Result<Progress, NoHead> = Ok(Progress::Whole { used: 1 });

const NONE: Result<Progress, NoHead> = Err(NoHead);

const DECIDED: &[(Kind, &[u8], Decided)] = &[
    (Kind::Request, b"GET / HTTP/1.1\r\n\r\nx", Some((17, WHOLE))),
    (Kind::Request, b"GET / HTTP/1.1\r\n\r", None),
    (Kind::Request, b"GET  / HTTP/1.1", Some((4, NONE))),
    (Kind::Request, b"(ET", Some((0, NONE))),
    (Kind::Request, b"GET /\xff HTTP", Some((6, NONE))),
    (Kind::Request, b"GET /\xc3\xa9 HTTP/1.2", Some((15, NONE))),
    (Kind::Request, b"GET / HTTP/1.1\rX", Some((15, NONE))),
    (Kind::Request, b"GET / HTTP/1.1\n A: b", Some((15, NONE))),
    (Kind::Request, b"GET / HTTP/1.1\nA : b", Some((16, NONE))),
    (Kind::Reply, b"HTTP/1.1 2000", Some((12, NONE))),
    (Kind::Reply, b"HTTX", Some((3, NONE))),
    (Kind::Reply, b"\rHTTP", Some((1, NONE))),
    (Kind::Trailer, b"A: b\x00", Some((4, NONE))),
    (Kind::Trailer, b": b", Some((0, NONE))),
];

fn byte_by_byte(reading: &mut HeadReading, text: &[u8]) -> Decided {
    for (index, byte) in text.iter().enumerate() {
        let answer = reading.feed(&[*byte]);
        if answer != Ok(Progress::More) {
            return Some((index, answer));
        }
    }
    None
}

#[test]
fn heads_are_decided_at_the_byte_that_decides_them(rt: HostRuntime) -> Result<(), OutOfMemory> {
    let mut reading = HeadReading::create(rt.alloc(), Kind::Request)?;
    for &(kind, text, want) in DECIDED {
        reading.begin(kind);
        assert!(rt; byte_by_byte(&mut reading, text) == want);
    }
    Ok(())
}

// the front, the part, how often it stands there, and the back of a text
const LIMITS: &[(Kind, &[u8], &[u8], usize, &[u8], Decided)] = &[
    (Kind::Trailer, b"", b"a:\r\n", 64, b"\n", Some((256, WHOLE))),
    (Kind::Trailer, b"", b"a:\r\n", 65, b"\n", Some((256, NONE))),
    (
        Kind::Reply,
        b"HTTP/1.1 200 ",
        b"a",
        MOST_BYTES - 15,
        b"\n\n",
        Some((MOST_BYTES - 1, WHOLE)),
    ),
    (
        Kind::Reply,
        b"HTTP/1.1 200 ",
        b"a",
        MOST_BYTES - 14,
        b"\n\n",
        Some((MOST_BYTES - 2, NONE)),
    ),
];

#[test]
fn heads_have_64_fields_and_65536_bytes_at_most(rt: HostRuntime) -> Result<(), Fail> {
    let mut reading = HeadReading::create(rt.alloc(), Kind::Trailer)?;
    for &(kind, front, part, count, back, want) in LIMITS {
        let text = repeated(rt.alloc(), front, part, count, back)?;
        reading.begin(kind);
        assert!(rt; byte_by_byte(&mut reading, text.as_slice()) == want);
    }
    Ok(())
}

fn is_request(head: &Head<'_>) -> bool {
    head.method == b"POST".as_slice()
        && head.target
            == b"/restconf/operations/ietf-sztp-bootstrap-server:get-bootstrapping-data".as_slice()
        && (head.status, head.minor, head.fields.len()) == (0, 1, 3)
        && head.fields.get(1) == Some((b"Sztp-Serial-Number".as_slice(), b"A1".as_slice()))
        && head.fields.get(3).is_none()
}

#[test]
fn a_request_has_its_parts(rt: HostRuntime) -> Result<(), Fail> {
    let mut reading = HeadReading::create(rt.alloc(), Kind::Request)?;
    assert!(rt; reading.head().is_none());
    assert!(rt;
        reading.feed(REQUEST)
            == Ok(Progress::Whole {
                used: REQUEST.len()
            })
    );
    assert!(rt; is_request(&reading.head().ok_or("no request")?));
    Ok(())
}

fn is_reply(head: &Head<'_>) -> bool {
    head.method.is_empty()
        && head.target.is_empty()
        && (head.status, head.minor) == (404, 0)
        && head.fields.get(0) == Some((b"Content-Length".as_slice(), b"0".as_slice()))
}

#[test]
fn a_reply_behind_a_request_has_its_parts(rt: HostRuntime) -> Result<(), Fail> {
    let mut reading = HeadReading::create(rt.alloc(), Kind::Request)?;
    assert!(rt; reading.feed(b"GET ") == Ok(Progress::More));
    reading.begin(Kind::Reply);
    assert!(rt; reading.feed(REPLY) == Ok(Progress::Whole { used: REPLY.len() }));
    assert!(rt; is_reply(&reading.head().ok_or("no reply")?));
    Ok(())
}
