//! Messages cut at every place, messages that end early at every place, and what is refused.

use crate::texts::repeated;
use std::alloc::Global;
use std::test::Fail;
use sz_http::{Head, HttpFault, Reading, Side, asks_to_close};

const LENGTH: &[u8] = b"HTTP/1.1 200 OK\r\nContent-Length: 5\r\n\r\nhello";

const CHUNKS: &[u8] =
    b"HTTP/1.1 200 OK\r\nTransfer-Encoding: chunked\r\n\r\n3\r\nhel\r\n2;x\r\nlo\r\n0\r\nA: b\r\n\r\n";

const UNTIL_END: &[u8] = b"HTTP/1.0 200 OK\r\n\r\nhello";

const NO_BODY: &[u8] = b"GET /a HTTP/1.1\r\nHost: h\r\n\r\n";

const POST: &[u8] = b"POST /a HTTP/1.1\r\nContent-Length: 5\r\n\r\nhello";

/// A message as it was read: its body, and what it came to, where it came to something.
#[derive(Drop)]
struct Read {
    body: Vec<u8>,
    end: Option<Result<(), HttpFault>>,
}

const WHOLE: Option<Result<(), HttpFault>> = Some(Ok(()));

impl Read {
    fn create(alloc: Global) -> Self {
        Read {
            body: Vec::new(alloc),
            end: None,
        }
    }

    // Takes a piece, until the message is whole or refused.
    fn take(&mut self, reading: &mut Reading, piece: &[u8]) -> Result<(), Fail> {
        let mut rest = piece;
        for _ in 0..piece.len() {
            match reading.feed(rest) {
                Ok(fed) => {
                    self.body.extend_from_slice(fed.body)?;
                    if fed.done {
                        self.end = WHOLE;
                        return Ok(());
                    }
                    rest = rest.get(fed.used..).unwrap_or(b"");
                }
                Err(fault) => {
                    self.end = Some(Err(fault));
                    return Ok(());
                }
            }
        }
        Ok(())
    }

    // Takes the end of the stream, if the message is neither whole nor refused.
    fn take_end(&mut self, reading: &mut Reading) {
        if self.end.is_none() {
            self.end = Some(reading.ended());
        }
    }
}

// A message in two pieces, and then the end of the stream.
fn in_two(reading: &mut Reading, alloc: Global, text: &[u8], cut: usize) -> Result<Read, Fail> {
    let mut read = Read::create(alloc);
    let (first, second) = text.split_at(cut.min(text.len()));
    read.take(reading, first)?;
    read.take(reading, second)?;
    read.take_end(reading);
    Ok(read)
}

// A message byte by byte, and then the end of the stream.
fn byte_by_byte(reading: &mut Reading, alloc: Global, text: &[u8]) -> Result<Read, Fail> {
    let mut read = Read::create(alloc);
    for byte in text {
        read.take(reading, &[*byte])?;
    }
    read.take_end(reading);
    Ok(read)
}

const MESSAGES: &[(Side, &[u8], &[u8])] = &[
    (Side::Reply, LENGTH, b"hello"),
    (Side::Reply, CHUNKS, b"hello"),
    (Side::Reply, UNTIL_END, b"hello"),
    (Side::Request, NO_BODY, b""),
    (Side::Request, POST, b"hello"),
];

// Whether the message has this body, in two pieces that are cut anywhere and byte by byte.
fn has_body(alloc: Global, side: Side, text: &[u8], body: &[u8]) -> Result<bool, Fail> {
    let mut reading = Reading::create(alloc, side, 5)?;
    for cut in 0..text.len() {
        let read = in_two(&mut reading, alloc, text, cut)?;
        if read.end != WHOLE || read.body.as_slice() != body {
            return Ok(false);
        }
        reading.begin(5);
    }
    let read = byte_by_byte(&mut reading, alloc, text)?;
    Ok(read.end == WHOLE && read.body.as_slice() == body)
}

#[test]
fn messages_are_cut_at_every_place(rt: HostRuntime) -> Result<(), Fail> {
    for &(side, text, body) in MESSAGES {
        assert!(rt; has_body(rt.alloc(), side, text, body)?);
    }
    Ok(())
}

// messages, and how many bytes of each are a whole one
const FRONTS: &[(Side, &[u8], usize)] = &[
    (Side::Reply, LENGTH, LENGTH.len()),
    (Side::Reply, CHUNKS, CHUNKS.len()),
    (Side::Reply, UNTIL_END, UNTIL_END.len() - 5),
    (Side::Request, NO_BODY, NO_BODY.len()),
];

fn ends_early_below(alloc: Global, side: Side, text: &[u8], whole: usize) -> Result<bool, Fail> {
    let mut reading = Reading::create(alloc, side, 5)?;
    for cut in 0..=text.len() {
        let (front, _) = text.split_at(cut.min(text.len()));
        let read = in_two(&mut reading, alloc, front, 0)?;
        let want = if cut < whole {
            Err(HttpFault::EndedEarly)
        } else {
            Ok(())
        };
        if read.end != Some(want) {
            return Ok(false);
        }
        reading.begin(5);
    }
    Ok(true)
}

#[test]
fn messages_end_early_at_every_place(rt: HostRuntime) -> Result<(), Fail> {
    for &(side, text, whole) in FRONTS {
        assert!(rt; ends_early_below(rt.alloc(), side, text, whole)?);
    }
    Ok(())
}

// replies that are refused, where a body may have 5 bytes
const REFUSED: &[(&[u8], HttpFault)] = &[
    (
        b"HTTP/1.1 200\nContent-Length: 5\nTransfer-Encoding: chunked\n\n",
        HttpFault::BadHead,
    ),
    (
        b"HTTP/1.1 200\nContent-Length: 18446744073709551616\n\n",
        HttpFault::BadHead,
    ),
    (b"HTTP/2.0 200\n\n", HttpFault::BadHead),
    (
        b"HTTP/1.1 200\nContent-Length: 6\n\n",
        HttpFault::TooLarge { limit: 5 },
    ),
    (
        b"HTTP/1.1 200\nContent-Encoding: gzip\n\n",
        HttpFault::Coding,
    ),
    (b"HTTP/1.1 200\n\nhello!", HttpFault::TooLarge { limit: 5 }),
    (
        b"HTTP/1.1 200\nTransfer-Encoding: chunked\n\n6\r\nhello!",
        HttpFault::TooLarge { limit: 5 },
    ),
    (
        b"HTTP/1.1 200\nTransfer-Encoding: chunked\n\n1 \r\n",
        HttpFault::BadChunk,
    ),
];

// Whether the reply is refused for this fault, and so is what follows it.
fn is_refused(alloc: Global, text: &[u8], fault: HttpFault) -> Result<bool, Fail> {
    let mut reading = Reading::create(alloc, Side::Reply, 5)?;
    let read = byte_by_byte(&mut reading, alloc, text)?;
    Ok(
        read.end == Some(Err(fault))
            && reading.feed(b"x").err() == Some(fault)
            && reading.ended() == Err(fault),
    )
}

#[test]
fn other_replies_are_refused(rt: HostRuntime) -> Result<(), Fail> {
    for &(text, fault) in REFUSED {
        assert!(rt; is_refused(rt.alloc(), text, fault)?);
    }
    Ok(())
}

fn is_for_a(head: &Head<'_>) -> bool {
    head.target == b"/a".as_slice() && !asks_to_close(&head.fields)
}

#[test]
fn a_message_is_read_behind_another(rt: HostRuntime) -> Result<(), Fail> {
    let mut reading = Reading::create(rt.alloc(), Side::Request, 5)?;
    assert!(rt; reading.head().is_none());
    assert!(rt; in_two(&mut reading, rt.alloc(), POST, 9)?.end == WHOLE);
    let next = reading.feed(NO_BODY)?;
    assert!(rt; (next.used, next.body.len(), next.done) == (0, 0, true));
    reading.begin(0);
    assert!(rt; reading.head().is_none());
    let second = reading.feed(NO_BODY)?;
    assert!(rt; (second.used, second.done) == (NO_BODY.len(), true));
    assert!(rt; is_for_a(&reading.head().ok_or("no head")?));
    Ok(())
}

// the front, the part, how often it stands there, and the back of a reply whose body may have 5 bytes
const LIMITS: &[(&[u8], &[u8], usize, &[u8], Result<(), HttpFault>)] = &[
    (b"HTTP/1.1 200\n", b"a:\n", 64, b"\n", Ok(())),
    (
        b"HTTP/1.1 200\n",
        b"a:\n",
        65,
        b"\n",
        Err(HttpFault::BadHead),
    ),
    (b"HTTP/1.1 200 ", b"a", 65_521, b"\n\n", Ok(())),
    (
        b"HTTP/1.1 200 ",
        b"a",
        65_522,
        b"\n\n",
        Err(HttpFault::BadHead),
    ),
    (
        b"HTTP/1.1 200\nTransfer-Encoding: chunked\n\n0;",
        b"x",
        254,
        b"\r\n\r\n",
        Ok(()),
    ),
    (
        b"HTTP/1.1 200\nTransfer-Encoding: chunked\n\n0;",
        b"x",
        255,
        b"\r\n\r\n",
        Err(HttpFault::TooLarge { limit: 256 }),
    ),
];

#[test]
fn heads_and_lines_have_their_limits(rt: HostRuntime) -> Result<(), Fail> {
    let mut reading = Reading::create(rt.alloc(), Side::Reply, 5)?;
    for &(front, part, count, back, want) in LIMITS {
        let text = repeated(rt.alloc(), front, part, count, back)?;
        assert!(rt; in_two(&mut reading, rt.alloc(), text.as_slice(), 0)?.end == Some(want));
        reading.begin(5);
    }
    Ok(())
}

// Whether so many chunks of one byte, byte by byte, are a body of so many bytes.
fn is_body_of_chunks(alloc: Global, count: usize) -> Result<bool, Fail> {
    let front = b"HTTP/1.1 200\nTransfer-Encoding: chunked\n\n";
    let text = repeated(alloc, front, b"1\r\na\r\n", count, b"0\r\n\r\n")?;
    let mut reading = Reading::create(alloc, Side::Reply, 100_000)?;
    let read = byte_by_byte(&mut reading, alloc, text.as_slice())?;
    Ok(read.end == WHOLE && read.body.len() == count && read.body.iter().all(|byte| *byte == b'a'))
}

// What a body of so many bytes comes to behind its head, where 6,291,456 are allowed.
fn end_of_long(alloc: Global, count: usize) -> Result<Option<Result<(), HttpFault>>, Fail> {
    let text = repeated(alloc, b"HTTP/1.1 200\n\n", b"a", count, b"")?;
    let mut reading = Reading::create(alloc, Side::Reply, 6_291_456)?;
    Ok(in_two(&mut reading, alloc, text.as_slice(), 14)?.end)
}

#[test]
fn bodies_have_many_parts(rt: HostRuntime) -> Result<(), Fail> {
    assert!(rt; is_body_of_chunks(rt.alloc(), 100_000)?);
    let too_large = HttpFault::TooLarge { limit: 6_291_456 };
    assert!(rt; end_of_long(rt.alloc(), 6_291_457)? == Some(Err(too_large)));
    Ok(())
}
