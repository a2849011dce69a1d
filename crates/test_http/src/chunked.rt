//! Chunked bodies in pieces of every size, and byte by byte what is refused.

use crate::texts::repeated;
use std::alloc::Global;
use std::test::Fail;
use sz_http::{ChunkFault, ChunkedBody};

const BODY: &[u8] = b"3\r\nabc\r\n00A;x=\"1\"\r\n0123456789\r\n0;last\r\nDigest: x\r\n\r\n";

/// What a text comes to, where it has come to something: a whole body, or a refusal.
type End = Option<Result<(), ChunkFault>>;

const WHOLE: End = Some(Ok(()));

const BAD: End = Some(Err(ChunkFault::BadChunk));

/// A text as it was read.
#[derive(Drop)]
struct Read {
    content: Vec<u8>,
    end: End,
}

impl Read {
    // Takes a piece, as far as the body is not whole or refused.
    fn take(&mut self, reading: &mut ChunkedBody, piece: &[u8]) -> Result<(), Fail> {
        let mut rest = piece;
        for _ in 0..piece.len() {
            match reading.feed(rest) {
                Ok(fed) => {
                    self.content.extend_from_slice(fed.body)?;
                    if fed.done {
                        self.end = WHOLE;
                        return Ok(());
                    }
                    rest = rest.get(fed.used..).unwrap_or(b"");
                }
                Err(fault) => {
                    self.end = Some(Err(fault));
                    return Ok(());
                }
            }
        }
        Ok(())
    }
}

// A text that is fed in pieces of so many bytes.
fn in_pieces(alloc: Global, text: &[u8], size: usize, limit: u64) -> Result<Read, Fail> {
    let mut reading = ChunkedBody::create(alloc, limit)?;
    let mut read = Read {
        content: Vec::new(alloc),
        end: None,
    };
    if size == 0 {
        return Err("no size".into());
    }
    for piece in text.chunks(size) {
        if read.end.is_none() {
            read.take(&mut reading, piece)?;
        }
    }
    Ok(read)
}

#[test]
fn a_body_is_read_in_pieces_of_every_size(rt: HostRuntime) -> Result<(), Fail> {
    for size in 1..=BODY.len() {
        let read = in_pieces(rt.alloc(), BODY, size, 13)?;
        assert!(rt; read.content.as_slice() == b"abc0123456789".as_slice());
        assert!(rt; read.end == WHOLE);
    }
    Ok(())
}

// texts, how many bytes their body may have, and what they come to
const BODIES: &[(&[u8], u64, End)] = &[
    (b"0\r\n\r\n", 0, WHOLE),
    (b"0\r\n\r", 0, None),
    (b"1\r\na\r\n", 1, None),
    (b"\r\n", 9, BAD),
    (b"1 \r\n", 9, BAD),
    (b"1\n", 9, BAD),
    (b"1;x\n", 9, BAD),
    (b"1\rx", 9, BAD),
    (b"1\r\nab", 9, BAD),
    (b"1\r\na\rb", 9, BAD),
    (b"0000000000000001\r\na\r\n0\r\n\r\n", 9, WHOLE),
    (b"00000000000000001", 9, BAD),
    (b"fFFFffffffffffff\r\na", 1, None),
    (
        b"fFFFffffffffffff\r\nab",
        1,
        Some(Err(ChunkFault::TooLarge { limit: 1 })),
    ),
    (b"0\r\n: x", 9, BAD),
];

#[test]
fn other_texts_are_refused(rt: HostRuntime) -> Result<(), Fail> {
    for &(text, limit, want) in BODIES {
        assert!(rt; in_pieces(rt.alloc(), text, 1, limit)?.end == want);
    }
    Ok(())
}

// how often a letter stands behind `0;`, and what the line comes to
const LINES: &[(usize, End)] = &[
    (254, WHOLE),
    (255, Some(Err(ChunkFault::TooLarge { limit: 256 }))),
];

#[test]
fn a_line_has_256_bytes_at_most(rt: HostRuntime) -> Result<(), Fail> {
    for &(count, want) in LINES {
        let text = repeated(rt.alloc(), b"0;", b"x", count, b"\r\n\r\n")?;
        assert!(rt; in_pieces(rt.alloc(), text.as_slice(), 1, 0)?.end == want);
    }
    Ok(())
}

#[test]
fn a_refusal_stays(rt: HostRuntime) -> Result<(), Fail> {
    let mut reading = ChunkedBody::create(rt.alloc(), 9)?;
    for piece in [&b"1 "[..], b"1\r\na\r\n"] {
        assert!(rt; reading.feed(piece).err() == Some(ChunkFault::BadChunk));
    }
    reading.begin(9);
    assert!(rt; reading.feed(b"1\r\na\r\n").err().is_none());
    Ok(())
}
