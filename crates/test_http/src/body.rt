//! Heads by how they frame the body behind them, and by whether they ask to close the connection.

use crate::texts::behind_head;
use std::alloc::Global;
use std::test::Fail;
use sz_http::{Framing, FramingFault, HeadReading, Kind, asks_to_close};

// heads, and how the body behind them is framed that may have 100 bytes
const FRAMINGS: &[(Kind, &[u8], Result<Framing, FramingFault>)] = &[
    (Kind::Reply, b"HTTP/1.1 200\n\n", Ok(Framing::UntilEnd)),
    (
        Kind::Reply,
        b"HTTP/1.1 200\nContent-Length: 100\n\n",
        Ok(Framing::Length(100)),
    ),
    (
        Kind::Reply,
        b"HTTP/1.1 200\ncontent-LENGTH:69\nContent-Length: 069\n\n",
        Ok(Framing::Length(69)),
    ),
    (
        Kind::Reply,
        b"HTTP/1.1 200\nTransfer-Encoding: CHUNKED\nTransfer-Encoding: chunked\n\n",
        Ok(Framing::Chunks),
    ),
    (
        Kind::Reply,
        b"HTTP/1.1 200\nContent-Encoding: Identity\n\n",
        Ok(Framing::UntilEnd),
    ),
    (Kind::Request, b"GET / HTTP/1.1\n\n", Ok(Framing::Length(0))),
    (
        Kind::Reply,
        b"HTTP/1.1 200\nContent-Length: 69\nContent-Length: 70\n\n",
        Err(FramingFault::BadHead),
    ),
    (
        Kind::Reply,
        b"HTTP/1.1 200\nContent-Length: +69\n\n",
        Err(FramingFault::BadHead),
    ),
    (
        Kind::Reply,
        b"HTTP/1.1 200\nContent-Length:\n\n",
        Err(FramingFault::BadHead),
    ),
    (
        Kind::Reply,
        b"HTTP/1.1 200\nContent-Length: 18446744073709551616\n\n",
        Err(FramingFault::BadHead),
    ),
    (
        Kind::Reply,
        b"HTTP/1.1 200\nContent-Length: 18446744073709551615\n\n",
        Err(FramingFault::TooLarge { limit: 100 }),
    ),
    (
        Kind::Reply,
        b"HTTP/1.1 200\nContent-Length: 101\nContent-Encoding: gzip\n\n",
        Err(FramingFault::Coding),
    ),
    (
        Kind::Reply,
        b"HTTP/1.1 200\nContent-Length: 1\nTransfer-Encoding: gzip\n\n",
        Err(FramingFault::BadHead),
    ),
    (
        Kind::Reply,
        b"HTTP/1.1 200\nTransfer-Encoding:\n\n",
        Err(FramingFault::Coding),
    ),
];

fn framing(alloc: Global, kind: Kind, text: &[u8]) -> Result<Result<Framing, FramingFault>, Fail> {
    let mut reading = HeadReading::create(alloc, kind)?;
    behind_head(&mut reading, text)?;
    let head = reading.head().ok_or("no head")?;
    Ok(Framing::of(kind, &head.fields, 100))
}

#[test]
fn bodies_are_framed_by_their_head(rt: HostRuntime) -> Result<(), Fail> {
    for &(kind, text, want) in FRAMINGS {
        assert!(rt; framing(rt.alloc(), kind, text)? == want);
    }
    Ok(())
}

const CONNECTIONS: &[(&[u8], bool)] = &[
    (
        b"HTTP/1.1 200\nConnection: keep-alive\nconnection: Close\n\n",
        true,
    ),
    (b"HTTP/1.1 200\nConnection: close, x\nX: close\n\n", false),
];

fn is_closed(alloc: Global, text: &[u8]) -> Result<bool, Fail> {
    let mut reading = HeadReading::create(alloc, Kind::Reply)?;
    behind_head(&mut reading, text)?;
    let head = reading.head().ok_or("no head")?;
    Ok(asks_to_close(&head.fields))
}

#[test]
fn some_connections_are_closed(rt: HostRuntime) -> Result<(), Fail> {
    for &(text, want) in CONNECTIONS {
        assert!(rt; is_closed(rt.alloc(), text)? == want);
    }
    Ok(())
}
