//! Messages as a resolver stored them, and each fault at its place.

use crate::wanted::{Servers, are};
use std::alloc::Global;
use sz_base::{Bytes, OutOfMemory, Targets};
use sz_dns::{DnsFault, DnsKind, targets};

/// The servers that a message names, or what is wrong with it and where.
type Wanted = Result<Servers, (DnsKind, usize)>;

const NONE: Wanted = Ok(&[]);

const A: Wanted = Ok(&[(b"a.example.com", 443)]);

fn comes_to(read: Result<Targets, DnsFault>, want: Wanted) -> bool {
    match (read, want) {
        (Ok(targets), Ok(servers)) => are(&targets, servers),
        (Err(fault), Err((kind, place))) => fault == DnsFault::Bad { kind, place },
        _ => false,
    }
}

// identifier, flags of an answer with recursion, one question, so many answer records, and none of the others
// (RFC 1035 section 4.1.1)
const HEADER: &[u8] = b"\x12\x34\x81\x80\x00\x01\x00";

// then, at 12, the question for `_sztp._tcp.example.com`, type 33, class 1; its domain stands at 23 (section 4.1.2)
const QUESTION: &[u8] = b"\x00\x00\x00\x00\x05_sztp\x04_tcp\x07example\x03com\x00\x00\x21\x00\x01";

// a record (section 4.1.3): the owner as a pointer to the question's name
const OWNER: &[u8] = b"\xc0\x0c";

// type 33, class 1, and an hour
const FIXED: &[u8] = b"\x00\x21\x00\x01\x00\x00\x0e\x10";

// the length of the data; then priority, weight, port, and the target under the domain of the question (RFC 2782)
const AT_A: &[u8] = b"\x00\x0a\x00\x14\x00\x05\x01\xbb\x01a\xc0\x17";

const AT_B: &[u8] = b"\x00\x0a\x00\x0a\x00\x05\x01\xbb\x01b\xc0\x17";

const AT_C: &[u8] = b"\x00\x0a\x00\x0a\x00\x00\x20\xfb\x01c\xc0\x17";

// how many records are told, the parts of those that are there, the first of which begins at 40, and what they come to
const ANSWERS: &[(u8, &[&[u8]], Wanted)] = &[
    // services are taken by priority, and as many as are told
    (
        3,
        &[OWNER, FIXED, AT_A, OWNER, FIXED, AT_B, OWNER, FIXED, AT_C],
        Ok(&[
            (b"b.example.com", 443),
            (b"c.example.com", 8443),
            (b"a.example.com", 443),
        ]),
    ),
    (
        1,
        &[OWNER, FIXED, AT_A, OWNER, FIXED, AT_B, OWNER, FIXED, AT_C],
        A,
    ),
    (
        0,
        &[OWNER, FIXED, AT_A, OWNER, FIXED, AT_B, OWNER, FIXED, AT_C],
        NONE,
    ),
    // letters in the other case
    (1, &[b"\x05_SZTP\x04_Tcp\xc0\x17", FIXED, AT_A], A),
    // a byte behind the target
    (
        1,
        &[
            OWNER,
            FIXED,
            b"\x00\x0b\x00\x14\x00\x05\x01\xbb\x01a\xc0\x17\xff",
        ],
        A,
    ),
    // passed over: another type, another class, another owner, the root, port 0, and a byte that no host has
    (
        2,
        &[
            OWNER,
            b"\x00\x10\x00\x01\x00\x00\x0e\x10",
            b"\x00\x02\x01a",
            OWNER,
            FIXED,
            AT_A,
        ],
        A,
    ),
    (
        2,
        &[
            OWNER,
            b"\x00\x21\x00\x03\x00\x00\x0e\x10",
            b"\x00\x02\x01a",
            OWNER,
            FIXED,
            AT_A,
        ],
        A,
    ),
    (
        2,
        &[b"\xc0\x12", FIXED, b"\x00\x02\x01a", OWNER, FIXED, AT_A],
        A,
    ),
    (
        2,
        &[
            OWNER,
            FIXED,
            b"\x00\x07\x00\x00\x00\x00\x01\xbb\x00",
            OWNER,
            FIXED,
            AT_A,
        ],
        A,
    ),
    (
        2,
        &[
            OWNER,
            FIXED,
            b"\x00\x0a\x00\x00\x00\x00\x00\x00\x01a\xc0\x17",
            OWNER,
            FIXED,
            AT_A,
        ],
        A,
    ),
    (
        2,
        &[
            OWNER,
            FIXED,
            b"\x00\x0a\x00\x00\x00\x00\x01\xbb\x01*\xc0\x17",
            OWNER,
            FIXED,
            AT_A,
        ],
        A,
    ),
    // no record, half a pointer, a pointer past the end, nine bytes of fields, and data that are cut
    (1, &[], Err((DnsKind::Short, 40))),
    (1, &[b"\xc0"], Err((DnsKind::Short, 40))),
    (1, &[b"\xff\xff"], Err((DnsKind::Short, 40))),
    (
        1,
        &[b"\x00\x00\x21\x00\x01\x00\x00\x0e\x10\x00"],
        Err((DnsKind::Short, 40)),
    ),
    (
        2,
        &[
            OWNER,
            FIXED,
            AT_A,
            OWNER,
            FIXED,
            b"\x00\x0a\x00\x14\x00\x05\x01\xbb\x01a",
        ],
        Err((DnsKind::Short, 62)),
    ),
    // data of five bytes, and a target that passes the data
    (
        1,
        &[OWNER, FIXED, b"\x00\x05\x00\x14\x00\x05\x01"],
        Err((DnsKind::Short, 40)),
    ),
    (
        1,
        &[
            OWNER,
            FIXED,
            b"\x00\x08\x00\x14\x00\x05\x01\xbb\x01a\xc0\x17",
        ],
        Err((DnsKind::Short, 40)),
    ),
    // labels of other kinds, in an owner, and in a target at 58
    (1, &[b"\x40"], Err((DnsKind::Label, 40))),
    (1, &[b"\x01a\x80"], Err((DnsKind::Label, 40))),
    (
        1,
        &[OWNER, FIXED, b"\x00\x07\x00\x14\x00\x05\x01\xbb\xbf"],
        Err((DnsKind::Label, 58)),
    ),
    // pointers to themselves
    (1, &[b"\xc0\x28"], Err((DnsKind::Pointer, 40))),
    (
        1,
        &[OWNER, FIXED, b"\x00\x08\x00\x14\x00\x05\x01\xbb\xc0\x3a"],
        Err((DnsKind::Pointer, 58)),
    ),
];

fn shows(alloc: Global, count: u8, records: &[&[u8]], want: Wanted) -> Result<bool, OutOfMemory> {
    let mut message = Bytes::from_slice(alloc, HEADER)?;
    message.append(&[count])?;
    message.append(QUESTION)?;
    for part in records {
        message.append(part)?;
    }
    Ok(comes_to(targets(alloc, message.as_slice(), b"Example.COM"), want))
}

#[test]
fn services_are_taken_by_priority(rt: HostRuntime) -> Result<(), OutOfMemory> {
    for &(count, records, want) in ANSWERS {
        assert!(rt; shows(rt.alloc(), count, records, want)?);
    }
    Ok(())
}

const WHOLES: &[(&[u8], Wanted)] = &[
    (
        b"\x12\x34\x81\x80\x00\x01\x00\x00\x00\x00\x00",
        Err((DnsKind::Short, 0)),
    ),
    // no such name, which is code 3
    (b"\x12\x34\x81\x83\x00\x01\x00\x00\x00\x00\x00\x00", NONE),
    // a question that is a pointer to itself, and one without its class
    (
        b"\x12\x34\x81\x80\x00\x01\x00\x00\x00\x00\x00\x00\xc0\x0c\x00\x21\x00\x01",
        Err((DnsKind::Pointer, 12)),
    ),
    (
        b"\x12\x34\x81\x80\x00\x01\x00\x00\x00\x00\x00\x00\x00\x00\x21",
        Err((DnsKind::Short, 12)),
    ),
];

#[test]
fn a_message_needs_its_header_and_question(rt: HostRuntime) {
    for &(message, want) in WHOLES {
        assert!(rt; comes_to(targets(rt.alloc(), message, b"example.com"), want));
    }
}

// a message without questions whose one record has for its owner the first of so many pointers, each to the next, of
// which the last leads to the root
fn behind_pointers(alloc: Global, count: u8) -> Result<Bytes, OutOfMemory> {
    let mut message = Bytes::from_slice(
        alloc,
        b"\x12\x34\x81\x80\x00\x00\x00\x01\x00\x00\x00\x00",
    )?;
    message.append(b"\xc0\x19\x00\x01\x00\x01\x00\x00\x0e\x10\x00\x00\x00")?;
    for place in 1..u16::from(count) {
        let [high, low] = (0xc019 + 2 * place).to_be_bytes();
        message.push(high)?;
        message.push(low)?;
    }
    message.append(b"\x00")?;
    Ok(message)
}

// a question with three labels of 63 bytes, one of so many, and the root
fn of_labels(alloc: Global, last: u8) -> Result<Bytes, OutOfMemory> {
    let mut message = Bytes::from_slice(
        alloc,
        b"\x12\x34\x81\x80\x00\x01\x00\x00\x00\x00\x00\x00",
    )?;
    for length in [63, 63, 63, last] {
        message.push(length)?;
        for _ in 0..length {
            message.push(b'a')?;
        }
    }
    message.append(b"\x00\x00\x21\x00\x01")?;
    Ok(message)
}

#[test]
fn a_name_has_127_pointers_and_255_bytes_at_most(rt: HostRuntime) -> Result<(), OutOfMemory> {
    for (message, want) in [
        (behind_pointers(rt.alloc(), 127)?, NONE),
        (
            behind_pointers(rt.alloc(), 128)?,
            Err((DnsKind::Pointer, 12)),
        ),
        (of_labels(rt.alloc(), 61)?, NONE),
        (of_labels(rt.alloc(), 62)?, Err((DnsKind::Pointer, 12))),
    ] {
        assert!(rt;
            comes_to(
                targets(rt.alloc(), message.as_slice(), b"example.com"),
                want
            )
        );
    }
    Ok(())
}
