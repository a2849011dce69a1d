//! Replies of a bootstrap server, and what a device makes of them.

use std::alloc::Global;
use sz_ask::{ServerFault, ask};
use sz_base::{Serial, Target};
use sz_fixtures::{Reply, scripted};
use sz_json::Name;

// The conveyed information `abc` and nothing else, in a body of 69 bytes.
const ABC: &[u8] = b"HTTP/1.1 200 OK\r\nContent-Length: 69\r\n\r\n\
    {\"ietf-sztp-bootstrap-server:output\":{\"conveyed-information\":\"YWJj\"}}";

// The same, ended one byte early.
const CUT: &[u8] = b"HTTP/1.1 200 OK\r\nContent-Length: 69\r\n\r\n\
    {\"ietf-sztp-bootstrap-server:output\":{\"conveyed-information\":\"YWJj\"}";

// The same, without a length.
const UNTIL_END: &[u8] = b"HTTP/1.1 200 OK\r\n\r\n\
    {\"ietf-sztp-bootstrap-server:output\":{\"conveyed-information\":\"YWJj\"}}";

const NO_MEMBER: &[u8] = b"HTTP/1.1 200 OK\r\nContent-Length: 2\r\n\r\n{}";

// Whether a reply gives the conveyed information `abc`, and neither an owner certificate nor a voucher.
type Given = Result<bool, ServerFault>;

// A reply, whether the connection is closed behind it, the call of the network that fails, and what is given.
static REPLIES: [(&[u8], bool, u64, Given); 14] = [
    (ABC, true, 0, Ok(true)),
    (ABC, false, 0, Ok(true)),
    (UNTIL_END, true, 0, Ok(true)),
    (UNTIL_END, false, 0, Err(ServerFault::Lost)),
    (ABC, true, 1, Err(ServerFault::Lost)),
    (ABC, true, 2, Err(ServerFault::Lost)),
    (ABC, true, 3, Err(ServerFault::Lost)),
    (
        b"HTTP/1.1 200 OK\r\n",
        true,
        0,
        Err(ServerFault::EndedEarly),
    ),
    (CUT, true, 0, Err(ServerFault::EndedEarly)),
    (b"HTTP/9 200 OK\r\n\r\n", true, 0, Err(ServerFault::BadHttp)),
    (
        b"HTTP/1.1 200 OK\r\nTransfer-Encoding: gzip\r\n\r\n",
        true,
        0,
        Err(ServerFault::Coding),
    ),
    (
        b"HTTP/1.1 200 OK\r\nContent-Length: 6291457\r\n\r\n",
        true,
        0,
        Err(ServerFault::TooLarge { limit: 6_291_456 }),
    ),
    (
        b"HTTP/1.1 404 Not Found\r\nContent-Length: 0\r\n\r\n",
        true,
        0,
        Err(ServerFault::Status { code: 404 }),
    ),
    (
        NO_MEMBER,
        true,
        0,
        Err(ServerFault::Member { name: Name::Output }),
    ),
];

fn given_by(alloc: Global, reply: Reply<'_>, fails: u64) -> Given {
    let mut net = scripted(alloc, &[reply], fails)?;
    let (Ok(target), Ok(serial)) = (
        Target::read(alloc, b"10.0.0.2:8443"),
        Serial::read(alloc, b"A1"),
    ) else {
        return Err(ServerFault::OutOfMemory);
    };
    let evidence = ask(alloc, &mut net, &target, &serial, None)?;
    Ok(
        evidence.ci.as_slice() == b"abc".as_slice()
            && evidence.oc.is_none()
            && evidence.ov.is_none(),
    )
}

#[test]
fn replies_give_evidence_or_their_first_fault(rt: HostRuntime) {
    for &(bytes, closed, fails, wanted) in &REPLIES {
        assert!(rt; given_by(rt.alloc(), Reply { bytes, closed }, fails) == wanted);
    }
}
