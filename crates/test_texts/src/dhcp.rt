//! Messages as a DHCP client stored them, and each fault at its place.

use crate::wanted::{Servers, are};
use std::alloc::{AllocError, Global};
use sz_base::Targets;
use sz_dhcp::{DhcpFault, DhcpKind, v4, v6};

/// The servers that a message names, or what is wrong with it and where.
type Wanted = Result<Servers, (DhcpKind, usize)>;

const ONE: Wanted = Ok(&[(b"10.0.0.2", 8443)]);

const TWO: Wanted = Ok(&[(b"a", 80), (b"b", 443)]);

const NONE: Wanted = Ok(&[]);

fn comes_to(read: Result<Targets, DhcpFault>, want: Wanted) -> bool {
    match (read, want) {
        (Ok(targets), Ok(servers)) => are(&targets, servers),
        (Err(fault), Err((kind, place))) => fault == DhcpFault::Bad { kind, place },
        _ => false,
    }
}

// an acknowledgement: op 2, hardware type 1 with addresses of 6 bytes, no hops, then transaction, seconds, flags, four
// addresses and the hardware's (RFC 2131 section 2); `sname`, `file`, the cookie and the options follow
const FIXED: &[u8] = b"\x02\x01\x06\x00\x39\x03\xf3\x26\x00\x00\x00\x00\
\x00\x00\x00\x00\x0a\x00\x00\x09\x0a\x00\x00\x01\x00\x00\x00\x00\
\x02\x00\x5e\x10\x00\x01\x00\x00\x00\x00\x00\x00\x00\x00\x00\x00";

const COOKIE: &[u8] = b"\x63\x82\x53\x63";

const ZEROS: [u8; 128] = [0; 128];

// what a message of these parts comes to, whose two fields are filled up with zeros
fn shows4(
    alloc: Global,
    sname: &[u8],
    file: &[u8],
    cookie: &[u8],
    options: &[u8],
    want: Wanted,
) -> Result<bool, AllocError> {
    let after_sname = ZEROS.get(64 + sname.len()..).unwrap_or(b"");
    let after_file = ZEROS.get(file.len()..).unwrap_or(b"");
    let message = [FIXED, sname, after_sname, file, after_file, cookie, options].concat(alloc)?;
    Ok(comes_to(v4(alloc, message.as_slice()), want))
}

const OPTIONS: &[(&[u8], Wanted)] = &[
    // option 143 with 23 bytes: a URI of 21 (RFC 8572 sections 8.1 and 8.3), and the end
    (b"\x8f\x17\x00\x15https://10.0.0.2:8443\xff", ONE),
    // the same in two options (RFC 3396)
    (b"\x8f\x04\x00\x15ht\x8f\x13tps://10.0.0.2:8443\xff", ONE),
    // message type 5, pads, a lease, the option, and bytes after the end
    (
        b"\x35\x01\x05\x00\x00\x33\x04\x00\x00\x0e\x10\x8f\x17\x00\x15https://10.0.0.2:8443\xff\x8f",
        ONE,
    ),
    // no end
    (b"\x8f\x17\x00\x15https://10.0.0.2:8443", ONE),
    // two URIs, between them one of another scheme and one with port 0, and an empty one
    (
        b"\x8f\x2c\x00\x08http://a\x00\x07ftp://c\x00\x0ahttp://d:0\x00\x09https://b\x00\x00\xff",
        TWO,
    ),
    // no such option, and an empty one
    (b"\x35\x01\x05\xff", NONE),
    (b"\x8f\x00\xff", NONE),
    (b"", NONE),
    // a URI of 22 bytes of which 21 are there, half a length, and the second of two
    (
        b"\x8f\x17\x00\x16https://10.0.0.2:8443\xff",
        Err((DhcpKind::Uri, 0)),
    ),
    (b"\x8f\x01\x00\xff", Err((DhcpKind::Uri, 0))),
    (
        b"\x8f\x0b\x00\x08http://a\x00\xff",
        Err((DhcpKind::Uri, 10)),
    ),
    // a code alone, a length alone, and a value that ends early, also behind a bad list
    (b"\x8f", Err((DhcpKind::Short, 240))),
    (b"\x35\x01\x05\x8f\x02", Err((DhcpKind::Short, 243))),
    (b"\x00\x8f\x01\x00\x35\x02\x05", Err((DhcpKind::Short, 244))),
];

#[test]
fn option_143_is_joined_and_read(rt: HostRuntime) -> Result<(), AllocError> {
    for &(options, want) in OPTIONS {
        assert!(rt; shows4(rt.alloc(), b"", b"", COOKIE, options, want)?);
    }
    Ok(())
}

const SNAME: &[u8] = b"\x8f\x0b\x00\x09https://b\xff";

const FILE: &[u8] = b"\x00\x8f\x0a\x00\x08http://a\xff";

// `sname`, `file`, the cookie and the options
const FIELDS: &[(&[u8], &[u8], &[u8], &[u8], Wanted)] = &[
    // option 52 says which of the two fields hold options (RFC 2132 section 9.3)
    (SNAME, FILE, COOKIE, b"\x34\x01\x01\xff", Ok(&[(b"a", 80)])),
    (SNAME, FILE, COOKIE, b"\x34\x01\x02\xff", Ok(&[(b"b", 443)])),
    (SNAME, FILE, COOKIE, b"\x34\x01\x03\xff", TWO),
    (SNAME, FILE, COOKIE, b"\x34\x01\x04\xff", NONE),
    (SNAME, FILE, COOKIE, b"\xff", NONE),
    // a field that ends inside an option
    (
        &[0x35; 64],
        b"",
        COOKIE,
        b"\x34\x01\x03\xff",
        Err((DhcpKind::Short, 99)),
    ),
    // another cookie, and one that is cut
    (
        b"",
        b"",
        b"\x63\x82\x53\x64",
        b"\xff",
        Err((DhcpKind::Cookie, 236)),
    ),
    (b"", b"", b"\x63\x82\x53", b"", Err((DhcpKind::Short, 0))),
];

#[test]
fn option_52_says_which_fields_are_read(rt: HostRuntime) -> Result<(), AllocError> {
    for &(sname, file, cookie, options, want) in FIELDS {
        assert!(rt; shows4(rt.alloc(), sname, file, cookie, options, want)?);
    }
    Ok(())
}

// a reply is of type 7, and a transaction has three bytes (RFC 8415 sections 7.3 and 8)
const REPLIES: &[(&[u8], Wanted)] = &[
    // the client's and the server's identifier (RFC 8415 sections 21.2 and 21.3), then option 136 with 23 bytes
    (
        b"\x07\x3d\x1a\x22\x00\x01\x00\x04\x00\x03\x00\x01\x00\x02\x00\x02\xab\xcd\
\x00\x88\x00\x17\x00\x15https://10.0.0.2:8443",
        ONE,
    ),
    (
        b"\x07\x3d\x1a\x22\x00\x88\x00\x0a\x00\x08http://a\x00\x88\x00\x0b\x00\x09https://b",
        TWO,
    ),
    (b"\x07\x3d\x1a\x22", NONE),
    // a length of 0x0100 is more than is there
    (
        b"\x07\x3d\x1a\x22\x00\x88\x01\x00\x00\x08http://a",
        Err((DhcpKind::Short, 4)),
    ),
    (b"\x07\x3d\x1a", Err((DhcpKind::Short, 0))),
    (
        b"\x07\x3d\x1a\x22\x00\x01\x00\x00\x00",
        Err((DhcpKind::Short, 8)),
    ),
    // a list that ends early comes before an option that does
    (
        b"\x07\x3d\x1a\x22\x00\x88\x00\x02\x00\x01\x00",
        Err((DhcpKind::Uri, 0)),
    ),
    (
        b"\x07\x3d\x1a\x22\x00\x88\x00\x0b\x00\x08http://a\x00",
        Err((DhcpKind::Uri, 10)),
    ),
];

#[test]
fn each_option_136_is_a_list(rt: HostRuntime) {
    for &(message, want) in REPLIES {
        assert!(rt; comes_to(v6(rt.alloc(), message), want));
    }
}
