//! Texts that are URIs of HTTP, and others.

use crate::wanted::is_at;
use std::alloc::Global;
use sz_base::BaseFault;
use sz_uri::Uri;

// a text, the host and the port that it names, and what is asked for there
const URIS: &[(&[u8], &[u8], u16, &[u8])] = &[
    (b"https://10.0.0.2:8443", b"10.0.0.2", 8443, b"/"),
    (b"http://sim/images/a", b"sim", 80, b"/images/a"),
    (b"https://boot.example.com", b"boot.example.com", 443, b"/"),
    (
        b"HTTPS://Boot.Example.com/A",
        b"boot.example.com",
        443,
        b"/A",
    ),
    (b"http://h/a?", b"h", 80, b"/a?"),
    (b"http://h/a?b=c#d", b"h", 80, b"/a?b=c"),
    (b"http://user:word@h:81/", b"h", 81, b"/"),
    (
        b"http://[2001:db8::1]:80/a b",
        b"[2001:db8::1]",
        80,
        b"/a%20b",
    ),
    (b"http://a_b-c.d:65535", b"a_b-c.d", 65535, b"/"),
];

fn gives(
    alloc: Global,
    text: &[u8],
    host: &[u8],
    port: u16,
    asked: &[u8],
) -> Result<bool, BaseFault> {
    let uri = Uri::read(alloc, text)?;
    Ok(is_at(&uri.target, host, port) && uri.path_and_query.as_slice() == asked)
}

#[test]
fn uris_of_http_give_a_target_and_what_to_ask_for(rt: HostRuntime) -> Result<(), BaseFault> {
    for &(text, host, port, asked) in URIS {
        assert!(rt; gives(rt.alloc(), text, host, port, asked)?);
    }
    Ok(())
}

const OTHERS: &[&[u8]] = &[
    b"",
    b"10.0.0.2:8443",
    b"/a",
    b"ftp://h/a",
    b"coap://h",
    b"file:///a",
    b"http://",
    b"http://h:0/",
    b"http://h:65536/",
    b"http://a!b/",
    b"http://a~b/",
    b"http://\xff/",
];

#[test]
fn other_texts_are_refused(rt: HostRuntime) {
    for &text in OTHERS {
        assert!(rt; Uri::read(rt.alloc(), text).err() == Some(BaseFault::Form));
    }
}
