//! Tests of sz_base: texts on both sides of each form, and lists with their copies.

use std::alloc::Global;
use std::test::Fail;
use sz_base::{
    BaseFault, Bytes, Calls, Certs, Evidence, Host, Identity, OutOfMemory, Serial, Target, Targets,
    Text, Texts, base64_bytes, colon_hex, number,
};

// A form that a text may have, with the port that a target is read with.
#[derive(Clone, Copy)]
enum Form {
    Serial,
    Host,
    Target(u16),
    Base64,
}

// A form, a text of it, and what the text is read as.
static TEXTS: [(Form, &[u8], &[u8]); 21] = [
    (Form::Serial, &[b'a'; 64], &[b'a'; 64]),
    (Form::Serial, b"a", b"a"),
    (Form::Serial, b"Az09-_.:+", b"Az09-_.:+"),
    (Form::Serial, b"-", b"-"),
    (Form::Serial, b":", b":"),
    (Form::Host, &[b'a'; 255], &[b'a'; 255]),
    (Form::Host, b"Az09-_.", b"Az09-_."),
    (Form::Host, b"192.0.2.1", b"192.0.2.1"),
    (Form::Host, b"[::]", b"[::]"),
    (Form::Host, b"[2001:DB8::a]", b"[2001:DB8::a]"),
    (Form::Host, b"[::ffff:192.0.2.1]", b"[::ffff:192.0.2.1]"),
    (
        Form::Host,
        b"[:::::::::::::::::::::::::::::::::::::::::::::]",
        b"[:::::::::::::::::::::::::::::::::::::::::::::]",
    ),
    (Form::Target(1), b"a:1", b"a"),
    (Form::Target(65535), b"a.b:65535", b"a.b"),
    (Form::Target(443), b"[::1]:443", b"[::1]"),
    (Form::Base64, b"", b""),
    (Form::Base64, b"Zg==", b"f"),
    (Form::Base64, b"Zm8=", b"fo"),
    (Form::Base64, b"Zm9v", b"foo"),
    (Form::Base64, b"Zm9vYmFy", b"foobar"),
    (Form::Base64, b"+/+/", b"\xfb\xff\xbf"),
];

// A form, and a text that is not of it.
static OTHER_TEXTS: [(Form, &[u8]); 44] = [
    (Form::Serial, &[b'a'; 65]),
    (Form::Serial, b""),
    (Form::Serial, b"."),
    (Form::Serial, b".a"),
    (Form::Serial, b"a b"),
    (Form::Serial, b"a/b"),
    (Form::Serial, b"a;b"),
    (Form::Serial, b"a@b"),
    (Form::Serial, b"a[b"),
    (Form::Serial, b"a`b"),
    (Form::Serial, b"a{b"),
    (Form::Serial, b"a\x80"),
    (Form::Host, &[b'a'; 256]),
    (Form::Host, b""),
    (
        Form::Host,
        b"[::::::::::::::::::::::::::::::::::::::::::::::]",
    ),
    (Form::Host, b"a:b"),
    (Form::Host, b"a+b"),
    (Form::Host, b"::1"),
    (Form::Host, b"[]"),
    (Form::Host, b"[:1]"),
    (Form::Host, b"[::1"),
    (Form::Host, b"::1]"),
    (Form::Host, b"[::g]"),
    (Form::Target(0), b"a"),
    (Form::Target(0), b"a:"),
    (Form::Target(80), b":80"),
    (Form::Target(0), b"a:0"),
    (Form::Target(80), b"a:080"),
    (Form::Target(0), b"a:65536"),
    (Form::Target(80), b"a:+80"),
    (Form::Target(80), b"a: 80"),
    (Form::Target(80), b"a:b:80"),
    (Form::Target(80), b"::1:80"),
    (Form::Target(80), b"[:1]:80"),
    (Form::Target(1), b"[::1]"),
    (Form::Base64, b"-_-_"),
    (Form::Base64, b"YWJ"),
    (Form::Base64, b"Zg"),
    (Form::Base64, b"Zg="),
    (Form::Base64, b"Zg==="),
    (Form::Base64, b"Zh=="),
    (Form::Base64, b"Zm9="),
    (Form::Base64, b"Zm 9v"),
    (Form::Base64, b"Zm9v\n"),
];

// Whether a text of a form is read as this value, and copied as it.
fn is_read_as(alloc: Global, form: Form, text: &[u8], value: &[u8]) -> Result<bool, BaseFault> {
    match form {
        Form::Serial => is_serial(alloc, text, value),
        Form::Host => is_host(alloc, text, value),
        Form::Target(port) => is_target(alloc, text, value, port),
        Form::Base64 => is_base64(alloc, text, value),
    }
}

fn is_serial(alloc: Global, text: &[u8], value: &[u8]) -> Result<bool, BaseFault> {
    let serial = Serial::read(alloc, text)?;
    let copied = serial.copy(alloc)?;
    Ok(serial.as_slice() == value && copied.as_slice() == value)
}

fn is_host(alloc: Global, text: &[u8], value: &[u8]) -> Result<bool, BaseFault> {
    let host = Host::read(alloc, text)?;
    let copied = host.copy(alloc)?;
    Ok(host.as_slice() == value && copied.as_slice() == value)
}

fn is_target(alloc: Global, text: &[u8], host: &[u8], port: u16) -> Result<bool, BaseFault> {
    let target = Target::read(alloc, text)?.copy(alloc)?;
    Ok(target.host.as_slice() == host && target.port == port)
}

fn is_base64(alloc: Global, text: &[u8], bytes: &[u8]) -> Result<bool, BaseFault> {
    Ok(base64_bytes(alloc, text)?.as_slice() == bytes)
}

#[test]
fn texts_of_a_form_are_read(rt: HostRuntime) {
    for (form, text, value) in &TEXTS {
        assert!(rt; is_read_as(rt.alloc(), *form, text, value) == Ok(true));
    }
}

#[test]
fn other_texts_are_refused(rt: HostRuntime) {
    for (form, text) in &OTHER_TEXTS {
        assert!(rt; is_read_as(rt.alloc(), *form, text, b"") == Err(BaseFault::Form));
    }
}

// The SHA-256 of no bytes.
const DIGEST: [u8; 32] = [
    0xe3, 0xb0, 0xc4, 0x42, 0x98, 0xfc, 0x1c, 0x14, 0x9a, 0xfb, 0xf4, 0xc8, 0x99, 0x6f, 0xb9, 0x24,
    0x27, 0xae, 0x41, 0xe4, 0x64, 0x9b, 0x93, 0x4c, 0xa4, 0x95, 0x99, 0x1b, 0x78, 0x52, 0xb8, 0x55,
];

// Texts, and the bytes that their pairs stand for, if they are pairs.
static PAIR_TEXTS: [(&[u8], Option<[u8; 32]>); 8] = [
    (
        b"e3:b0:c4:42:98:fc:1c:14:9a:fb:f4:c8:99:6f:b9:24:27:ae:41:e4:64:9b:93:4c:a4:95:99:1b:78:52:b8:55",
        Some(DIGEST),
    ),
    (
        b"E3:B0:C4:42:98:FC:1C:14:9A:FB:F4:C8:99:6F:B9:24:27:AE:41:E4:64:9B:93:4C:A4:95:99:1B:78:52:B8:55",
        Some(DIGEST),
    ),
    (
        b"e3:b0:c4:42:98:fc:1c:14:9a:fb:f4:c8:99:6f:b9:24:27:ae:41:e4:64:9b:93:4c:a4:95:99:1b:78:52:b8",
        None,
    ),
    (
        b"e3:b0:c4:42:98:fc:1c:14:9a:fb:f4:c8:99:6f:b9:24:27:ae:41:e4:64:9b:93:4c:a4:95:99:1b:78:52:b8:5",
        None,
    ),
    (
        b"3:b0:c4:42:98:fc:1c:14:9a:fb:f4:c8:99:6f:b9:24:27:ae:41:e4:64:9b:93:4c:a4:95:99:1b:78:52:b8:55",
        None,
    ),
    (
        b"e3:b0:c4:42:98:fc:1c:14:9a:fb:f4:c8:99:6f:b9:24:27:ae:41:e4:64:9b:93:4c:a4:95:99:1b:78:52:b8:55:00",
        None,
    ),
    (
        b"e3:b0:c4:42:98:fc:1c:14:9a:fb:f4:c8:99:6f:b9:24:27:ae:41:e4:64:9b:93:4c:a4:95:99:1b:78:52:b8:5g",
        None,
    ),
    (
        b"e3:b0:c4:42:98:fc:1c:14:9a:fb:f4:c8:99:6f:b9:24:27:ae:41:e4:64:9b:93:4c:a4:95:99:1b:78:52:b8-55",
        None,
    ),
];

#[test]
fn pairs_are_read_in_either_case(rt: HostRuntime) {
    for (text, bytes) in &PAIR_TEXTS {
        assert!(rt; colon_hex(text) == *bytes);
    }
}

static NUMBERS: [(&[u8], Option<u64>); 9] = [
    (b"0", Some(0)),
    (b"18446744073709551615", Some(u64::MAX)),
    (b"18446744073709551616", None),
    (b"", None),
    (b"00", None),
    (b"01", None),
    (b"+1", None),
    (b"1 ", None),
    (b"1a", None),
];

#[test]
fn numbers_are_read_to_the_greatest(rt: HostRuntime) {
    for (text, value) in &NUMBERS {
        assert!(rt; number(text) == *value);
    }
}

// How many anchors an identity has, of how many bytes each, the lengths of its name and its version, and whether it is
// whole.
static IDENTITIES: [(u8, usize, usize, usize, bool); 7] = [
    (1, 65_536, 256, 256, true),
    (8, 0, 0, 0, true),
    (0, 0, 0, 0, false),
    (9, 1, 0, 0, false),
    (1, 65_537, 0, 0, false),
    (1, 1, 257, 0, false),
    (1, 1, 0, 257, false),
];

// So many of this byte.
fn filled(alloc: Global, byte: u8, length: usize) -> Result<Bytes, OutOfMemory> {
    Ok(Bytes::from_vec(vec![in alloc; byte; length]?))
}

// So many certificates of so many bytes each.
fn certificates(alloc: Global, count: u8, length: usize) -> Result<Certs, OutOfMemory> {
    let mut certificates = Certs::create(alloc);
    for _ in 0..count {
        certificates.push(filled(alloc, 7, length)?)?;
    }
    Ok(certificates)
}

// The identity of a device with these anchors, and with texts of these lengths.
fn identity(
    alloc: Global,
    anchors: Certs,
    name_length: usize,
    version_length: usize,
) -> Result<Identity, BaseFault> {
    let serial = Serial::read(alloc, b"1")?;
    let os_name = filled(alloc, b'a', name_length)?;
    let os_version = filled(alloc, b'a', version_length)?;
    Ok(Identity {
        serial,
        anchors,
        os_name,
        os_version,
    })
}

#[test]
fn identities_are_whole_up_to_their_limits(rt: HostRuntime) -> Result<(), Fail> {
    for (count, length, name_length, version_length, whole) in &IDENTITIES {
        let anchors = certificates(rt.alloc(), *count, *length)?;
        let identity = identity(rt.alloc(), anchors, *name_length, *version_length)?;
        assert!(rt; identity.copy(rt.alloc())?.is_whole() == *whole);
    }
    Ok(())
}

fn evidence_is_copied(alloc: Global) -> Result<bool, OutOfMemory> {
    let evidence = Evidence {
        ci: Bytes::from_slice(alloc, b"ci")?,
        oc: None,
        ov: Some(Bytes::from_slice(alloc, b"ov")?),
    };
    let copied = evidence.copy(alloc)?;
    let Some(ov) = &copied.ov else {
        return Ok(false);
    };
    Ok(
        copied.ci.as_slice() == b"ci".as_slice()
            && copied.oc.is_none()
            && ov.as_slice() == b"ov".as_slice(),
    )
}

fn calls_keep_their_order(alloc: Global) -> Result<bool, OutOfMemory> {
    let mut calls = Calls::create(alloc);
    let empty = calls.pop().is_none();
    for call in [5, 3, 8] {
        calls.push(call)?;
    }
    let last = calls.pop() == Some(8);
    let places = calls.get(1).is_some_and(|call| *call == 3) && calls.get(2).is_none();
    Ok(empty && last && places && calls.into_vec().as_slice() == [5, 3].as_slice())
}

// The text `abc`, copied.
fn text(alloc: Global) -> Result<Text, OutOfMemory> {
    let mut text = Text::from_slice(alloc, b"ab")?;
    text.append(b"c")?;
    text.copy(alloc)
}

fn texts_are_copied(alloc: Global) -> Result<bool, OutOfMemory> {
    let mut texts = Texts::create(alloc);
    texts.push(text(alloc)?)?;
    let copied = texts.copy(alloc)?;
    let is_equal = |text: &Text| text.as_slice() == b"abc".as_slice();
    Ok(copied.len() == 1 && copied.get(0).is_some_and(is_equal))
}

#[test]
fn lists_keep_their_items_and_copies_equal_them(rt: HostRuntime) {
    assert!(rt; evidence_is_copied(rt.alloc()) == Ok(true));
    assert!(rt; calls_keep_their_order(rt.alloc()) == Ok(true));
    assert!(rt; texts_are_copied(rt.alloc()) == Ok(true));
    assert!(rt; Targets::create(rt.alloc()).is_empty());
}
