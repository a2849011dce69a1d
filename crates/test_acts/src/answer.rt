//! A visit of each kind of item, and each kind of answer.

use std::alloc::Global;
use std::test::Fail;
use sz_answer::{Answer, visit};
use sz_base::{Target, Targets, Text};
use sz_fixtures::disks::zeros;
use sz_fixtures::sources::{NOW, is_reason};
use sz_fixtures::{add_file, base64, folder, identity, servers};
use sz_io::{Files, MemoryFolder, ScriptNet};
use sz_samples::{ANCHOR, CERTIFICATES, INFORMATION, VOUCHER};
use sz_source::{Item, Source};

// An answer, with the first server that it names.
#[derive(Clone, Copy)]
enum Told {
    Listed(&'static [u8], u16),
    Redirected(&'static [u8], u16),
    Offered,
    Refused(u8, &'static str),
}

fn is_told(answer: &Answer, told: Told) -> bool {
    match (answer, told) {
        (Answer::Listed(targets), Told::Listed(host, port)) => names_first(targets, host, port),
        (Answer::Redirected(targets), Told::Redirected(host, port)) => {
            names_first(targets, host, port)
        }
        (Answer::Offered(..), Told::Offered) => true,
        (Answer::Refused(reason), Told::Refused(number, name)) => is_reason(reason, number, name),
        _ => false,
    }
}

fn names_first(targets: &Targets, host: &[u8], port: u16) -> bool {
    match targets.get(0) {
        Some(target) => target.host.as_slice() == host && target.port == port,
        None => false,
    }
}

// What a visit by the device A1 comes to.
fn visited(
    alloc: Global,
    mut folder: MemoryFolder,
    mut net: ScriptNet,
    source: &Source,
    item: &Item,
) -> Result<Answer, Fail> {
    let identity = identity(alloc, base64(alloc, ANCHOR)?)?;
    Ok(visit(alloc, &mut folder, &mut net, &identity, NOW, source, item)?)
}

// What a visit of this source comes to over a folder of these files.
fn visited_files(alloc: Global, word: &[u8], files: Files, fails: u64) -> Result<Answer, Fail> {
    let source = Source::read(alloc, word)?;
    let item = source.item(alloc)?;
    let folder = folder(alloc, files, fails)?;
    visited(alloc, folder, servers(alloc, &[], 0)?, &source, &item)
}

// A source; the path of the one file, how many zeros and then which bytes it has; the call of the folder that fails;
// the answer.
static FILES: [(&[u8], &[u8], usize, &[u8], u64, Told); 10] = [
    (USB, CONVEYED, 0, b"abc", 0, Told::Refused(10, "BadDer")),
    (USB, CONVEYED, 0, b"abc", 1, Told::Refused(1, "Lost")),
    (
        USB,
        CONVEYED,
        1_048_577,
        b"",
        0,
        Told::Refused(6, "TooLarge"),
    ),
    (USB, CONVEYED, 0, UNSIGNED, 0, Told::Refused(14, "Unsigned")),
    (USB, CONVEYED, 0, REDIRECT, 0, Told::Redirected(b"b", 80)),
    (
        DHCP4,
        b"m",
        236,
        OPTION_143,
        0,
        Told::Listed(b"10.0.0.2", 8443),
    ),
    (DHCP4, b"m", 65_536, b"", 0, Told::Refused(6, "TooLarge")),
    (
        DHCP6,
        b"m",
        0,
        OPTION_136,
        0,
        Told::Listed(b"10.0.0.2", 8443),
    ),
    (
        DNS,
        b"m",
        0,
        SERVICE,
        0,
        Told::Listed(b"a.example.com", 443),
    ),
    (DNS, b"m", 0, POINTER, 0, Told::Refused(9, "BadName")),
];

const USB: &[u8] = b"usb:usb";

const DHCP4: &[u8] = b"dhcp4:m";

const DHCP6: &[u8] = b"dhcp6:m";

const DNS: &[u8] = b"dns:m:example.com";

const CONVEYED: &[u8] = b"usb/conveyed-information.cms";

// Onboarding information in a message that is not signed, made by other software.
const UNSIGNED: &[u8] =
    b"\x30\x81\x8b\x06\x0b\x2a\x86\x48\x86\xf7\x0d\x01\x09\x10\x01\x2b\xa0\x7c\x04\x7a\
{\"ietf-sztp-conveyed-info:onboarding-information\":{\"configuration\":\"aG9zdG5hbWUgYTEK\",\
\"configuration-handling\":\"replace\"}}";

// The same kind of message with a redirect to the host `b`, port 80.
const REDIRECT: &[u8] =
    b"\x30\x72\x06\x0b\x2a\x86\x48\x86\xf7\x0d\x01\x09\x10\x01\x2b\xa0\x63\x04\x61\
{\"ietf-sztp-conveyed-info:redirect-information\":{\"bootstrap-server\":[{\"address\":\"b\",\"port\":80}]}}";

// The cookie of DHCP and option 143 with one URI.
const OPTION_143: &[u8] = b"\x63\x82\x53\x63\x8f\x17\x00\x15https://10.0.0.2:8443\xff";

// A type, a transaction and option 136 with one URI.
const OPTION_136: &[u8] = b"\x07\x00\x00\x00\x00\x88\x00\x17\x00\x15https://10.0.0.2:8443";

// An answer with one record of `_sztp._tcp.example.com`, and a question whose name points to itself.
const SERVICE: &[u8] = b"\x12\x34\x81\x80\x00\x01\x00\x01\x00\x00\x00\x00\
\x05_sztp\x04_tcp\x07example\x03com\x00\x00\x21\x00\x01\
\xc0\x0c\x00\x21\x00\x01\x00\x00\x0e\x10\x00\x0a\x00\x14\x00\x05\x01\xbb\x01a\xc0\x17";

const POINTER: &[u8] = b"\x12\x34\x81\x80\x00\x01\x00\x00\x00\x00\x00\x00\xc0\x0c\x00\x21\x00\x01";

// A file of so many zeros and these bytes.
fn one_file(alloc: Global, path: &[u8], count: usize, bytes: &[u8]) -> Result<Files, Fail> {
    let mut content = zeros(alloc, count)?;
    content.append(bytes)?;
    let mut files = Files::create(alloc);
    add_file(alloc, &mut files, path, content.as_slice())?;
    Ok(files)
}

#[test]
fn storage_and_messages_come_to_servers_or_are_refused(rt: HostRuntime) -> Result<(), Fail> {
    for &(word, path, count, bytes, fails, told) in &FILES {
        let files = one_file(rt.alloc(), path, count, bytes)?;
        let answer = visited_files(rt.alloc(), word, files, fails)?;
        assert!(rt; is_told(&answer, told));
    }
    Ok(())
}

// Storage with evidence that authorises onboarding information.
static ARTIFACTS: [(&[u8], &str); 3] = [
    (CONVEYED, INFORMATION),
    (b"usb/owner-certificate.cms", CERTIFICATES),
    (b"usb/ownership-voucher.cms", VOUCHER),
];

fn storage(alloc: Global) -> Result<Files, Fail> {
    let mut files = Files::create(alloc);
    for &(path, artifact) in &ARTIFACTS {
        let bytes = base64(alloc, artifact)?;
        add_file(alloc, &mut files, path, bytes.as_slice())?;
    }
    Ok(files)
}

// What a visit of a file comes to whose source has no messages.
fn visited_message(alloc: Global) -> Result<Answer, Fail> {
    let source = Source::read(alloc, USB)?;
    let item = Item::File(Text::from_slice(alloc, CONVEYED)?);
    let folder = folder(alloc, storage(alloc)?, 0)?;
    visited(alloc, folder, servers(alloc, &[], 0)?, &source, &item)
}

#[test]
fn storage_is_an_offer_and_none_of_its_files_a_message(rt: HostRuntime) -> Result<(), Fail> {
    let answer = visited_files(rt.alloc(), USB, storage(rt.alloc())?, 0)?;
    assert!(rt; is_told(&answer, Told::Offered));
    let answer = visited_message(rt.alloc())?;
    assert!(rt; is_told(&answer, Told::Refused(2, "Absent")));
    Ok(())
}

// What a server replies, the call of the network that fails, and the answer.
static REPLIES: [(&[u8], u64, Told); 4] = [
    (ABC, 0, Told::Refused(10, "BadDer")),
    (ABC, 1, Told::Refused(1, "Lost")),
    (b"HTTP/1.1 200 OK\r\n", 0, Told::Refused(3, "EndedEarly")),
    (
        b"HTTP/1.1 200 OK\r\nContent-Length: 2\r\n\r\n{}",
        0,
        Told::Refused(16, "Member"),
    ),
];

// The conveyed information `abc` and nothing else.
const ABC: &[u8] = b"HTTP/1.1 200 OK\r\nContent-Length: 69\r\n\r\n\
{\"ietf-sztp-bootstrap-server:output\":{\"conveyed-information\":\"YWJj\"}}";

fn visited_server(alloc: Global, reply: &[u8], fails: u64) -> Result<Answer, Fail> {
    let source = Source::Server(Target::read(alloc, b"10.0.0.2:8443")?);
    let item = source.item(alloc)?;
    let folder = folder(alloc, Files::create(alloc), 0)?;
    let net = servers(alloc, &[reply], fails)?;
    visited(alloc, folder, net, &source, &item)
}

#[test]
fn servers_are_refused_for_their_first_fault(rt: HostRuntime) -> Result<(), Fail> {
    for &(reply, fails, told) in &REPLIES {
        let answer = visited_server(rt.alloc(), reply, fails)?;
        assert!(rt; is_told(&answer, told));
    }
    Ok(())
}
