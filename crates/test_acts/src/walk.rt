//! Whole walks over files and scripted servers: of each visit its source, its depth and its note.

ghost use Rattle.sz_base.specs.Identity.{IsWhole};
ghost use Rattle.sz_walk.specs.Walk.{IsReady};

use std::alloc::Global;
use std::test::Fail;
use sz_base::{Bytes, Calls, Evidence, Identity};
use sz_cms::identifier::{CONVEYED_JSON, CONVEYED_XML, ENVELOPED_DATA};
use sz_evidence::Reason;
use sz_fixtures::sources::{NOW, is_reason, sources};
use sz_fixtures::{add_file, artifacts, base64, folder, identity, joined, plain};
use sz_io::{Files, MemoryFolder, Script, ScriptNet, Scripts};
use sz_rest::write_reply;
use sz_samples::{ANCHOR, CERTIFICATES, INFORMATION, VOUCHER};
use sz_walk::{Note, Step, Visit, Walk};

const REDIRECT: &[u8] = br#"{"ietf-sztp-conveyed-info:redirect-information":
    {"bootstrap-server":[{"address":"b","port":80}]}}"#;

const ONBOARDING: &[u8] =
    br#"{"ietf-sztp-conveyed-info:onboarding-information":{"configuration":"YQ=="}}"#;

// What a server replies before it closes.
#[derive(Clone, Copy)]
enum Reply {
    Bytes(&'static [u8]),
    // conveyed information of a type that is not signed
    Plain(&'static [u8], &'static [u8]),
    // a redirect to so many servers, at least one
    RedirectTo(u8),
    // evidence that is right, with or without the owner certificate
    Signed { owner: bool },
}

const RIGHT: Reply = Reply::Signed { owner: true };

const MANY: Reply = Reply::RedirectTo(40);

const LOOP: Reply = Reply::Plain(&CONVEYED_JSON, REDIRECT);

// A redirect to so many servers, at least one.
fn redirect_to(alloc: Global, count: u8) -> Result<Bytes, Fail> {
    let before = br#"{"ietf-sztp-conveyed-info:redirect-information":{"bootstrap-server":["#;
    let mut content = Bytes::from_slice(alloc, before)?;
    for _ in 1..count {
        content.append(br#"{"address":"b"},"#)?;
    }
    content.append(br#"{"address":"b"}]}}"#)?;
    plain(alloc, &CONVEYED_JSON, content.as_slice())
}

// Evidence of conveyed information and nothing beside it.
fn alone(ci: Bytes) -> Evidence {
    Evidence {
        ci,
        oc: None,
        ov: None,
    }
}

fn signed(alloc: Global, owner: bool) -> Result<Evidence, Fail> {
    let certificates = if owner { Some(CERTIFICATES) } else { None };
    artifacts(alloc, INFORMATION, certificates, VOUCHER)
}

fn bytes_of(alloc: Global, reply: Reply) -> Result<Bytes, Fail> {
    let evidence = match reply {
        Reply::Bytes(bytes) => return Ok(Bytes::from_slice(alloc, bytes)?),
        Reply::Plain(kind, content) => alone(plain(alloc, kind, content)?),
        Reply::RedirectTo(count) => alone(redirect_to(alloc, count)?),
        Reply::Signed { owner } => signed(alloc, owner)?,
    };
    Ok(write_reply(alloc, &evidence)?)
}

fn network(alloc: Global, replies: &[Reply]) -> Result<ScriptNet, Fail> {
    let mut scripts = Scripts::create(alloc);
    for reply in replies {
        scripts.push(Script {
            bytes: bytes_of(alloc, *reply)?,
            closed: true,
        })?;
    }
    Ok(ScriptNet::create(alloc, scripts, Calls::create(alloc)))
}

// A DHCPv4 message before its cookie and options, each field 0 (RFC 2131 section 3).
const DHCP4: &[u8] = &[0; 236];

// The path of a file, and two parts of its bytes.
static FILES: [(&[u8], &[u8], &[u8]); 4] = [
    // the cookie, two URIs in option 143, and the end (RFC 8572 section 8.1)
    (
        b"v4",
        DHCP4,
        b"\x63\x82\x53\x63\x8f\x15\x00\x08http://a\x00\x09https://b\xff",
    ),
    // a reply whose option 136 has one URI (RFC 8572 section 8.2)
    (
        b"v6",
        b"\x07\x00\x00\x01",
        b"\x00\x88\x00\x0a\x00\x08http://c",
    ),
    // an answer to `_sztp._tcp.d` with one record of type 33 (RFC 2782)
    (
        b"dns",
        b"\x00\x01\x81\x80\x00\x01\x00\x01\x00\x00\x00\x00\x05_sztp\x04_tcp\x01d\x00\x00\x21\x00\x01",
        b"\xc0\x0c\x00\x21\x00\x01\x00\x00\x0e\x10\x00\x0a\x00\x00\x00\x00\x00\x50\x01e\xc0\x17",
    ),
    (b"short", b"\x00", b"\x01"),
];

fn messages(alloc: Global) -> Result<MemoryFolder, Fail> {
    let mut files = Files::create(alloc);
    for &(path, front, back) in &FILES {
        let bytes = joined(alloc, &[front, back])?;
        add_file(alloc, &mut files, path, bytes.as_slice())?;
    }
    Ok(folder(alloc, files, 0)?)
}

// The note of a visit.
#[derive(Clone, Copy)]
enum Told {
    Listed(u16),
    Redirected(u16),
    Accepted,
    Refused(u8, &'static str),
}

// The number of a source, the redirects before the visit, and its note.
type Line = (u16, u8, Told);

fn is_line(visit: &Visit, line: &Line) -> bool {
    let (source, depth, told) = line;
    visit.source == *source && visit.depth == *depth && is_told(&visit.note, *told)
}

fn is_told(note: &Note, told: Told) -> bool {
    match (note, told) {
        (Note::Listed(count), Told::Listed(wanted)) => *count == wanted,
        (Note::Redirected(count), Told::Redirected(wanted)) => *count == wanted,
        (Note::Accepted, Told::Accepted) => true,
        (Note::Refused(reason), Told::Refused(number, name)) => is_reason(reason, number, name),
        _ => false,
    }
}

// A walk, how many of its offers are turned down, and its visits.
struct Row {
    sources: &'static [&'static [u8]],
    replies: &'static [Reply],
    turned_down: u8,
    visits: &'static [Line],
}

// Goes on until nothing is left or an offer is taken; so many offers are turned down before.
fn finished(
    mut walk: Walk,
    folder: &mut MemoryFolder,
    net: &mut ScriptNet,
    identity: &Identity,
    most: u8,
) -> Result<Walk, Fail>
    requires { IsReady identity.now walk.walked }
{
    let mut turned_down = 0;
    'calls: for _ in 0..600 {
        match walk.next(folder, net, identity, NOW) {
            Step::Passed => {}
            Step::Done => break 'calls,
            Step::Offer(..) => {
                if turned_down >= most {
                    break 'calls;
                }
                walk.refuse(Reason::NoImageHash);
                turned_down += 1;
            }
            Step::OutOfMemory => return Err("out of memory".into()),
        }
    }
    Ok(walk)
}

// The walk of this device to its end.
fn walk_of(alloc: Global, row: &Row, identity: &Identity) -> Result<Walk, Fail>
    requires { IsWhole identity.now }
{
    let mut folder = messages(alloc)?;
    let mut net = network(alloc, row.replies)?;
    let sources = sources(alloc, row.sources)?;
    if sources.len() > 16 {
        return Err("too many sources".into());
    }
    let walk = Walk::create(alloc, sources)?;
    finished(walk, &mut folder, &mut net, identity, row.turned_down)
}

// Whether the walk of the device A1 has the visits of its row, and hands them out.
fn shows(alloc: Global, row: &Row) -> Result<bool, Fail> {
    let identity = identity(alloc, base64(alloc, ANCHOR)?)?;
    let walk = walk_of(alloc, row, &identity)?;
    let same = are_lines(walk.visits(), row.visits);
    Ok(same && walk.finish().len() == row.visits.len())
}

fn are_lines(visits: &[Visit], lines: &[Line]) -> bool {
    visits.len() == lines.len()
        && visits
            .iter()
            .zip(lines)
            .all(|(visit, line)| is_line(visit, line))
}

static WALKS: [Row; 6] = [
    // a refusal of each kind, and behind it the next source
    Row {
        sources: &[
            b"usb:x",
            b"dhcp4:short",
            b"dns:short:d",
            b"server:a:1",
            b"server:a:1",
            b"server:a:1",
            b"server:a:1",
            b"server:a:1",
            b"server:a:1",
            b"server:a:1",
            b"server:a:1",
            b"server:a:1",
            b"server:a:1",
            b"server:a:1",
            b"server:a:1",
            b"server:a:1",
        ],
        replies: &[
            Reply::Bytes(b"HTTP/1.1 200 OK\r\n"),
            Reply::Bytes(b"HTTP/9 200 OK\r\n\r\n"),
            Reply::Bytes(b"HTTP/1.1 200 OK\r\nTransfer-Encoding: gzip\r\n\r\n"),
            Reply::Bytes(b"HTTP/1.1 200 OK\r\nContent-Length: 6291457\r\n\r\n"),
            Reply::Bytes(b"HTTP/1.1 404 Not Found\r\nContent-Length: 0\r\n\r\n"),
            Reply::Bytes(
                b"HTTP/1.1 200 OK\r\nContent-Length: 69\r\n\r\n\
            {\"ietf-sztp-bootstrap-server:output\":{\"conveyed-information\":\"YWJj\"}}",
            ),
            Reply::Plain(b"\x2A\x03", ONBOARDING),
            Reply::Plain(&CONVEYED_XML, ONBOARDING),
            Reply::Plain(&ENVELOPED_DATA, ONBOARDING),
            Reply::Plain(&CONVEYED_JSON, ONBOARDING),
            Reply::Signed { owner: false },
            Reply::Plain(&CONVEYED_JSON, b"{}"),
        ],
        turned_down: 0,
        visits: &[
            (0, 0, Told::Refused(2, "Absent")),
            (1, 0, Told::Refused(8, "BadOption")),
            (2, 0, Told::Refused(9, "BadName")),
            (3, 0, Told::Refused(3, "EndedEarly")),
            (4, 0, Told::Refused(4, "BadHttp")),
            (5, 0, Told::Refused(5, "Coding")),
            (6, 0, Told::Refused(6, "TooLarge")),
            (7, 0, Told::Refused(7, "Status")),
            (8, 0, Told::Refused(10, "BadDer")),
            (9, 0, Told::Refused(11, "BadCms")),
            (10, 0, Told::Refused(12, "XmlContent")),
            (11, 0, Told::Refused(13, "Encrypted")),
            (12, 0, Told::Refused(14, "Unsigned")),
            (13, 0, Told::Refused(15, "NoChain")),
            (14, 0, Told::Refused(16, "Member")),
            (15, 0, Told::Refused(1, "Lost")),
        ],
    },

    // all five kinds of sources; what a message lists is visited before the next source
    Row {
        sources: &[
            b"usb:x",
            b"dhcp4:v4",
            b"dhcp6:v6",
            b"dns:dns:d",
            b"server:z:80",
        ],
        replies: &[],
        turned_down: 0,
        visits: &[
            (0, 0, Told::Refused(2, "Absent")),
            (1, 0, Told::Listed(2)),
            (1, 0, Told::Refused(1, "Lost")),
            (1, 0, Told::Refused(1, "Lost")),
            (2, 0, Told::Listed(1)),
            (2, 0, Told::Refused(1, "Lost")),
            (3, 0, Told::Listed(1)),
            (3, 0, Told::Refused(1, "Lost")),
            (4, 0, Told::Refused(1, "Lost")),
        ],
    },
    // a server that always redirects to itself, and behind it one that is right
    Row {
        sources: &[b"server:b:80", b"server:c:80", b"server:d:80"],
        replies: &[
            LOOP, LOOP, LOOP, LOOP, LOOP, LOOP, LOOP, LOOP, LOOP, LOOP, LOOP, RIGHT,
        ],
        turned_down: 0,
        visits: &[
            (0, 0, Told::Redirected(1)),
            (0, 1, Told::Redirected(1)),
            (0, 2, Told::Redirected(1)),
            (0, 3, Told::Redirected(1)),
            (0, 4, Told::Redirected(1)),
            (0, 5, Told::Redirected(1)),
            (0, 6, Told::Redirected(1)),
            (0, 7, Told::Redirected(1)),
            (0, 8, Told::Redirected(1)),
            (0, 9, Told::Redirected(1)),
            (0, 10, Told::Refused(24, "Depth")),
            (1, 0, Told::Accepted),
        ],
    },
    // a server that always redirects to 40 servers, of which none is visited past the 32nd visit
    Row {
        sources: &[b"server:a:80", b"server:c:80", b"server:d:80"],
        replies: &[
            MANY, MANY, MANY, MANY, MANY, MANY, MANY, MANY, MANY, MANY, MANY, MANY, MANY, MANY,
            MANY, MANY, MANY, MANY, MANY, MANY, MANY, MANY, MANY, MANY, MANY, MANY, MANY, MANY,
            MANY, MANY, MANY, MANY, RIGHT,
        ],
        turned_down: 0,
        visits: &[
            (0, 0, Told::Redirected(40)),
            (0, 1, Told::Redirected(40)),
            (0, 2, Told::Redirected(40)),
            (0, 3, Told::Redirected(40)),
            (0, 4, Told::Redirected(40)),
            (0, 5, Told::Redirected(40)),
            (0, 6, Told::Redirected(40)),
            (0, 7, Told::Redirected(40)),
            (0, 8, Told::Redirected(40)),
            (0, 9, Told::Redirected(40)),
            (0, 10, Told::Refused(24, "Depth")),
            (0, 10, Told::Refused(24, "Depth")),
            (0, 10, Told::Refused(24, "Depth")),
            (0, 10, Told::Refused(24, "Depth")),
            (0, 10, Told::Refused(24, "Depth")),
            (0, 10, Told::Refused(24, "Depth")),
            (0, 10, Told::Refused(24, "Depth")),
            (0, 10, Told::Refused(24, "Depth")),
            (0, 10, Told::Refused(24, "Depth")),
            (0, 10, Told::Refused(24, "Depth")),
            (0, 10, Told::Refused(24, "Depth")),
            (0, 10, Told::Refused(24, "Depth")),
            (0, 10, Told::Refused(24, "Depth")),
            (0, 10, Told::Refused(24, "Depth")),
            (0, 10, Told::Refused(24, "Depth")),
            (0, 10, Told::Refused(24, "Depth")),
            (0, 10, Told::Refused(24, "Depth")),
            (0, 10, Told::Refused(24, "Depth")),
            (0, 10, Told::Refused(24, "Depth")),
            (0, 10, Told::Refused(24, "Depth")),
            (0, 10, Told::Refused(24, "Depth")),
            (0, 10, Told::Refused(24, "Depth")),
            (0, 10, Told::Refused(25, "BudgetSpent")),
            (1, 0, Told::Accepted),
        ],
    },
    // an offer that is turned down is followed by the next source, and one that is taken by none
    Row {
        sources: &[b"server:a:80", b"server:b:80", b"server:c:80"],
        replies: &[RIGHT, RIGHT, RIGHT],
        turned_down: 1,
        visits: &[
            (0, 0, Told::Refused(21, "NoImageHash")),
            (1, 0, Told::Accepted),
        ],
    },
    // a redirect that isn't signed is followed
    Row {
        sources: &[b"server:a:80"],
        replies: &[LOOP, RIGHT],
        turned_down: 0,
        visits: &[(0, 0, Told::Redirected(1)), (0, 1, Told::Accepted)],
    },
];

#[test]
fn walks_end_with_an_offer_or_the_last_source(rt: HostRuntime) -> Result<(), Fail> {
    for row in &WALKS {
        assert!(rt; shows(rt.alloc(), row)?);
    }
    Ok(())
}
