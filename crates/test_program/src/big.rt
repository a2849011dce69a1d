//! A device whose keys, evidence and image are large, on a disk in memory: it is made, installs its image at one boot,
//! is committed at the next, and is shown and audited.

use crate::site::{ALONE, Given, Row, Site, fresh_disks, outcome, prints};
use base64::engine::general_purpose::STANDARD;
use std::alloc::Global;
use std::test::Fail;
use std::thread::Threads;
use sz_base::{Bytes, OutOfMemory};
use sz_fixtures::{CertTemplate, EvidenceTemplate, Keys, ROOT, add_file, folder};
use sz_io::{Files, MemoryFolder};
use sz_rest::write_reply;

// 256 MiB
const SIZE: u64 = 268_435_456;

// the identity file of the device, before and behind the certificate that it trusts
const IDENTITY_BEFORE: &[u8] =
    br#"{"serial": "A1", "os-name": "os", "os-version": "1", "anchors": [""#;

const IDENTITY_BEHIND: &[u8] = br#""]}"#;

// the information, before and behind the configuration; the digest is that of 40,000,000 letters `Z`, as sha256sum of
// coreutils prints it
const INFORMATION_BEFORE: &[u8] = br#"{"ietf-sztp-conveyed-info:onboarding-information":{
    "boot-image":{"os-name":"os","os-version":"2","download-uri":["http://10.0.0.2:8080/os"],
    "image-verification":[{"hash-algorithm":"ietf-sztp-conveyed-info:sha-256","hash-value":
    "05:2a:3f:bd:c8:b8:d5:79:a8:55:98:b2:6e:37:a0:30:f7:bb:32:cf:08:f3:5d:76:8b:78:ed:43:e3:22:c1:1d"}]},
    "configuration":""#;

const INFORMATION_BEHIND: &[u8] = br#""}}"#;

const IMAGE_HEAD: &[u8] = b"HTTP/1.1 200 OK\r\nContent-Length: 40000000\r\n\r\n";

// option 143 with one URI, and the end (RFC 8572 section 8.1)
const OPTIONS: &[u8] = b"\x63\x82\x53\x63\x8F\x17\x00\x15https://10.0.0.2:8443\xFF";

const INIT: &[&[u8]] = &[b"init", b"id", b"@d"];

const ONBOARD: &[&[u8]] = &[b"onboard", b"@d", b"usb:e", b"dhcp4:dhcp"];

const SHOW: &[&[u8]] = &[b"show", b"@d"];

const AUDIT: &[&[u8]] = &[b"audit", b"@d"];

const INSTALLED: &[u8] = b"source 1 depth 0 usb:e: 2 Absent\nsource 2 depth 0 file:dhcp: listed 1\n\
    source 2 depth 0 10.0.0.2:8443: accepted\ninstalled A1 os 2, restart\n";

const ONBOARDED: &[u8] = b"source 1 depth 0 usb:e: 2 Absent\nsource 2 depth 0 file:dhcp: listed 1\n\
    source 2 depth 0 10.0.0.2:8443: accepted\nonboarded A1\n";

// what `show` prints at the end: the second digest is that of 20,000 letters `a`
const SHOWN: &[u8] = b"serial A1\nstage onboarded\nrunning os 2\nimage 0 40000000 \
    052a3fbdc8b8d579a85598b26e37a030f7bb32cf08f35d768b78ed43e322c11d\nconfiguration 20000 \
    cc17faaad36649c4603dda4d8ff97cb149722af0bcac0746305a2134ad2d0b97\n";

const AUDITED: &[u8] = b"image authorised\nconfiguration authorised\n";

// what the committed device is shown and audited as
static KEPT: [Row<'static>; 2] = [(SHOW, ALONE, SHOWN, 0), (AUDIT, ALONE, AUDITED, 0)];

// the maker, two intermediates, the voucher's signer below them, and the owner, whose own certificate is pinned
const MAKER: CertTemplate = CertTemplate {
    subject: b'm',
    issuer: b'm',
    ..ROOT
};

const UPPER: CertTemplate = CertTemplate {
    subject: b'u',
    issuer: b'm',
    key: 2,
    ..ROOT
};

const LOWER: CertTemplate = CertTemplate {
    subject: b'l',
    issuer: b'u',
    key: 3,
    by: 2,
    ..ROOT
};

const SIGNER: CertTemplate = CertTemplate {
    subject: b's',
    issuer: b'l',
    key: 4,
    by: 3,
    ca: false,
    ..ROOT
};

const OWNER: CertTemplate = CertTemplate {
    subject: b'o',
    issuer: b'o',
    key: 5,
    by: 5,
    ..ROOT
};

const EVIDENCE: EvidenceTemplate = EvidenceTemplate {
    serial: "A1",
    nonce: None,
    revocation: false,
    pinned: OWNER,
    maker: SIGNER,
    maker_certs: &[SIGNER, LOWER, UPPER],
    owner: OWNER,
    owner_certs: &[],
    crl: None,
};

// the levels of each key: two trees, each of 1,024 leaves
const LEVELS: &[u8] = b"10/4,10/4";

// these bytes in base64, between others
fn with_base64(alloc: Global, before: &[u8], bytes: &[u8], behind: &[u8]) -> Result<Bytes, Fail> {
    let text = STANDARD.encode(alloc, bytes)?;
    let mut whole = Bytes::from_slice(alloc, before)?;
    whole.append(text.as_bytes())?;
    whole.append(behind)?;
    Ok(whole)
}

// these bytes, and behind them a block so many times
fn repeated(alloc: Global, before: &[u8], block: &[u8], times: u32) -> Result<Bytes, OutOfMemory> {
    let mut bytes = Bytes::from_slice(alloc, before)?;
    for _ in 0..times {
        bytes.append(block)?;
    }
    Ok(bytes)
}

// the information: an image of 40,000,000 bytes and a configuration of 20,000
fn information(alloc: Global) -> Result<Bytes, Fail> {
    let configuration = repeated(alloc, b"", &[b'a'; 1000], 20)?;
    with_base64(
        alloc,
        INFORMATION_BEFORE,
        configuration.as_slice(),
        INFORMATION_BEHIND,
    )
}

// the reply that gives the image
fn image(alloc: Global) -> Result<Bytes, OutOfMemory> {
    repeated(alloc, IMAGE_HEAD, &[b'Z'; 4000], 10_000)
}

// a folder with the identity of a device that trusts this anchor, and the DHCPv4 message that names the server
fn device_folder(alloc: Global, anchor: &[u8]) -> Result<MemoryFolder, Fail> {
    let identity = with_base64(alloc, IDENTITY_BEFORE, anchor, IDENTITY_BEHIND)?;
    let mut message = Bytes::from_slice(alloc, &[0; 236])?;
    message.append(OPTIONS)?;
    let mut files = Files::create(alloc);
    add_file(alloc, &mut files, b"id", identity.as_slice())?;
    add_file(alloc, &mut files, b"dhcp", message.as_slice())?;
    Ok(folder(alloc, files, 0)?)
}

// whether a boot over a server that gives these replies in turn prints this text and ends with this status; and what
// stays
fn boots<'a, R: Threads + Sync>(
    rt: &R,
    alloc: Global,
    site: Site,
    replies: (&'a [u8], &'a [u8]),
    text: &'static [u8],
    status: u8,
) -> Result<(bool, Site), OutOfMemory> {
    let (first, second) = replies;
    let given = Given {
        replies: &[first, second],
        ..ALONE
    };
    let (out, got, site) = outcome(rt, alloc, ONBOARD, &given, site)?;
    Ok((out.bytes() == text && got == status, site))
}

#[test]
fn a_device_installs_a_large_image_and_is_committed_at_its_next_boot(
    rt: HostRuntime,
) -> Result<(), Fail> {
    let alloc = rt.alloc();
    let mut keys = Keys::create(&rt, alloc, LEVELS, 5)?;
    let evidence = keys.evidence(&rt, alloc, &EVIDENCE, information(alloc)?.as_slice())?;
    let evidence = write_reply(alloc, &evidence)?;
    let anchor = keys.cert(&rt, alloc, &MAKER)?;
    let image = image(alloc)?;
    let site = Site {
        disks: fresh_disks(alloc, &[(b"@d", SIZE)])?,
        folder: device_folder(alloc, anchor.as_slice())?,
    };
    let (is_made, site) = prints(&rt, alloc, site, &[(INIT, ALONE, b"initialised A1\n", 0)])?;
    let replies = (evidence.as_slice(), image.as_slice());
    let (installs, site) = boots(&rt, alloc, site, replies, INSTALLED, 10)?;
    let replies = (evidence.as_slice(), b"".as_slice());
    let (commits, site) = boots(&rt, alloc, site, replies, ONBOARDED, 0)?;
    let (is_shown, _) = prints(&rt, alloc, site, &KEPT)?;
    assert!(rt; is_made && installs && commits && is_shown);
    Ok(())
}
