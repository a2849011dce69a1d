//! Messages by hand and of other software, each kind of content, each kind of fault at its place, limits, attributes,
//! and what is written.

mod vectors;

ghost use Rattle.std.specs.Prelude.{◌≡◌, [], ◌∷◌, IfOk};
ghost use Rattle.sz_cms.specs.Kind.{IsWritten};

use crate::spelling::{nested, sequence};
use std::alloc::Global;
use std::test::Fail;
use sz_base::{Bytes, Certs, OutOfMemory, base64_bytes};
use sz_cms::{
    Identifier, Info, InfoFault, InfoKind, Kind, Signed, identifier, write_attributes, write_certs,
    write_plain, write_signed,
};
use sz_der::DerWriter;
use sz_der::tag::{CONTEXT_CONSTRUCTED, OBJECT_IDENTIFIER};
use vectors::{KEY_IDENTIFIER, OWNER, UNSIGNED, WITHOUT_ATTRIBUTES, XML};

// The signed data that the bytes are.
fn signed_of<'a>(bytes: &'a [u8]) -> Option<Signed<'a>> {
    match Info::read(bytes) {
        Ok(Info::Signed(signed)) => Some(signed),
        _ => None,
    }
}

// The bytes are signed data without a content and signers, with these certificates and lists.
fn is_alone(bytes: &[u8], certs: &[&[u8]], crls: &[&[u8]]) -> bool {
    let Some(signed) = signed_of(bytes) else {
        return false;
    };
    signed.content.is_none()
        && signed.signers.is_empty()
        && signed.certs.as_slice() == certs
        && signed.crls.as_slice() == crls
}

// Both are the same.
fn is_kind(kind: Kind<'_>, expected: Kind<'_>) -> bool {
    match (kind, expected) {
        (Kind::Data, Kind::Data)
        | (Kind::Voucher, Kind::Voucher)
        | (Kind::ConveyedJson, Kind::ConveyedJson)
        | (Kind::ConveyedXml, Kind::ConveyedXml)
        | (Kind::Enveloped, Kind::Enveloped) => true,
        (Kind::Other(identifier), Kind::Other(other)) => identifier == other,
        _ => false,
    }
}

// The bytes are a message of this type and content that is not signed.
fn is_plain(bytes: &[u8], expected: Kind<'_>, held: &[u8]) -> bool {
    match Info::read(bytes) {
        Ok(Info::Plain { kind, content }) => is_kind(kind, expected) && content == held,
        _ => false,
    }
}

// A message of the type with this identifier, that holds these items.
fn plain(alloc: Global, identifier: &[u8], inner: &[u8]) -> Result<Bytes, OutOfMemory> {
    let mut info = DerWriter::create(alloc)?;
    info.item(OBJECT_IDENTIFIER, identifier)?;
    info.item(CONTEXT_CONSTRUCTED, inner)?;
    sequence(alloc, info.as_slice())
}

// The octets of identifiers, the types that have them, what a message holds, and its content.
static KINDS: [(&[u8], Kind<'static>, &[u8], &[u8]); 6] = [
    (
        b"\x2A\x86\x48\x86\xF7\x0D\x01\x07\x01",
        Kind::Data,
        b"\x04\x01a",
        b"a",
    ),
    (
        b"\x2A\x86\x48\x86\xF7\x0D\x01\x09\x10\x01\x28",
        Kind::Voucher,
        b"\x04\x01a",
        b"a",
    ),
    (
        b"\x2A\x86\x48\x86\xF7\x0D\x01\x09\x10\x01\x2B",
        Kind::ConveyedJson,
        b"\x04\x01a",
        b"a",
    ),
    (
        b"\x2A\x86\x48\x86\xF7\x0D\x01\x09\x10\x01\x2A",
        Kind::ConveyedXml,
        b"\x04\x01a",
        b"a",
    ),
    (
        b"\x2A\x86\x48\x86\xF7\x0D\x01\x07\x03",
        Kind::Enveloped,
        b"\x30\x05\x02\x01\x00\x31\x00",
        b"",
    ),
    (b"\x2A\x03", Kind::Other(b"\x2A\x03"), b"\x04\x01a", b"a"),
];

#[test]
fn each_kind_by_its_name(rt: HostRuntime) -> Result<(), Fail> {
    for &(identifier, kind, inner, content) in &KINDS {
        let bytes = plain(rt.alloc(), identifier, inner)?;
        assert!(rt; kind.identifier() == identifier);
        assert!(rt; is_plain(bytes.as_slice(), kind, content));
    }
    Ok(())
}

// The message of the content `a` of id-data.
const PLAIN: &[u8] = b"\x30\x10\x06\x09\x2A\x86\x48\x86\xF7\x0D\x01\x07\x01\xA0\x03\x04\x01a";

#[test]
fn the_layout_of_a_plain_message(rt: HostRuntime) -> Result<(), Fail> {
    let written = write_plain(rt.alloc(), Kind::Data, b"a")?;
    assert!(rt; written.as_slice() == PLAIN);
    Ok(())
}

const OWNER_ROOT: &[u8] = b"\x30\x15\x31\x13\x30\x11\x06\x03\x55\x04\x03\x0C\x0AOwner Root";

const KEY_ID: &[u8] =
    b"\xA7\xFE\xAB\x04\xEE\x26\xBE\x0E\xCA\x03\xAF\x74\x16\xE3\x45\x6F\x2B\x93\xE4\x73";

// The content of each, in JSON.
const CONVEYED: &[u8] = b"{\"ietf-sztp-conveyed-info:onboarding-information\":\
    {\"configuration\":\"aG9zdG5hbWUgYTEK\",\"configuration-handling\":\"replace\"}}";

// Signed messages of other software: the type, what their signer is known by, and whether it has signed attributes.
static SIGNED_BY_OTHERS: [(&str, Kind<'static>, Identifier<'static>, bool); 3] = [
    (
        KEY_IDENTIFIER,
        Kind::ConveyedJson,
        Identifier::KeyId(KEY_ID),
        true,
    ),
    (
        WITHOUT_ATTRIBUTES,
        Kind::Data,
        Identifier::IssuerSerial {
            issuer: OWNER_ROOT,
            serial: b"\x0B",
        },
        false,
    ),
    (
        XML,
        Kind::ConveyedXml,
        Identifier::IssuerSerial {
            issuer: OWNER_ROOT,
            serial: b"\x0A",
        },
        true,
    ),
];

// Both are the same.
fn is_known_by(identifier: Identifier<'_>, expected: Identifier<'_>) -> bool {
    match (identifier, expected) {
        (Identifier::KeyId(octets), Identifier::KeyId(others)) => octets == others,
        (
            Identifier::IssuerSerial { issuer, serial },
            Identifier::IssuerSerial {
                issuer: other,
                serial: number,
            },
        ) => issuer == other && serial == number,
        _ => false,
    }
}

// The signed message has the type and the conveyed content, and one signer, which is known by this and fits.
fn is_signed(
    bytes: &[u8],
    kind: Kind<'_>,
    identifier: Identifier<'_>,
    has_attributes: bool,
) -> bool {
    let Some(signed) = signed_of(bytes) else {
        return false;
    };
    let [signer] = signed.signers.as_slice() else {
        return false;
    };
    is_kind(signed.kind, kind)
        && signed.content == Some(CONVEYED)
        && is_known_by(signer.identifier, identifier)
        && signer.attributes.is_some() == has_attributes
        && signer.signature.len() == 1296
        && signer.digest_fits(signed.kind, CONVEYED)
        && signer.digest_fits(signed.kind, b"") != has_attributes
}

#[test]
fn signed_messages_of_other_software(rt: HostRuntime) -> Result<(), Fail> {
    for &(text, kind, identifier, has_attributes) in &SIGNED_BY_OTHERS {
        let bytes = base64_bytes(rt.alloc(), text.as_bytes())?;
        assert!(rt; is_signed(bytes.as_slice(), kind, identifier, has_attributes));
    }
    Ok(())
}

#[test]
fn a_message_of_other_software_that_is_not_signed(rt: HostRuntime) -> Result<(), Fail> {
    let bytes = base64_bytes(rt.alloc(), UNSIGNED.as_bytes())?;
    assert!(rt; is_plain(bytes.as_slice(), Kind::ConveyedJson, CONVEYED));
    Ok(())
}

#[test]
fn a_certificate_alone_of_other_software(rt: HostRuntime) -> Result<(), Fail> {
    let bytes = base64_bytes(rt.alloc(), OWNER.as_bytes())?;
    let cert = bytes.as_slice().get(45..1619).ok_or("short")?;
    assert!(rt; is_alone(bytes.as_slice(), &[cert], &[]));
    Ok(())
}

// Messages of id-data and of signed data, and the place of their first fault.
static FAULTS: [(&[u8], InfoKind, usize); 10] = [
    (b"", InfoKind::Der, 0),
    (&[0; 16], InfoKind::Shape, 0),
    (
        b"\x30\x0B\x06\x09\x2A\x86\x48\x86\xF7\x0D\x01\x07\x01",
        InfoKind::Der,
        13,
    ),
    (
        b"\x30\x0D\x06\x09\x2A\x86\x48\x86\xF7\x0D\x01\x07\x01\xA0\x80",
        InfoKind::Der,
        13,
    ),
    (
        b"\x30\x10\x06\x09\x2A\x86\x48\x86\xF7\x0D\x01\x07\x01\xA0\x03\x02\x01a",
        InfoKind::Shape,
        15,
    ),
    (
        b"\x30\x12\x06\x09\x2A\x86\x48\x86\xF7\x0D\x01\x07\x01\xA0\x05\x04\x01a\x05\x00",
        InfoKind::Shape,
        18,
    ),
    (
        b"\x30\x12\x06\x09\x2A\x86\x48\x86\xF7\x0D\x01\x07\x01\xA0\x03\x04\x01a\x05\x00",
        InfoKind::Shape,
        18,
    ),
    (
        b"\x30\x10\x06\x09\x2A\x86\x48\x86\xF7\x0D\x01\x07\x01\xA0\x03\x04\x01a\x05\x00",
        InfoKind::Shape,
        18,
    ),
    (
        b"\x30\x10\x06\x09\x2A\x86\x48\x86\xF7\x0D\x01\x07\x01\xA0\x03\x04\x01a\x05",
        InfoKind::Der,
        18,
    ),
    // A version in more octets than it needs.
    (
        b"\x30\x13\x06\x09\x2A\x86\x48\x86\xF7\x0D\x01\x07\x02\xA0\x06\x30\x04\x02\x02\x00\x01",
        InfoKind::Der,
        17,
    ),
];

#[test]
fn each_fault_at_its_place(rt: HostRuntime) {
    for &(bytes, kind, place) in &FAULTS {
        assert!(rt; Info::read(bytes).err() == Some(InfoFault { kind, place }));
    }
}

// SEQUENCEs without content, as an issuer without names, and with a NULL.
const EMPTY: &[u8] = b"\x30\x00";

const WITH_NULL: &[u8] = b"\x30\x02\x05\x00";

const VERSION: &[u8] = b"\x01";

const SHA_256_ITEM: &[u8] = b"\x06\x09\x60\x86\x48\x01\x65\x03\x04\x02\x01";

const HSS_LMS_ITEM: &[u8] = b"\x06\x0B\x2A\x86\x48\x86\xF7\x0D\x01\x09\x10\x03\x11";

const DATA_ITEM: &[u8] = b"\x06\x09\x2A\x86\x48\x86\xF7\x0D\x01\x07\x01";

// A signer with a key identifier, with these attributes where there are any, and with unsigned ones.
fn signer(alloc: Global, attributes: Option<&[u8]>, unsigned: &[u8]) -> Result<Bytes, OutOfMemory> {
    let mut parts = DerWriter::create(alloc)?;
    parts.item(0x02, VERSION)?;
    parts.item(0x80, b"\x07")?;
    parts.item(0x30, SHA_256_ITEM)?;
    if let Some(attributes) = attributes {
        parts.item(0xA0, attributes)?;
    }
    parts.item(0x30, HSS_LMS_ITEM)?;
    parts.item(0x04, b"\x09")?;
    if !unsigned.is_empty() {
        parts.item(0xA1, unsigned)?;
    }
    sequence(alloc, parts.as_slice())
}

// Signed data of id-data without content, with these certificates, revocation lists and signers.
fn message(alloc: Global, certs: &[u8], crls: &[u8], signers: &[u8]) -> Result<Bytes, OutOfMemory> {
    let mut parts = DerWriter::create(alloc)?;
    parts.item(0x02, VERSION)?;
    parts.item(0x31, b"")?;
    parts.item(0x30, DATA_ITEM)?;
    if !certs.is_empty() {
        parts.item(0xA0, certs)?;
    }
    if !crls.is_empty() {
        parts.item(0xA1, crls)?;
    }
    parts.item(0x31, signers)?;
    let data = sequence(alloc, parts.as_slice())?;
    plain(alloc, &identifier::SIGNED_DATA, data.as_slice())
}

// So many copies, one after another.
fn copies(alloc: Global, bytes: &[u8], count: u8) -> Result<Bytes, OutOfMemory> {
    let mut copies = Bytes::create(alloc);
    for _ in 0..count {
        copies.append(bytes)?;
    }
    Ok(copies)
}

// Certificates, lists and signers of a message, and the limit that is passed, with its place.
static COUNTS: [(u8, u8, u8, Option<(u8, usize)>); 4] = [
    (16, 8, 4, None),
    (17, 0, 0, Some((16, 69))),
    (0, 9, 0, Some((8, 53))),
    (0, 0, 5, Some((4, 197))),
];

// So many signers, one after another.
fn signers_of(alloc: Global, count: u8) -> Result<Bytes, OutOfMemory> {
    let one = signer(alloc, None, b"")?;
    copies(alloc, one.as_slice(), count)
}

// A message with so many certificates, lists and signers.
fn message_of(alloc: Global, certs: u8, crls: u8, signers: u8) -> Result<Bytes, OutOfMemory> {
    let certs = copies(alloc, EMPTY, certs)?;
    let crls = copies(alloc, EMPTY, crls)?;
    let signers = signers_of(alloc, signers)?;
    message(alloc, certs.as_slice(), crls.as_slice(), signers.as_slice())
}

#[test]
fn as_many_as_are_kept(rt: HostRuntime) -> Result<(), Fail> {
    for &(certs, crls, signers, over) in &COUNTS {
        let bytes = message_of(rt.alloc(), certs, crls, signers)?;
        let expected = over.map(|(limit, place)| InfoFault {
            kind: InfoKind::TooMany { limit },
            place,
        });
        assert!(rt; Info::read(bytes.as_slice()).err() == expected);
    }
    Ok(())
}

#[test]
fn certificates_and_lists_of_other_forms_are_passed_over(rt: HostRuntime) -> Result<(), Fail> {
    let bytes = message(
        rt.alloc(),
        b"\xA1\x00\x30\x00\x02\x01\x00",
        b"\xA1\x00",
        b"",
    )?;
    assert!(rt; is_alone(bytes.as_slice(), &[EMPTY], &[]));
    Ok(())
}

const TYPE: &[u8] =
    b"\x30\x18\x06\x09\x2A\x86\x48\x86\xF7\x0D\x01\x09\x03\x31\x0B\x06\x09\x2A\x86\x48\x86\xF7\x0D\x01\x07\x01";

const DIGEST: &[u8] = b"\x30\x10\x06\x09\x2A\x86\x48\x86\xF7\x0D\x01\x09\x04\x31\x03\x04\x01\x00";

const NO_VALUE: &[u8] = b"\x30\x0D\x06\x09\x2A\x86\x48\x86\xF7\x0D\x01\x09\x04\x31\x00";

const TWO_VALUES: &[u8] =
    b"\x30\x13\x06\x09\x2A\x86\x48\x86\xF7\x0D\x01\x09\x04\x31\x06\x04\x01\x00\x04\x01\x00";

const OTHER_TAG: &[u8] =
    b"\x30\x10\x06\x09\x2A\x86\x48\x86\xF7\x0D\x01\x09\x04\x31\x03\x02\x01\x00";

const OTHER_TYPE: &[u8] = b"\x30\x07\x06\x01\x2A\x31\x02\x30\x80";

// Three attributes of a signer, and their fault, with its place before the end of the attributes.
static ATTRIBUTES: [([&[u8]; 3], Option<(InfoKind, usize)>); 9] = [
    ([OTHER_TYPE, TYPE, DIGEST], None),
    ([b"", b"", b""], Some((InfoKind::Attribute, 0))),
    ([b"", b"", TYPE], Some((InfoKind::Attribute, 0))),
    ([b"", OTHER_TYPE, DIGEST], Some((InfoKind::Attribute, 0))),
    ([TYPE, DIGEST, TYPE], Some((InfoKind::Attribute, 24))),
    ([DIGEST, TYPE, DIGEST], Some((InfoKind::Attribute, 16))),
    ([b"", TYPE, NO_VALUE], Some((InfoKind::Attribute, 0))),
    ([b"", TYPE, TWO_VALUES], Some((InfoKind::Attribute, 3))),
    ([b"", TYPE, OTHER_TAG], Some((InfoKind::Shape, 3))),
];

// The message of a signer with these attributes has this fault.
fn is_refused(
    alloc: Global,
    attributes: &[&[u8]; 3],
    fault: Option<(InfoKind, usize)>,
) -> Result<bool, OutOfMemory> {
    let mut joined = Bytes::create(alloc);
    for attribute in attributes {
        joined.append(attribute)?;
    }
    let signer = signer(alloc, Some(joined.as_slice()), b"")?;
    let bytes = message(alloc, b"", b"", signer.as_slice())?;
    // An algorithm and a signature of 18 bytes stand behind the attributes.
    let end = bytes.len().saturating_sub(18);
    let expected = fault.map(|(kind, before)| InfoFault {
        kind,
        place: end.saturating_sub(before),
    });
    Ok(Info::read(bytes.as_slice()).err() == expected)
}

#[test]
fn rules_on_attributes(rt: HostRuntime) -> Result<(), Fail> {
    for (attributes, fault) in &ATTRIBUTES {
        assert!(rt; is_refused(rt.alloc(), attributes, *fault)?);
    }
    Ok(())
}

fn has_one_signer(bytes: &[u8]) -> bool {
    match signed_of(bytes) {
        Some(signed) => signed.signers.len() == 1,
        None => false,
    }
}

#[test]
fn deep_messages(rt: HostRuntime) -> Result<(), Fail> {
    let deep = nested(rt.alloc(), 10_000)?;
    let passed_over = signer(rt.alloc(), None, deep.as_slice())?;
    let bytes = message(rt.alloc(), b"", b"", passed_over.as_slice())?;
    assert!(rt; has_one_signer(bytes.as_slice()));
    Ok(())
}

#[test]
fn large_messages(rt: HostRuntime) -> Result<(), Fail> {
    let mut large = Bytes::create(rt.alloc());
    for _ in 0..1024 {
        large.append(&[0x30; 1024])?;
    }
    let bytes = write_plain(rt.alloc(), Kind::Data, large.as_slice())?;
    assert!(rt; is_plain(bytes.as_slice(), Kind::Data, large.as_slice()));
    Ok(())
}

// The attributes of the content `a` of id-data, with the digest of FIPS 180-4.
const SIGNED: &[u8] = b"\x31\x4B\
    \x30\x18\x06\x09\x2A\x86\x48\x86\xF7\x0D\x01\x09\x03\x31\x0B\x06\x09\x2A\x86\x48\x86\xF7\x0D\x01\x07\x01\
    \x30\x2F\x06\x09\x2A\x86\x48\x86\xF7\x0D\x01\x09\x04\x31\x22\x04\x20\
    \xCA\x97\x81\x12\xCA\x1B\xBD\xCA\xFA\xC2\x31\xB3\x9A\x23\xDC\x4D\
    \xA7\x86\xEF\xF8\x14\x7C\x4E\x72\xB9\x80\x77\x85\xAF\xEE\x48\xBB";

// What stands before the attributes, and behind them.
const BEFORE: &[u8] =
    b"\x30\x81\xB7\x06\x09\x2A\x86\x48\x86\xF7\x0D\x01\x07\x02\xA0\x81\xA9\x30\x81\xA6\
    \x02\x01\x01\x31\x0D\x30\x0B\x06\x09\x60\x86\x48\x01\x65\x03\x04\x02\x01\
    \x30\x10\x06\x09\x2A\x86\x48\x86\xF7\x0D\x01\x07\x01\xA0\x03\x04\x01a\xA0\x02\x30\x00\
    \x31\x7C\x30\x7A\x02\x01\x01\x30\x05\x30\x00\x02\x01\x05\x30\x0B\x06\x09\x60\x86\x48\x01\x65\x03\x04\x02\x01\xA0";

const BEHIND: &[u8] =
    b"\x30\x0D\x06\x0B\x2A\x86\x48\x86\xF7\x0D\x01\x09\x10\x03\x11\x04\x05\x00\x01\x02\x03\x04";

// The message of a content, as it is written.
fn written(alloc: Global, kind: Kind<'_>, content: &[u8]) -> Result<Bytes, OutOfMemory>
    requires { IsWritten kind }
{
    let certs = one(alloc)?;
    let attributes = write_attributes(alloc, kind, content)?;
    write_signed(
        alloc,
        kind,
        content,
        &certs,
        EMPTY,
        b"\x05",
        attributes.as_slice(),
        b"\x00\x01\x02\x03\x04",
    )
}

// The layout of that message.
fn layout(alloc: Global, untagged: &[u8]) -> Result<Bytes, OutOfMemory> {
    let mut layout = Bytes::from_slice(alloc, BEFORE)?;
    layout.append(untagged)?;
    layout.append(BEHIND)?;
    Ok(layout)
}

// The message has the content `a`, one certificate, and one signer, which covers the attributes and fits no other
// content or type.
fn covers(bytes: &[u8], untagged: &[u8]) -> bool {
    let Some(read) = signed_of(bytes) else {
        return false;
    };
    let [signer] = read.signers.as_slice() else {
        return false;
    };
    let covered = signer.covered(b"a");
    read.content == Some(b"a".as_slice())
        && read.certs.as_slice() == [EMPTY].as_slice()
        && covered.first == Some(0x31)
        && covered.rest == untagged
        && signer.digest_fits(Kind::Data, b"a")
        && !signer.digest_fits(Kind::Voucher, b"a")
        && !signer.digest_fits(Kind::Data, b"b")
}

#[test]
fn the_layout_of_a_signed_message(rt: HostRuntime) -> Result<(), Fail> {
    let attributes = write_attributes(rt.alloc(), Kind::Data, b"a")?;
    assert!(rt; attributes.as_slice() == SIGNED);
    let untagged = SIGNED.get(1..).ok_or("empty")?;
    let layout = layout(rt.alloc(), untagged)?;
    assert!(rt; written(rt.alloc(), Kind::Data, b"a")?.as_slice() == layout.as_slice());
    assert!(rt; covers(layout.as_slice(), untagged));
    Ok(())
}

// A voucher, and conveyed information, each of the content `{}`: signed data of version 3, one digest algorithm, a
// signer of version 1, and the shorter attribute before the longer one.
const WRITTEN_VOUCHER: &[u8] = b"\
    \x30\x81\xBC\x06\x09\x2A\x86\x48\x86\xF7\x0D\x01\x07\x02\xA0\x81\xAE\x30\x81\xAB\
    \x02\x01\x03\
    \x31\x0D\x30\x0B\x06\x09\x60\x86\x48\x01\x65\x03\x04\x02\x01\
    \x30\x13\x06\x0B\x2A\x86\x48\x86\xF7\x0D\x01\x09\x10\x01\x28\xA0\x04\x04\x02\x7B\x7D\
    \xA0\x02\x30\x00\
    \x31\x7E\x30\x7C\
    \x02\x01\x01\x30\x05\x30\x00\x02\x01\x05\
    \x30\x0B\x06\x09\x60\x86\x48\x01\x65\x03\x04\x02\x01\
    \xA0\x4D\
    \x30\x1A\x06\x09\x2A\x86\x48\x86\xF7\x0D\x01\x09\x03\x31\x0D\x06\x0B\x2A\x86\x48\x86\xF7\x0D\x01\x09\x10\
    \x01\x28\
    \x30\x2F\x06\x09\x2A\x86\x48\x86\xF7\x0D\x01\x09\x04\x31\x22\x04\x20\
    \x44\x13\x6F\xA3\x55\xB3\x67\x8A\x11\x46\xAD\x16\xF7\xE8\x64\x9E\
    \x94\xFB\x4F\xC2\x1F\xE7\x7E\x83\x10\xC0\x60\xF6\x1C\xAA\xFF\x8A\
    \x30\x0D\x06\x0B\x2A\x86\x48\x86\xF7\x0D\x01\x09\x10\x03\x11\
    \x04\x05\x00\x01\x02\x03\x04";

const WRITTEN_INFORMATION: &[u8] = b"\
    \x30\x81\xBC\x06\x09\x2A\x86\x48\x86\xF7\x0D\x01\x07\x02\xA0\x81\xAE\x30\x81\xAB\
    \x02\x01\x03\
    \x31\x0D\x30\x0B\x06\x09\x60\x86\x48\x01\x65\x03\x04\x02\x01\
    \x30\x13\x06\x0B\x2A\x86\x48\x86\xF7\x0D\x01\x09\x10\x01\x2B\xA0\x04\x04\x02\x7B\x7D\
    \xA0\x02\x30\x00\
    \x31\x7E\x30\x7C\
    \x02\x01\x01\x30\x05\x30\x00\x02\x01\x05\
    \x30\x0B\x06\x09\x60\x86\x48\x01\x65\x03\x04\x02\x01\
    \xA0\x4D\
    \x30\x1A\x06\x09\x2A\x86\x48\x86\xF7\x0D\x01\x09\x03\x31\x0D\x06\x0B\x2A\x86\x48\x86\xF7\x0D\x01\x09\x10\
    \x01\x2B\
    \x30\x2F\x06\x09\x2A\x86\x48\x86\xF7\x0D\x01\x09\x04\x31\x22\x04\x20\
    \x44\x13\x6F\xA3\x55\xB3\x67\x8A\x11\x46\xAD\x16\xF7\xE8\x64\x9E\
    \x94\xFB\x4F\xC2\x1F\xE7\x7E\x83\x10\xC0\x60\xF6\x1C\xAA\xFF\x8A\
    \x30\x0D\x06\x0B\x2A\x86\x48\x86\xF7\x0D\x01\x09\x10\x03\x11\
    \x04\x05\x00\x01\x02\x03\x04";

#[test]
fn the_layout_of_a_voucher_and_of_conveyed_information(rt: HostRuntime) -> Result<(), Fail> {
    assert!(rt; written(rt.alloc(), Kind::Voucher, b"{}")?.as_slice() == WRITTEN_VOUCHER);
    assert!(rt; written(rt.alloc(), Kind::ConveyedJson, b"{}")?.as_slice() == WRITTEN_INFORMATION);
    Ok(())
}

// Two certificates and a revocation list, each a SEQUENCE, which nobody signs.
const ALONE: &[u8] =
    b"\x30\x2F\x06\x09\x2A\x86\x48\x86\xF7\x0D\x01\x07\x02\xA0\x22\x30\x20\x02\x01\x01\x31\x00\
    \x30\x0B\x06\x09\x2A\x86\x48\x86\xF7\x0D\x01\x07\x01\xA0\x06\x30\x00\x30\x02\x05\x00\xA1\x02\x30\x00\x31\x00";

// A list of one SEQUENCE without content.
fn one(alloc: Global) -> Result<Certs, OutOfMemory>
    ensures { IfOk result (λ certs. certs ≡ (48 ∷ 0 ∷ []) ∷ []) }
{
    let mut certs = Certs::create(alloc);
    certs.push(Bytes::from_slice(alloc, b"\x30\x00")?)?;
    Ok(certs)
}

// The same, and another SEQUENCE.
fn two(alloc: Global) -> Result<Certs, OutOfMemory>
    ensures { IfOk result (λ certs. certs ≡ (48 ∷ 0 ∷ []) ∷ (48 ∷ 2 ∷ 5 ∷ 0 ∷ []) ∷ []) }
{
    let mut certs = one(alloc)?;
    certs.push(Bytes::from_slice(alloc, b"\x30\x02\x05\x00")?)?;
    Ok(certs)
}

// Their message, as it is written.
fn certs_written(alloc: Global) -> Result<Bytes, OutOfMemory> {
    let certs = two(alloc)?;
    let lists = one(alloc)?;
    write_certs(alloc, &certs, &lists)
}

#[test]
fn the_layout_of_certificates_alone(rt: HostRuntime) -> Result<(), Fail> {
    assert!(rt; certs_written(rt.alloc())?.as_slice() == ALONE);
    assert!(rt; is_alone(ALONE, &[EMPTY, WITH_NULL], &[EMPTY]));
    Ok(())
}
