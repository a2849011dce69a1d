//! Certificates that other software made, one spelled by hand, what its parts may be, and each fault at its place.

mod lists;
mod vectors;

use crate::spelling::sequence;
use std::alloc::Global;
use std::test::Fail;
use sz_base::{Bytes, OutOfMemory, Seconds, base64_bytes};
use sz_x509::{Cert, CertFault, CertKind, Crl};
use vectors::{AUTHORITY, OWNER};

const DAY_1_OF_2020: Seconds = Seconds(1_577_836_800);

const DAY_1_OF_2040: Seconds = Seconds(2_208_988_800);

// The parts of TBSCertificate one after another, the algorithm, the signature, and what stands behind the certificate.
static PARTS: [&[u8]; 12] = [
    b"\xA0\x03\x02\x01\x02",
    b"\x02\x01\x07",
    b"\x30\x0D\x06\x0B\x2A\x86\x48\x86\xF7\x0D\x01\x09\x10\x03\x11",
    b"\x30\x0C\x31\x0A\x30\x08\x06\x03\x55\x04\x03\x0C\x01R",
    b"\x30\x1E\x17\x0D200101000000Z\x17\x0D400101000000Z",
    b"\x30\x0C\x31\x0A\x30\x08\x06\x03\x55\x04\x03\x0C\x01S",
    b"\x30\x4E\x30\x0D\x06\x0B\x2A\x86\x48\x86\xF7\x0D\x01\x09\x10\x03\x11\x03\x3D\x00\
        abcdefghijklmnopqrstuvwxyz0123456789ABCDEFGHIJKLMNOPQRSTUVWX",
    b"",
    b"",
    b"\x30\x0D\x06\x0B\x2A\x86\x48\x86\xF7\x0D\x01\x09\x10\x03\x11",
    b"\x03\x04\x00sig",
    b"",
];

const KEY: &[u8] = b"abcdefghijklmnopqrstuvwxyz0123456789ABCDEFGHIJKLMNOPQRSTUVWX";

// The same in one string.
const BY_HAND: &[u8] = b"\x30\x81\xBB\x30\x81\xA3\xA0\x03\x02\x01\x02\x02\x01\x07\
    \x30\x0D\x06\x0B\x2A\x86\x48\x86\xF7\x0D\x01\x09\x10\x03\x11\
    \x30\x0C\x31\x0A\x30\x08\x06\x03\x55\x04\x03\x0C\x01R\
    \x30\x1E\x17\x0D200101000000Z\x17\x0D400101000000Z\
    \x30\x0C\x31\x0A\x30\x08\x06\x03\x55\x04\x03\x0C\x01S\
    \x30\x4E\x30\x0D\x06\x0B\x2A\x86\x48\x86\xF7\x0D\x01\x09\x10\x03\x11\x03\x3D\x00\
    abcdefghijklmnopqrstuvwxyz0123456789ABCDEFGHIJKLMNOPQRSTUVWX\
    \x30\x0D\x06\x0B\x2A\x86\x48\x86\xF7\x0D\x01\x09\x10\x03\x11\x03\x04\x00sig";

// A part of bytes, which are long enough.
fn part(bytes: &[u8], from: usize, to: usize) -> &[u8] {
    bytes.get(from..to).unwrap_or(&[])
}

// What AUTHORITY says.
fn authority_in(bytes: &[u8]) -> Cert<'_> {
    Cert {
        whole: bytes,
        tbs: part(bytes, 4, 252),
        serial: b"\x14",
        issuer: b"\x30\x15\x31\x13\x30\x11\x06\x03\x55\x04\x03\x0C\x0AOwner Root",
        not_before: DAY_1_OF_2020,
        not_after: DAY_1_OF_2040,
        subject: b"\x30\x0C\x31\x0A\x30\x08\x06\x03\x55\x04\x03\x0C\x01P",
        key: part(bytes, 121, 181),
        ca: true,
        path_len: Some(1),
        usage: Some(33),
        key_id: Some(part(bytes, 232, 252)),
        signature: part(bytes, 272, 1568),
    }
}

// What OWNER says.
fn owner_in(bytes: &[u8]) -> Cert<'_> {
    Cert {
        whole: bytes,
        tbs: part(bytes, 4, 237),
        serial: b"\x18",
        issuer: b"\x30\x0C\x31\x0A\x30\x08\x06\x03\x55\x04\x03\x0C\x01C",
        not_before: DAY_1_OF_2020,
        not_after: DAY_1_OF_2040,
        subject: b"\x30\x0C\x31\x0A\x30\x08\x06\x03\x55\x04\x03\x0C\x01O",
        key: part(bytes, 112, 172),
        ca: false,
        path_len: None,
        usage: Some(1),
        key_id: Some(part(bytes, 217, 237)),
        signature: part(bytes, 257, 1553),
    }
}

// What BY_HAND says.
fn by_hand() -> Cert<'static> {
    Cert {
        whole: BY_HAND,
        tbs: part(BY_HAND, 3, 169),
        serial: b"\x07",
        issuer: PARTS[3],
        not_before: DAY_1_OF_2020,
        not_after: DAY_1_OF_2040,
        subject: PARTS[5],
        key: KEY,
        ca: false,
        path_len: None,
        usage: None,
        key_id: None,
        signature: b"sig",
    }
}

#[test]
fn certificates_with_all_fields(rt: HostRuntime) -> Result<(), Fail> {
    let authority = base64_bytes(rt.alloc(), AUTHORITY.as_bytes())?;
    let authority = authority.as_slice();
    assert!(rt; Cert::read(authority) == Ok(authority_in(authority)));
    let owner = base64_bytes(rt.alloc(), OWNER.as_bytes())?;
    let owner = owner.as_slice();
    assert!(rt; Cert::read(owner) == Ok(owner_in(owner)));
    assert!(rt; Cert::read(BY_HAND) == Ok(by_hand()));
    Ok(())
}

// The signed item of the first parts, with the two parts after them, in a SEQUENCE, and the last part behind it; the
// part at the place is another one.
fn spelled(
    alloc: Global,
    parts: &[&[u8]],
    place: usize,
    other: &[u8],
) -> Result<Bytes, OutOfMemory> {
    let mut tbs = Bytes::create(alloc);
    let mut outer = Bytes::create(alloc);
    let mut behind = Bytes::create(alloc);
    for (i, part) in parts.iter().enumerate() {
        let bytes = if i == place { other } else { *part };
        match parts.len() - i {
            1 => behind.append(bytes)?,
            2 | 3 => outer.append(bytes)?,
            _ => tbs.append(bytes)?,
        }
    }
    let mut content = sequence(alloc, tbs.as_slice())?;
    content.append(outer.as_slice())?;
    let mut whole = sequence(alloc, content.as_slice())?;
    whole.append(behind.as_slice())?;
    Ok(whole)
}

// Whether a certificate is that of an authority, its path length, its key usage and its key identifier.
type Restrictions = (bool, Option<u32>, Option<u16>, Option<&'static [u8]>);

const UNRESTRICTED: Restrictions = (false, None, None, None);

// A part in place of the one there, and what the certificate is restricted to.
static OTHER_PARTS: [(usize, &[u8], Restrictions); 21] = [
    (1, b"\x02\x01\x00", UNRESTRICTED),
    (1, b"\x02\x02\xFF\x7F", UNRESTRICTED),
    (
        4,
        b"\x30\x20\x17\x0D200101000000Z\x18\x0F20400101000000Z",
        UNRESTRICTED,
    ),
    (
        6,
        b"\x30\x50\x30\x0D\x06\x0B\x2A\x86\x48\x86\xF7\x0D\x01\x09\x10\x03\x11\x03\x3F\x00\x04\x3C\
            abcdefghijklmnopqrstuvwxyz0123456789ABCDEFGHIJKLMNOPQRSTUVWX",
        UNRESTRICTED,
    ),
    (7, b"\x81\x02\x00\x01\x82\x02\x00\x02", UNRESTRICTED),
    (7, b"\x82\x02\x00\x02", UNRESTRICTED),
    (8, b"\xA3\x02\x30\x00", UNRESTRICTED),
    (
        8,
        b"\xA3\x0D\x30\x0B\x30\x09\x06\x03\x55\x1D\x13\x04\x02\x30\x00",
        UNRESTRICTED,
    ),
    (
        8,
        b"\xA3\x13\x30\x11\x30\x0F\x06\x03\x55\x1D\x13\x01\x01\xFF\x04\x05\x30\x03\x01\x01\xFF",
        (true, None, None, None),
    ),
    (
        8,
        b"\xA3\x13\x30\x11\x30\x0F\x06\x03\x55\x1D\x13\x01\x01\x00\x04\x05\x30\x03\x01\x01\x00",
        UNRESTRICTED,
    ),
    (
        8,
        b"\xA3\x13\x30\x11\x30\x0F\x06\x03\x55\x1D\x13\x04\x08\x30\x06\x01\x01\xFF\x02\x01\x00",
        (true, Some(0), None, None),
    ),
    (
        8,
        b"\xA3\x14\x30\x12\x30\x10\x06\x03\x55\x1D\x13\x04\x09\x30\x07\x02\x05\x00\xFF\xFF\xFF\xFF",
        (false, Some(u32::MAX), None, None),
    ),
    (
        8,
        b"\xA3\x0F\x30\x0D\x30\x0B\x06\x03\x55\x1D\x0F\x04\x04\x03\x02\x07\x80",
        (false, None, Some(1), None),
    ),
    (
        8,
        b"\xA3\x0F\x30\x0D\x30\x0B\x06\x03\x55\x1D\x0F\x04\x04\x03\x02\x01\x06",
        (false, None, Some(96), None),
    ),
    (
        8,
        b"\xA3\x10\x30\x0E\x30\x0C\x06\x03\x55\x1D\x0F\x04\x05\x03\x03\x07\x00\x80",
        (false, None, Some(256), None),
    ),
    (
        8,
        b"\xA3\x10\x30\x0E\x30\x0C\x06\x03\x55\x1D\x23\x01\x01\xFF\x04\x02\xFF\xFF",
        UNRESTRICTED,
    ),
    (
        8,
        b"\xA3\x0E\x30\x0C\x30\x0A\x06\x03\x55\x1D\x25\x01\x01\xFF\x04\x00",
        UNRESTRICTED,
    ),
    (
        8,
        b"\xA3\x1A\x30\x18\x30\x0A\x06\x03\x55\x1D\x11\x01\x01\xFF\x04\x00\
            \x30\x0A\x06\x03\x55\x1D\x20\x01\x01\xFF\x04\x00",
        UNRESTRICTED,
    ),
    (
        8,
        b"\xA3\x16\x30\x14\x30\x08\x06\x03\x2A\x03\x04\x04\x01\x00\x30\x08\x06\x03\x2A\x03\x05\x04\x01\x00",
        UNRESTRICTED,
    ),
    (
        8,
        b"\xA3\x0F\x30\x0D\x30\x0B\x06\x03\x55\x1D\x0E\x04\x04\x04\x02id",
        (false, None, None, Some(b"id")),
    ),
    (
        8,
        b"\xA3\x81\xE3\x30\x81\xE0\x30\x05\x06\x01\x01\x04\x00\x30\x05\x06\x01\x02\x04\x00\
            \x30\x05\x06\x01\x03\x04\x00\x30\x05\x06\x01\x04\x04\x00\x30\x05\x06\x01\x05\x04\x00\
            \x30\x05\x06\x01\x06\x04\x00\x30\x05\x06\x01\x07\x04\x00\x30\x05\x06\x01\x08\x04\x00\
            \x30\x05\x06\x01\x09\x04\x00\x30\x05\x06\x01\x0A\x04\x00\x30\x05\x06\x01\x0B\x04\x00\
            \x30\x05\x06\x01\x0C\x04\x00\x30\x05\x06\x01\x0D\x04\x00\x30\x05\x06\x01\x0E\x04\x00\
            \x30\x05\x06\x01\x0F\x04\x00\x30\x05\x06\x01\x10\x04\x00\x30\x05\x06\x01\x11\x04\x00\
            \x30\x05\x06\x01\x12\x04\x00\x30\x05\x06\x01\x13\x04\x00\x30\x05\x06\x01\x14\x04\x00\
            \x30\x05\x06\x01\x15\x04\x00\x30\x05\x06\x01\x16\x04\x00\x30\x05\x06\x01\x17\x04\x00\
            \x30\x05\x06\x01\x18\x04\x00\x30\x05\x06\x01\x19\x04\x00\x30\x05\x06\x01\x1A\x04\x00\
            \x30\x05\x06\x01\x1B\x04\x00\x30\x05\x06\x01\x1C\x04\x00\x30\x05\x06\x01\x1D\x04\x00\
            \x30\x05\x06\x01\x1E\x04\x00\x30\x05\x06\x01\x1F\x04\x00\x30\x05\x06\x01\x20\x04\x00",
        UNRESTRICTED,
    ),
];

// The certificate with the other part at the place has the same last second and key, and these restrictions.
fn is_restricted_to(
    alloc: Global,
    place: usize,
    other: &[u8],
    restrictions: Restrictions,
) -> Result<bool, OutOfMemory> {
    let bytes = spelled(alloc, &PARTS, place, other)?;
    let Ok(cert) = Cert::read(bytes.as_slice()) else {
        return Ok(false);
    };
    Ok(
        (cert.not_after, cert.key) == (DAY_1_OF_2040, KEY)
            && (cert.ca, cert.path_len, cert.usage, cert.key_id) == restrictions,
    )
}

#[test]
fn parts_of_other_forms(rt: HostRuntime) -> Result<(), Fail> {
    for &(place, other, restrictions) in &OTHER_PARTS {
        assert!(rt; is_restricted_to(rt.alloc(), place, other, restrictions)?);
    }
    Ok(())
}

// A part in place of the one there, and the fault. The first part is at place 6, or before it where a short key makes
// lengths shorter; the extensions are at 169, their first one at 173, the signature at 184.
static FAULTS: [(usize, &[u8], CertKind, usize); 38] = [
    (0, b"", CertKind::Version, 6),
    (0, b"\xA0\x03\x02\x01\x01", CertKind::Version, 8),
    (0, b"\xA0\x05\x02\x01\x02\x05\x00", CertKind::Version, 11),
    (0, b"\xA0\x04\x02\x02\x00\x02", CertKind::Der, 8),
    (0, b"\xA0\x00", CertKind::Der, 8),
    (0, b"\xA0\x03\x04\x01\x02", CertKind::Version, 8),
    (1, b"\x02\x02\x00\x07", CertKind::Der, 11),
    (1, b"\x04\x01\x07", CertKind::Der, 11),
    (2, b"\x05\x00", CertKind::Algorithm, 14),
    (
        2,
        b"\x30\x0D\x06\x0B\x2A\x86\x48\x86\xF7\x0D\x01\x09\x10\x03\x12",
        CertKind::Algorithm,
        16,
    ),
    (
        2,
        b"\x30\x0F\x06\x0B\x2A\x86\x48\x86\xF7\x0D\x01\x09\x10\x03\x11\x05\x00",
        CertKind::Algorithm,
        29,
    ),
    (3, b"\x31\x00", CertKind::Der, 29),
    (
        4,
        b"\x30\x11\x0C\x00\x17\x0D400101000000Z",
        CertKind::Time,
        45,
    ),
    (
        4,
        b"\x30\x1E\x17\x0D200101000000Z\x17\x0D400231000000Z",
        CertKind::Time,
        60,
    ),
    (
        4,
        b"\x30\x20\x17\x0D200101000000Z\x17\x0D400101000000Z\x05\x00",
        CertKind::Der,
        75,
    ),
    (6, b"\x31\x00", CertKind::Key, 87),
    (
        6,
        b"\x30\x09\x30\x02\x06\x00\x03\x03\x00ab",
        CertKind::Algorithm,
        91,
    ),
    (
        6,
        b"\x30\x14\x30\x0D\x06\x0B\x2A\x86\x48\x86\xF7\x0D\x01\x09\x10\x03\x11\x03\x03\x00ab",
        CertKind::Key,
        105,
    ),
    (
        6,
        b"\x30\x14\x30\x0D\x06\x0B\x2A\x86\x48\x86\xF7\x0D\x01\x09\x10\x03\x11\x03\x03\x01ab",
        CertKind::Der,
        105,
    ),
    (7, b"\x82\x01\x00\x81\x01\x00", CertKind::Der, 172),
    (8, b"\xA3\x02\x31\x00", CertKind::Der, 171),
    (
        8,
        b"\xA3\x0E\x30\x0C\x30\x0A\x06\x03\x55\x1D\x1E\x01\x01\xFF\x04\x00",
        CertKind::Extension,
        173,
    ),
    (
        8,
        b"\xA3\x14\x30\x12\x30\x07\x06\x03\x2A\x03\x04\x04\x00\x30\x07\x06\x03\x2A\x03\x04\x04\x00",
        CertKind::Extension,
        182,
    ),
    (
        8,
        b"\xA3\x14\x30\x12\x30\x10\x06\x03\x55\x1D\x13\x04\x09\x30\x07\x02\x05\x01\x00\x00\x00\x00",
        CertKind::Extension,
        184,
    ),
    (
        8,
        b"\xA3\x10\x30\x0E\x30\x0C\x06\x03\x55\x1D\x13\x04\x05\x30\x03\x02\x01\xFF",
        CertKind::Extension,
        184,
    ),
    (
        8,
        b"\xA3\x0E\x30\x0C\x30\x0A\x06\x03\x55\x1D\x0F\x04\x03\x03\x01\x08",
        CertKind::Der,
        182,
    ),
    (
        8,
        b"\xA3\x0F\x30\x0D\x30\x0B\x06\x03\x55\x1D\x0F\x04\x04\x03\x02\x01\x81",
        CertKind::Der,
        182,
    ),
    (
        8,
        b"\xA3\x0E\x30\x0C\x30\x0A\x06\x03\x2A\x03\x04\x01\x01\x01\x04\x00",
        CertKind::Der,
        180,
    ),
    (
        8,
        b"\xA3\x0D\x30\x0B\x30\x09\x06\x03\x55\x1D\x0E\x04\x02\x05\x00",
        CertKind::Der,
        182,
    ),
    (8, b"\xA3\x02\x30\x00\x05\x00", CertKind::Der, 173),
    (
        8,
        b"\xA3\x81\xEA\x30\x81\xE7\x30\x05\x06\x01\x01\x04\x00\x30\x05\x06\x01\x02\x04\x00\
            \x30\x05\x06\x01\x03\x04\x00\x30\x05\x06\x01\x04\x04\x00\x30\x05\x06\x01\x05\x04\x00\
            \x30\x05\x06\x01\x06\x04\x00\x30\x05\x06\x01\x07\x04\x00\x30\x05\x06\x01\x08\x04\x00\
            \x30\x05\x06\x01\x09\x04\x00\x30\x05\x06\x01\x0A\x04\x00\x30\x05\x06\x01\x0B\x04\x00\
            \x30\x05\x06\x01\x0C\x04\x00\x30\x05\x06\x01\x0D\x04\x00\x30\x05\x06\x01\x0E\x04\x00\
            \x30\x05\x06\x01\x0F\x04\x00\x30\x05\x06\x01\x10\x04\x00\x30\x05\x06\x01\x11\x04\x00\
            \x30\x05\x06\x01\x12\x04\x00\x30\x05\x06\x01\x13\x04\x00\x30\x05\x06\x01\x14\x04\x00\
            \x30\x05\x06\x01\x15\x04\x00\x30\x05\x06\x01\x16\x04\x00\x30\x05\x06\x01\x17\x04\x00\
            \x30\x05\x06\x01\x18\x04\x00\x30\x05\x06\x01\x19\x04\x00\x30\x05\x06\x01\x1A\x04\x00\
            \x30\x05\x06\x01\x1B\x04\x00\x30\x05\x06\x01\x1C\x04\x00\x30\x05\x06\x01\x1D\x04\x00\
            \x30\x05\x06\x01\x1E\x04\x00\x30\x05\x06\x01\x1F\x04\x00\x30\x05\x06\x01\x20\x04\x00\
            \x30\x05\x06\x01\x21\x04\x00",
        CertKind::Extension,
        401,
    ),
    (
        9,
        b"\x30\x0D\x06\x0B\x2A\x86\x48\x86\xF7\x0D\x01\x09\x10\x03\x12",
        CertKind::Algorithm,
        171,
    ),
    (9, b"\x31\x00", CertKind::Algorithm, 169),
    (10, b"\x03\x02\x01\x00", CertKind::Der, 184),
    (10, b"", CertKind::Der, 184),
    (10, b"\x03\x01\x00\x05\x00", CertKind::Der, 187),
    (11, b"\x00", CertKind::Der, 190),
    (11, b"\x30\x00", CertKind::Der, 190),
];

const AT_START: CertFault = CertFault {
    kind: CertKind::Der,
    place: 0,
};

#[test]
fn each_fault_at_its_place(rt: HostRuntime) -> Result<(), Fail> {
    for &(part, other, kind, place) in &FAULTS {
        let bytes = spelled(rt.alloc(), &PARTS, part, other)?;
        assert!(rt; Cert::read(bytes.as_slice()) == Err(CertFault { kind, place }));
    }
    Ok(())
}

#[test]
fn bytes_that_end_early(rt: HostRuntime) {
    assert!(rt; Cert::read(b"") == Err(AT_START));
    assert!(rt; Cert::read(part(BY_HAND, 0, 189)) == Err(AT_START));
    assert!(rt; Crl::read(b"") == Err(AT_START));
}
