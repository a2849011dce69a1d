//! A revocation list spelled by hand, what its parts may be, and each fault at its place.

use super::{DAY_1_OF_2020, DAY_1_OF_2040, part, spelled};
use std::alloc::Global;
use std::test::Fail;
use sz_base::OutOfMemory;
use sz_x509::{CertFault, CertKind, Crl};

// The parts of TBSCertList one after another, the algorithm, the signature, and what stands behind the list.
static PARTS: [&[u8]; 10] = [
    b"\x02\x01\x01",
    b"\x30\x0D\x06\x0B\x2A\x86\x48\x86\xF7\x0D\x01\x09\x10\x03\x11",
    b"\x30\x0C\x31\x0A\x30\x08\x06\x03\x55\x04\x03\x0C\x01R",
    b"\x17\x0D200101000000Z",
    b"\x17\x0D400101000000Z",
    b"\x30\x3A\x30\x12\x02\x01\x07\x17\x0D210101000000Z\
        \x30\x24\x02\x02\x00\x80\x17\x0D220101000000Z\
        \x30\x0F\x30\x0D\x06\x03\x55\x1D\x15\x01\x01\x00\x04\x03\x0A\x01\x01",
    b"\xA0\x0E\x30\x0C\x30\x0A\x06\x03\x55\x1D\x14\x04\x03\x02\x01\x09",
    b"\x30\x0D\x06\x0B\x2A\x86\x48\x86\xF7\x0D\x01\x09\x10\x03\x11",
    b"\x03\x04\x00sig",
    b"",
];

// What the parts say in these bytes.
fn by_hand(bytes: &[u8]) -> Crl<'_> {
    Crl {
        whole: bytes,
        tbs: part(bytes, 3, 144),
        issuer: PARTS[2],
        this_update: DAY_1_OF_2020,
        next_update: Some(DAY_1_OF_2040),
        entries: part(PARTS[5], 2, 60),
        signature: b"sig",
    }
}

// Serial numbers, and whether the list has them.
static SERIALS: [(&[u8], bool); 4] = [
    (b"\x07", true),
    (b"\x00\x80", true),
    (b"\x80", false),
    (b"", false),
];

#[test]
fn one_spelled_by_hand(rt: HostRuntime) -> Result<(), Fail> {
    let bytes = spelled(rt.alloc(), &PARTS, 9, b"")?;
    let list = Crl::read(bytes.as_slice())?;
    assert!(rt; list == by_hand(bytes.as_slice()));
    for &(serial, listed) in &SERIALS {
        assert!(rt; list.lists(serial) == listed);
    }
    Ok(())
}

// A part in place of the one there, whether nextUpdate is there, and whether serial number 7 is listed.
static OTHER_PARTS: [(usize, &[u8], bool, bool); 5] = [
    (0, b"", true, true),
    (4, b"", false, true),
    (4, b"\x18\x0F20500101000000Z", true, true),
    (5, b"\x30\x00", true, false),
    (6, b"", true, true),
];

// The list with the other part at the place has a next update, and serial number 7, where these say so.
fn says(
    alloc: Global,
    place: usize,
    other: &[u8],
    next_update: bool,
    listed: bool,
) -> Result<bool, OutOfMemory> {
    let bytes = spelled(alloc, &PARTS, place, other)?;
    let Ok(list) = Crl::read(bytes.as_slice()) else {
        return Ok(false);
    };
    Ok(list.next_update.is_some() == next_update && list.lists(b"\x07") == listed)
}

#[test]
fn parts_of_other_forms(rt: HostRuntime) -> Result<(), Fail> {
    for &(place, other, next_update, listed) in &OTHER_PARTS {
        assert!(rt; says(rt.alloc(), place, other, next_update, listed)?);
    }
    Ok(())
}

// A part in place of the one there, and the fault. The first part is at place 6, or before it where a short part makes
// lengths shorter; nextUpdate is at 53, the first of the list's extensions at 132, the signature at 159.
static FAULTS: [(usize, &[u8], CertKind, usize); 14] = [
    (0, b"\x02\x01\x00", CertKind::Version, 6),
    (0, b"\x02\x02\x00\x01", CertKind::Der, 6),
    (0, b"\xA0\x03\x02\x01\x01", CertKind::Algorithm, 6),
    (1, b"\x05\x00", CertKind::Algorithm, 8),
    (3, b"\x0C\x00", CertKind::Time, 37),
    (4, b"\x17\x0D400231000000Z", CertKind::Time, 53),
    (4, b"\x05\x00", CertKind::Der, 52),
    (5, b"\x30\x02\x05\x00", CertKind::Der, 68),
    (
        5,
        b"\x30\x14\x30\x12\x04\x01\x07\x17\x0D210101000000Z",
        CertKind::Der,
        70,
    ),
    (
        5,
        b"\x30\x14\x30\x12\x02\x01\x07\x17\x0D210100000000Z",
        CertKind::Time,
        73,
    ),
    (
        5,
        b"\x30\x20\x30\x1E\x02\x01\x07\x17\x0D210101000000Z\x30\x0A\x30\x08\x06\x00\x01\x01\xFF\x04\x01a",
        CertKind::Extension,
        91,
    ),
    (
        6,
        b"\xA0\x0E\x30\x0C\x30\x0A\x06\x03\x55\x1D\x1B\x01\x01\xFF\x04\x00",
        CertKind::Extension,
        132,
    ),
    (8, b"\x03\x02\x01\x00", CertKind::Der, 159),
    (9, b"\x00", CertKind::Der, 165),
];

#[test]
fn each_fault_at_its_place(rt: HostRuntime) -> Result<(), Fail> {
    for &(part, other, kind, place) in &FAULTS {
        let bytes = spelled(rt.alloc(), &PARTS, part, other)?;
        assert!(rt; Crl::read(bytes.as_slice()) == Err(CertFault { kind, place }));
    }
    Ok(())
}
