//! Certificates and revocation lists that are written, against what OpenSSL makes of the same parts (`openssl asn1parse
//! -genconf`).

ghost use Rattle.std.specs.Prelude.{IfSome, IsTrue};
ghost use Rattle.sz_issue.specs.Parts.{IsWritable};

use std::alloc::Global;
use std::test::Fail;
use sz_base::{Bytes, Numbers, OutOfMemory, Seconds, Text};
use sz_issue::{CertSpec, CrlSpec, is_writable, write_cert, write_crl, write_crl_tbs, write_tbs};
use sz_x509::{Cert, Crl};

const KEY: [u8; 60] = *b"\
        \x00\x00\x00\x01\x00\x00\x00\x05\x00\x00\x00\x04\x00\x01\x02\x03\x04\x05\x06\x07\x08\x09\x0a\x0b\
        \x0c\x0d\x0e\x0f\x10\x11\x12\x13\x14\x15\x16\x17\x18\x19\x1a\x1b\x1c\x1d\x1e\x1f\x20\x21\x22\x23\
        \x24\x25\x26\x27\x28\x29\x2a\x2b\x2c\x2d\x2e\x2f";

const SIGNATURE: &[u8] = b"\x00\x00\x00\x00\xff";

// The algorithm and the signature.
const END: &[u8] =
    b"\x30\x0d\x06\x0b\x2a\x86\x48\x86\xf7\x0d\x01\x09\x10\x03\x11\x03\x06\x00\x00\x00\x00\x00\xff";

// The header of the whole, what is signed, the algorithm and the signature.
fn joined(alloc: Global, header: &[u8], tbs: &[u8]) -> Result<Bytes, OutOfMemory> {
    let mut whole = Bytes::from_slice(alloc, header)?;
    whole.append(tbs)?;
    whole.append(END)?;
    Ok(whole)
}

// What is said of a certificate, and what is written of it.
#[derive(Drop)]
struct CertRow {
    serial: u32,
    subject: &'static [u8],
    not_before: Seconds,
    not_after: Seconds,
    ca: bool,
    path_len: Option<u32>,
    usage: u16,
    tbs: &'static [u8],
    header: &'static [u8],
}

fn spec_of(alloc: Global, row: &CertRow) -> Result<CertSpec, OutOfMemory> {
    Ok(CertSpec {
        serial: row.serial,
        issuer: Text::from_slice(alloc, b"Site authority")?,
        subject: Text::from_slice(alloc, row.subject)?,
        not_before: row.not_before,
        not_after: row.not_after,
        key: KEY,
        ca: row.ca,
        path_len: row.path_len,
    })
}

// The certificate of the row is written as it says.
fn is_written(alloc: Global, row: &CertRow) -> Result<bool, OutOfMemory> {
    let spec = spec_of(alloc, row)?;
    if !is_writable(spec.not_before) || !is_writable(spec.not_after) {
        return Ok(false);
    }
    let tbs = write_tbs(alloc, &spec)?;
    let cert = write_cert(alloc, tbs.as_slice(), SIGNATURE)?;
    let expected = joined(alloc, row.header, row.tbs)?;
    Ok(cert.as_slice() == expected.as_slice() && is_said(cert.as_slice(), row))
}

// The bytes are read as the certificate of the row.
fn is_said(bytes: &[u8], row: &CertRow) -> bool {
    let Ok(read) = Cert::read(bytes) else {
        return false;
    };
    (read.tbs, read.key) == (row.tbs, KEY.as_slice())
        && (read.not_before, read.not_after) == (row.not_before, row.not_after)
        && (read.ca, read.path_len, read.usage) == (row.ca, row.path_len, Some(row.usage))
}

static CERTIFICATES: [CertRow; 2] = [
    // An authority at the turn to 2050.
    CertRow {
        serial: 128,
        subject: b"Owner",
        not_before: Seconds(2_524_607_999),
        not_after: Seconds(2_524_608_000),
        ca: true,
        path_len: Some(1),
        usage: 97,
        tbs: b"\
            \x30\x82\x01\x00\xa0\x03\x02\x01\x02\x02\x02\x00\x80\x30\x0d\x06\x0b\x2a\x86\x48\x86\xf7\x0d\x01\
            \x09\x10\x03\x11\x30\x19\x31\x17\x30\x15\x06\x03\x55\x04\x03\x0c\x0e\x53\x69\x74\x65\x20\x61\x75\
            \x74\x68\x6f\x72\x69\x74\x79\x30\x20\x17\x0d\x34\x39\x31\x32\x33\x31\x32\x33\x35\x39\x35\x39\x5a\
            \x18\x0f\x32\x30\x35\x30\x30\x31\x30\x31\x30\x30\x30\x30\x30\x30\x5a\x30\x10\x31\x0e\x30\x0c\x06\
            \x03\x55\x04\x03\x0c\x05\x4f\x77\x6e\x65\x72\x30\x50\x30\x0d\x06\x0b\x2a\x86\x48\x86\xf7\x0d\x01\
            \x09\x10\x03\x11\x03\x3f\x00\x04\x3c\x00\x00\x00\x01\x00\x00\x00\x05\x00\x00\x00\x04\x00\x01\x02\
            \x03\x04\x05\x06\x07\x08\x09\x0a\x0b\x0c\x0d\x0e\x0f\x10\x11\x12\x13\x14\x15\x16\x17\x18\x19\x1a\
            \x1b\x1c\x1d\x1e\x1f\x20\x21\x22\x23\x24\x25\x26\x27\x28\x29\x2a\x2b\x2c\x2d\x2e\x2f\xa3\x45\x30\
            \x43\x30\x12\x06\x03\x55\x1d\x13\x01\x01\xff\x04\x08\x30\x06\x01\x01\xff\x02\x01\x01\x30\x0e\x06\
            \x03\x55\x1d\x0f\x01\x01\xff\x04\x04\x03\x02\x01\x86\x30\x1d\x06\x03\x55\x1d\x0e\x04\x16\x04\x14\
            \x8d\x3d\x10\x32\xb9\x19\x50\xe4\x09\x45\xc4\x24\x7a\xba\x1e\xd1\x47\x46\xb6\x8a",
        header: b"\x30\x82\x01\x1b",
    },
    // No authority, a name that is no UTF-8, the first and the last second.
    CertRow {
        serial: 1,
        subject: b"\xff\xfe\xfd\xfc",
        not_before: Seconds(-631_152_000),
        not_after: Seconds(253_402_300_799),
        ca: false,
        path_len: None,
        usage: 1,
        tbs: b"\
            \x30\x81\xf8\xa0\x03\x02\x01\x02\x02\x01\x01\x30\x0d\x06\x0b\x2a\x86\x48\x86\xf7\x0d\x01\x09\x10\
            \x03\x11\x30\x19\x31\x17\x30\x15\x06\x03\x55\x04\x03\x0c\x0e\x53\x69\x74\x65\x20\x61\x75\x74\x68\
            \x6f\x72\x69\x74\x79\x30\x20\x17\x0d\x35\x30\x30\x31\x30\x31\x30\x30\x30\x30\x30\x30\x5a\x18\x0f\
            \x39\x39\x39\x39\x31\x32\x33\x31\x32\x33\x35\x39\x35\x39\x5a\x30\x0f\x31\x0d\x30\x0b\x06\x03\x55\
            \x04\x03\x0c\x04\xff\xfe\xfd\xfc\x30\x50\x30\x0d\x06\x0b\x2a\x86\x48\x86\xf7\x0d\x01\x09\x10\x03\
            \x11\x03\x3f\x00\x04\x3c\x00\x00\x00\x01\x00\x00\x00\x05\x00\x00\x00\x04\x00\x01\x02\x03\x04\x05\
            \x06\x07\x08\x09\x0a\x0b\x0c\x0d\x0e\x0f\x10\x11\x12\x13\x14\x15\x16\x17\x18\x19\x1a\x1b\x1c\x1d\
            \x1e\x1f\x20\x21\x22\x23\x24\x25\x26\x27\x28\x29\x2a\x2b\x2c\x2d\x2e\x2f\xa3\x3f\x30\x3d\x30\x0c\
            \x06\x03\x55\x1d\x13\x01\x01\xff\x04\x02\x30\x00\x30\x0e\x06\x03\x55\x1d\x0f\x01\x01\xff\x04\x04\
            \x03\x02\x07\x80\x30\x1d\x06\x03\x55\x1d\x0e\x04\x16\x04\x14\x8d\x3d\x10\x32\xb9\x19\x50\xe4\x09\
            \x45\xc4\x24\x7a\xba\x1e\xd1\x47\x46\xb6\x8a",
        header: b"\x30\x82\x01\x12",
    },
];

#[test]
fn certificates_are_written_as_by_openssl(rt: HostRuntime) -> Result<(), Fail> {
    for row in &CERTIFICATES {
        assert!(rt; is_written(rt.alloc(), row)?);
    }
    Ok(())
}

// What is said of a revocation list, and what is written of it.
#[derive(Drop)]
struct ListRow {
    issuer: &'static [u8],
    this_update: Seconds,
    next_update: Option<Seconds>,
    serials: &'static [u32],
    tbs: &'static [u8],
    header: &'static [u8],
}

// The time can be written, where there is one.
fn is_writable_if_some(seconds: Option<Seconds>) -> bool
    ensures { IsTrue result → IfSome seconds (λ given. IsWritable given.0) }
{
    match seconds {
        Some(given) => is_writable(given),
        None => true,
    }
}

// The list of the row is written as it says.
fn is_list_written(alloc: Global, row: &ListRow) -> Result<bool, OutOfMemory> {
    let spec = CrlSpec {
        issuer: Text::from_slice(alloc, row.issuer)?,
        this_update: row.this_update,
        next_update: row.next_update,
        serials: Numbers::from_vec(row.serials.to_vec(alloc)?),
    };
    if !is_writable(spec.this_update) || !is_writable_if_some(spec.next_update) {
        return Ok(false);
    }
    let tbs = write_crl_tbs(alloc, &spec)?;
    let list = write_crl(alloc, tbs.as_slice(), SIGNATURE)?;
    let expected = joined(alloc, row.header, row.tbs)?;
    Ok(list.as_slice() == expected.as_slice() && is_list_said(list.as_slice(), row))
}

// The bytes are read as the list of the row.
fn is_list_said(bytes: &[u8], row: &ListRow) -> bool {
    let Ok(read) = Crl::read(bytes) else {
        return false;
    };
    let some = !row.serials.is_empty();
    (read.tbs, read.signature) == (row.tbs, SIGNATURE)
        && (read.this_update, read.next_update) == (row.this_update, row.next_update)
        && read.lists(b"\x01") == some
        && read.lists(b"\x00\x80") == some
        && !read.lists(b"\x02")
}

static LISTS: [ListRow; 2] = [
    // Three entries at the turn to 2050.
    ListRow {
        issuer: b"Site authority",
        this_update: Seconds(2_524_607_999),
        next_update: Some(Seconds(2_524_608_000)),
        serials: &[1, 128, u32::MAX],
        tbs: b"\x30\x81\x90\x02\x01\x01\x30\x0d\x06\x0b\x2a\x86\x48\x86\xf7\x0d\x01\x09\x10\x03\x11\
            \x30\x19\x31\x17\x30\x15\x06\x03\x55\x04\x03\x0c\x0eSite authority\
            \x17\x0d491231235959Z\x18\x0f20500101000000Z\
            \x30\x41\x30\x12\x02\x01\x01\x17\x0d491231235959Z\x30\x13\x02\x02\x00\x80\x17\x0d491231235959Z\
            \x30\x16\x02\x05\x00\xff\xff\xff\xff\x17\x0d491231235959Z",
        header: b"\x30\x81\xaa",
    },
    // No entry, no next list, a name that is no UTF-8.
    ListRow {
        issuer: b"\xff\xfe\xfd\xfc",
        this_update: Seconds(-631_152_000),
        next_update: None,
        serials: &[],
        tbs: b"\x30\x32\x02\x01\x01\x30\x0d\x06\x0b\x2a\x86\x48\x86\xf7\x0d\x01\x09\x10\x03\x11\
            \x30\x0f\x31\x0d\x30\x0b\x06\x03\x55\x04\x03\x0c\x04\xff\xfe\xfd\xfc\x17\x0d500101000000Z",
        header: b"\x30\x4b",
    },
];

#[test]
fn lists_are_written_as_by_openssl(rt: HostRuntime) -> Result<(), Fail> {
    for row in &LISTS {
        assert!(rt; is_list_written(rt.alloc(), row)?);
    }
    Ok(())
}
