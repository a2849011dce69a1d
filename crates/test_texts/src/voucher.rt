//! Vouchers: an example as it is read and written, a member at fault by its name, and the judgement at its edges.

use crate::wanted::fault_of;
use std::alloc::Global;
use sz_artifacts::{Assertion, Voucher, VoucherFault, judge, write_voucher};
use sz_base::{BaseFault, Bytes, Moment, Seconds, Serial, Text};
use sz_json::{JsonFault, Name};

// the example of RFC 8366 section 3.2 with members of its section 5.2, bytes in base64
const LOGGED: &[u8] = br#"{
  "ietf-voucher:voucher": {
    "created-on": "2016-10-07T19:31:42Z",
    "assertion": "logged",
    "serial-number": "JADA123456789",
    "idevid-issuer": "Zm9v",
    "pinned-domain-cert": "Zm9vYg==",
    "nonce": "AAECAwQFBgc="
  }
}"#;

fn is_logged(voucher: &Voucher) -> bool {
    voucher.created_on == Seconds(1_475_868_702)
        && voucher.expires_on.is_none()
        && voucher.assertion == Assertion::Logged
        && voucher.serial.as_slice() == b"JADA123456789".as_slice()
        && voucher.pinned.as_slice() == b"foob".as_slice()
        && !voucher.revocation
        && voucher.nonce.as_ref().is_some_and(|nonce| nonce.as_slice()
            == [0, 1, 2, 3, 4, 5, 6, 7].as_slice())
}

#[test]
fn the_example_is_read(rt: HostRuntime) -> Result<(), JsonFault> {
    assert!(rt; is_logged(&Voucher::read(rt.alloc(), LOGGED)?));
    Ok(())
}

// the members of a whole voucher, each with a value in its form, and whether it has to be there
const MEMBERS: &[(Name, &str, bool)] = &[
    (Name::CreatedOn, r#""2016-10-07T19:31:42Z""#, true),
    (Name::ExpiresOn, r#""2016-10-21T19:31:42Z""#, false),
    (Name::Assertion, r#""verified""#, true),
    (Name::SerialNumber, r#""JADA123456789""#, true),
    (Name::IdevidIssuer, r#""Zm9v""#, false),
    (Name::PinnedDomainCert, r#""Zm9vYg==""#, true),
    (Name::DomainCertRevocationChecks, "true", false),
    (Name::Nonce, r#""AAECAwQFBgc=""#, false),
    (Name::LastRenewalDate, r#""2017-10-07T19:31:42Z""#, false),
];

// a voucher whose member of this name has another value, or is left out
fn text(alloc: Global, other: Name, instead: Option<&str>) -> Result<Bytes, JsonFault> {
    let mut text = Bytes::from_slice(alloc, br#"{"ietf-voucher:voucher":{"x":0"#)?;
    for &(name, value, _) in MEMBERS {
        let value = if name == other { instead } else { Some(value) };
        if let Some(value) = value {
            text.append(b",\"")?;
            text.append(name.as_str().as_bytes())?;
            text.append(b"\":")?;
            text.append(value.as_bytes())?;
        }
    }
    text.append(b"}}")?;
    Ok(text)
}

fn fault(alloc: Global, other: Name, instead: Option<&str>) -> Result<Option<Name>, JsonFault> {
    let text = text(alloc, other, instead)?;
    fault_of(Voucher::read(alloc, text.as_slice()))
}

fn is_of_one_kind(
    alloc: Global,
    name: Name,
    value: &str,
    is_needed: bool,
) -> Result<bool, JsonFault> {
    for other in ["null", "1", "[]", "{}"] {
        if fault(alloc, name, Some(other))? != Some(name) {
            return Ok(false);
        }
    }
    let missing = if is_needed { Some(name) } else { None };
    Ok(fault(alloc, name, Some(value))?.is_none() && fault(alloc, name, None)? == missing)
}

#[test]
fn members_are_of_one_kind_and_some_are_needed(rt: HostRuntime) -> Result<(), JsonFault> {
    for &(name, value, is_needed) in MEMBERS {
        assert!(rt; is_of_one_kind(rt.alloc(), name, value, is_needed)?);
    }
    Ok(())
}

// a member, its value, and whether that is refused
const VALUES: &[(Name, &str, bool)] = &[
    (Name::CreatedOn, r#""2016-10-07""#, true),
    (Name::ExpiresOn, r#""2016-02-30T00:00:00Z""#, true),
    (Name::Assertion, r#""Verified""#, true),
    (Name::Assertion, r#""proximity""#, false),
    (Name::SerialNumber, r#""""#, false),
    (Name::IdevidIssuer, r#""Zm9""#, true),
    (Name::PinnedDomainCert, r#""Zm9vYh==""#, true),
    (Name::DomainCertRevocationChecks, r#""true""#, true),
    (Name::DomainCertRevocationChecks, "false", false),
    (Name::Nonce, r#""AAECAwQFBgc""#, true),
    (Name::Nonce, r#""AAECAwQFBg==""#, true),
    (
        Name::Nonce,
        r#""AAECAwQFBgcICQoLDA0ODxAREhMUFRYXGBkaGxwdHh8=""#,
        false,
    ),
    (
        Name::Nonce,
        r#""AAECAwQFBgcICQoLDA0ODxAREhMUFRYXGBkaGxwdHh8g""#,
        true,
    ),
    (Name::LastRenewalDate, r#""never""#, true),
];

#[test]
fn members_are_read_in_their_form(rt: HostRuntime) -> Result<(), JsonFault> {
    for &(name, value, is_refused) in VALUES {
        let want = if is_refused { Some(name) } else { None };
        assert!(rt; fault(rt.alloc(), name, Some(value))? == want);
    }
    Ok(())
}

const WHOLES: &[(&[u8], Name)] = &[
    (b"", Name::Json),
    (b"{", Name::Json),
    (b"[]", Name::Voucher),
    (b"{}", Name::Voucher),
    (br#"{"ietf-voucher:voucher":[]}"#, Name::Voucher),
    (br#"{"ietf-voucher:voucher":{}}"#, Name::CreatedOn),
    (
        br#"{"ietf-voucher:voucher":{"created-on":"2016-10-07T19:31:42Z","nonce":1}}"#,
        Name::Assertion,
    ),
];

#[test]
fn the_first_member_at_fault_is_named(rt: HostRuntime) -> Result<(), JsonFault> {
    for &(content, name) in WHOLES {
        assert!(rt; fault_of(Voucher::read(rt.alloc(), content))? == Some(name));
    }
    Ok(())
}

const DRAWN: [u8; 16] = [7; 16];

const SAME: &[u8] = &[7; 16];

const SHORTER: &[u8] = &[7; 15];

// the device's serial number, the voucher's end and nonce, the nonce that the device drew, and the judgement
const JUDGEMENTS: &[(
    &[u8],
    Option<i64>,
    Option<&[u8]>,
    Option<[u8; 16]>,
    Result<(), VoucherFault>,
)] = &[
    (b"A1", None, None, None, Ok(())),
    (b"A1", Some(5), None, Some(DRAWN), Ok(())),
    (b"A1", Some(4), None, None, Err(VoucherFault::Expired)),
    (b"A1", None, Some(SAME), Some(DRAWN), Ok(())),
    (b"A1", Some(4), Some(SAME), None, Err(VoucherFault::Nonce)),
    (
        b"A1",
        None,
        Some(SHORTER),
        Some(DRAWN),
        Err(VoucherFault::Nonce),
    ),
    (
        b"A2",
        Some(4),
        Some(SAME),
        None,
        Err(VoucherFault::WrongSerial),
    ),
    (b"A12", None, None, None, Err(VoucherFault::WrongSerial)),
];

// a voucher for the serial number A1
fn voucher(alloc: Global, end: Option<i64>, nonce: Option<&[u8]>) -> Result<Voucher, BaseFault> {
    let nonce = match nonce {
        Some(nonce) => Some(Bytes::from_slice(alloc, nonce)?),
        None => None,
    };
    Ok(Voucher {
        expires_on: end.map(Seconds),
        serial: Text::from_slice(alloc, b"A1")?,
        pinned: Bytes::create(alloc),
        revocation: false,
        nonce,
        assertion: Assertion::Verified,
        created_on: Seconds(0),
    })
}

fn judgement(
    alloc: Global,
    serial: &[u8],
    voucher: &Voucher,
    drawn: Option<[u8; 16]>,
) -> Result<Result<(), VoucherFault>, BaseFault> {
    let serial = Serial::read(alloc, serial)?;
    let when = Moment {
        time: Seconds(5),
        nonce: drawn,
    };
    Ok(judge(voucher, &serial, when))
}

#[test]
fn vouchers_are_judged_at_their_edges(rt: HostRuntime) -> Result<(), BaseFault> {
    for &(serial, end, nonce, drawn, want) in JUDGEMENTS {
        let voucher = voucher(rt.alloc(), end, nonce)?;
        assert!(rt; judgement(rt.alloc(), serial, &voucher, drawn)? == want);
    }
    Ok(())
}

const WRITTEN: &[u8] =
    b"{\"ietf-voucher:voucher\":{\"assertion\":\"logged\",\"created-on\":\"2016-10-07T19:31:42Z\",\
    \"domain-cert-revocation-checks\":false,\"nonce\":\"AAECAwQFBgc=\",\"pinned-domain-cert\":\"Zm9vYg==\",\
    \"serial-number\":\"JADA123456789\"}}";

const EARLIEST: &[u8] =
    b"{\"ietf-voucher:voucher\":{\"assertion\":\"proximity\",\"created-on\":\"-009999-01-01T00:00:00Z\",\
    \"domain-cert-revocation-checks\":true,\"expires-on\":\"9999-12-31T23:59:59Z\",\"pinned-domain-cert\":\"\",\
    \"serial-number\":\"\\u0001\"}}";

// a content, and what is written of it
const REWRITTEN: &[(&[u8], &[u8])] = &[(LOGGED, WRITTEN), (WRITTEN, WRITTEN), (EARLIEST, EARLIEST)];

fn rewritten(alloc: Global, content: &[u8]) -> Result<Bytes, JsonFault> {
    let voucher = Voucher::read(alloc, content)?;
    Ok(write_voucher(alloc, &voucher)?)
}

#[test]
fn what_is_read_is_written(rt: HostRuntime) -> Result<(), JsonFault> {
    for &(content, want) in REWRITTEN {
        assert!(rt; rewritten(rt.alloc(), content)?.as_slice() == want);
    }
    Ok(())
}
