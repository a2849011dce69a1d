//! Each reason that the judgement gives, with everything else right; nonces, ends and revocation; the other reasons'
//! names, and identity files. Messages are made from fixed keys, but for those of other software.

use std::alloc::Global;
use std::test::Fail;
use std::thread::Threads;
use sz_base::{
    Bytes, Evidence, Identity, ImageFaults, Moment, Seconds, Serial, Text, base64_bytes,
};
use sz_cms::Kind;
use sz_cms::identifier::{CONVEYED_JSON, CONVEYED_XML, ENVELOPED_DATA};
use sz_evidence::{IdentityFault, Judged, Reason, Refusal, judge, read_identity};
use sz_fixtures::{
    BEGIN, CertTemplate, CrlTemplate, EvidenceTemplate, Keys, ROOT, joined, plain, voucher,
};
use sz_json::Name;
use sz_samples::{ANCHOR, CERTIFICATES, INFORMATION, VOUCHER};

const CONVEYED: &[u8] =
    br#"{"ietf-sztp-conveyed-info:onboarding-information":{"configuration":"YQ=="}}"#;

const REDIRECT: &[u8] = br#"{"ietf-sztp-conveyed-info:redirect-information":
    {"bootstrap-server":[{"address":"b","port":80}]}}"#;

// 2025-01-01, and the last second of each voucher
const NOW: Seconds = Seconds(1_735_689_600);

const END: Seconds = Seconds(2_019_686_400);

const AFTER_END: Seconds = Seconds(2_019_686_401);

// The maker, whose certificate is the anchor; the owner's root, which is pinned; and the owner.
const MAKER: CertTemplate = CertTemplate {
    subject: b'a',
    issuer: b'a',
    ..ROOT
};

const OWNER_ROOT: CertTemplate = CertTemplate {
    subject: b'b',
    issuer: b'b',
    key: 2,
    by: 2,
    ..ROOT
};

const OWNER: CertTemplate = CertTemplate {
    subject: b'c',
    issuer: b'b',
    key: 3,
    by: 2,
    ca: false,
    ..ROOT
};

// Evidence that is right.
const RIGHT: EvidenceTemplate = EvidenceTemplate {
    serial: "A1",
    nonce: None,
    revocation: false,
    pinned: OWNER_ROOT,
    maker: MAKER,
    maker_certs: &[],
    owner: OWNER,
    owner_certs: &[OWNER],
    crl: None,
};

// A voucher that asks for revocation checks, and one with a nonce.
const CHECKED: EvidenceTemplate = EvidenceTemplate {
    revocation: true,
    ..RIGHT
};

const FRESH: EvidenceTemplate = EvidenceTemplate {
    nonce: Some(7),
    ..RIGHT
};

// The revocation list of the owner's root with another certificate, and that with the owner's.
const OF_ANOTHER: CrlTemplate = CrlTemplate {
    issuer: b'b',
    by: 2,
    serial: 9,
    this_update: BEGIN,
    next_update: None,
};

const OF_OWNER: CrlTemplate = CrlTemplate {
    serial: 3,
    ..OF_ANOTHER
};

// What is judged of evidence: what it is taken for, or the number and the name of the reason for which it is not.
#[derive(Clone, Copy)]
enum Verdict {
    Unsigned,
    Redirect,
    Onboarding,
    Refused(u8, &'static str),
}

const ABSENT: Verdict = Verdict::Refused(2, "Absent");

const BAD_DER: Verdict = Verdict::Refused(10, "BadDer");

const BAD_CMS: Verdict = Verdict::Refused(11, "BadCms");

const NO_CHAIN: Verdict = Verdict::Refused(15, "NoChain");

const MEMBER: Verdict = Verdict::Refused(16, "Member");

const WRONG_SERIAL: Verdict = Verdict::Refused(17, "WrongSerial");

const NONCE: Verdict = Verdict::Refused(18, "Nonce");

// Evidence whose information has this content, the time and the nonce of the device, and what it judges.
#[derive(Clone, Copy)]
struct Case {
    evidence: EvidenceTemplate,
    information: &'static [u8],
    time: Seconds,
    drawn: Option<u8>,
    verdict: Verdict,
}

const TAKEN: Case = Case {
    evidence: RIGHT,
    information: CONVEYED,
    time: NOW,
    drawn: None,
    verdict: Verdict::Onboarding,
};

static CASES: [Case; 17] = [
    TAKEN,
    Case {
        evidence: EvidenceTemplate {
            serial: "A2",
            ..RIGHT
        },
        verdict: WRONG_SERIAL,
        ..TAKEN
    },
    // the owner signs the voucher
    Case {
        evidence: EvidenceTemplate {
            maker: OWNER,
            ..RIGHT
        },
        verdict: NO_CHAIN,
        ..TAKEN
    },
    // the maker signs the information
    Case {
        evidence: EvidenceTemplate {
            owner: MAKER,
            ..RIGHT
        },
        verdict: NO_CHAIN,
        ..TAKEN
    },
    Case {
        evidence: CHECKED,
        verdict: NO_CHAIN,
        ..TAKEN
    },
    Case {
        information: REDIRECT,
        verdict: Verdict::Redirect,
        ..TAKEN
    },
    Case {
        information: b"{}",
        verdict: MEMBER,
        ..TAKEN
    },
    // the first reason of several
    Case {
        evidence: EvidenceTemplate {
            serial: "A2",
            nonce: Some(1),
            ..RIGHT
        },
        information: b"{}",
        time: AFTER_END,
        verdict: WRONG_SERIAL,
        ..TAKEN
    },
    // revocation lists, where the voucher asks for them and where it does not
    Case {
        evidence: EvidenceTemplate {
            crl: Some(OF_ANOTHER),
            ..CHECKED
        },
        ..TAKEN
    },
    Case {
        evidence: EvidenceTemplate {
            crl: Some(OF_OWNER),
            ..CHECKED
        },
        verdict: NO_CHAIN,
        ..TAKEN
    },
    Case {
        evidence: EvidenceTemplate {
            crl: Some(OF_OWNER),
            ..RIGHT
        },
        ..TAKEN
    },
    // nonces and ends
    Case {
        evidence: FRESH,
        drawn: Some(7),
        ..TAKEN
    },
    Case {
        evidence: FRESH,
        drawn: Some(8),
        verdict: NONCE,
        ..TAKEN
    },
    Case {
        evidence: FRESH,
        time: AFTER_END,
        verdict: NONCE,
        ..TAKEN
    },
    Case {
        drawn: Some(7),
        ..TAKEN
    },
    Case { time: END, ..TAKEN },
    Case {
        time: AFTER_END,
        verdict: Verdict::Refused(19, "Expired"),
        ..TAKEN
    },
];

// The keys, of one tree of 32 leaves each, and the identity of the device `A1`.
fn keys_and_identity<R: Threads + Sync>(rt: &R, alloc: Global) -> Result<(Keys, Identity), Fail> {
    let mut keys = Keys::create(rt, alloc, b"5/1", 3)?;
    let identity = Identity {
        serial: Serial::read(alloc, b"A1")?,
        anchors: keys.certs(rt, alloc, &[MAKER])?,
        os_name: Text::from_slice(alloc, b"os")?,
        os_version: Text::from_slice(alloc, b"1")?,
    };
    Ok((keys, identity))
}

fn at(time: Seconds, drawn: Option<u8>) -> Moment {
    Moment {
        time,
        nonce: drawn.map(|byte| [byte; 16]),
    }
}

// Whether the device of this identity judges so of evidence.
fn judges(
    alloc: Global,
    identity: &Identity,
    when: Moment,
    evidence: &Evidence,
    verdict: Verdict,
) -> Result<bool, Fail> {
    if !identity.is_whole() {
        return Err("an identity that is not whole".into());
    }
    let judged = judge(alloc, identity, when, evidence);
    Ok(match (&judged, verdict) {
        (Ok(Judged::Unsigned(_)), Verdict::Unsigned) => true,
        (Ok(Judged::Redirect(_)), Verdict::Redirect) => true,
        (Ok(Judged::Onboarding(_)), Verdict::Onboarding) => true,
        (Err(Refusal::Reason(reason)), Verdict::Refused(number, name)) => {
            reason.number() == number && reason.name() == name
        }
        _ => false,
    })
}

#[test]
fn each_rule_with_everything_else_right(rt: HostRuntime) -> Result<(), Fail> {
    let alloc = rt.alloc();
    let (mut keys, identity) = keys_and_identity(&rt, alloc)?;
    for case in &CASES {
        let evidence = keys.evidence(&rt, alloc, &case.evidence, case.information)?;
        let when = at(case.time, case.drawn);
        assert!(rt; judges(alloc, &identity, when, &evidence, case.verdict)?);
    }
    Ok(())
}

// Optional bytes, copied.
fn copied(alloc: Global, bytes: Option<&[u8]>) -> Result<Option<Bytes>, Fail> {
    match bytes {
        Some(bytes) => Ok(Some(Bytes::from_slice(alloc, bytes)?)),
        None => Ok(None),
    }
}

#[test]
fn vouchers_and_owners_that_do_not_read(rt: HostRuntime) -> Result<(), Fail> {
    let alloc = rt.alloc();
    let (mut keys, identity) = keys_and_identity(&rt, alloc)?;
    let mut evidence = keys.evidence(&rt, alloc, &RIGHT, CONVEYED)?;
    let not_signed = plain(alloc, &CONVEYED_JSON, b"")?;
    let no_members = keys.signed(&rt, alloc, Kind::Voucher, b"{}", &[], &MAKER)?;
    let content = voucher(alloc, &RIGHT, b"R")?;
    let no_cert = keys.signed(&rt, alloc, Kind::Voucher, content.as_slice(), &[], &MAKER)?;
    let right = evidence.copy(alloc)?;
    let right_voucher = right.ov.as_ref().map(|bytes| bytes.as_slice());
    let right_owner = right.oc.as_ref().map(|bytes| bytes.as_slice());
    let empty = Some(b"".as_slice());
    for (owner, voucher, verdict) in [
        (empty, right_voucher, BAD_DER),
        (Some(not_signed.as_slice()), right_voucher, BAD_CMS),
        (None, right_voucher, NO_CHAIN),
        (None, right_owner, BAD_CMS),
        (None, empty, BAD_DER),
        (None, None, ABSENT),
        (None, Some(no_members.as_slice()), MEMBER),
        (None, Some(no_cert.as_slice()), MEMBER),
    ] {
        evidence.oc = copied(alloc, owner)?;
        evidence.ov = copied(alloc, voucher)?;
        assert!(rt; judges(alloc, &identity, at(NOW, None), &evidence, verdict)?);
    }
    Ok(())
}

// Messages that are not signed by their type and content, and what is judged.
static NOT_SIGNED: [(&[u8], &[u8], Verdict); 6] = [
    (&CONVEYED_JSON, CONVEYED, Verdict::Refused(14, "Unsigned")),
    (&CONVEYED_JSON, REDIRECT, Verdict::Unsigned),
    (&CONVEYED_JSON, b"{}", MEMBER),
    (&CONVEYED_XML, CONVEYED, Verdict::Refused(12, "XmlContent")),
    (&ENVELOPED_DATA, CONVEYED, Verdict::Refused(13, "Encrypted")),
    (b"\x2A\x03", CONVEYED, BAD_CMS),
];

#[test]
fn information_that_is_not_signed(rt: HostRuntime) -> Result<(), Fail> {
    let alloc = rt.alloc();
    let (_keys, identity) = keys_and_identity(&rt, alloc)?;
    let mut evidence = Evidence {
        ci: Bytes::create(alloc),
        oc: None,
        ov: None,
    };
    assert!(rt; judges(alloc, &identity, at(NOW, None), &evidence, BAD_DER)?);
    for &(kind, content, verdict) in &NOT_SIGNED {
        evidence.ci = plain(alloc, kind, content)?;
        assert!(rt; judges(alloc, &identity, at(NOW, None), &evidence, verdict)?);
    }
    Ok(())
}

const BEFORE: &str = r#"{"serial": "A1", "os-name": "os", "os-version": "1", "anchors": [""#;

const BEHIND: &str = r#""]}"#;

// An identity file: the anchor between these texts.
fn file(alloc: Global, before: &str, behind: &str) -> Result<Bytes, Fail> {
    joined(
        alloc,
        &[before.as_bytes(), ANCHOR.as_bytes(), behind.as_bytes()],
    )
}

#[test]
fn evidence_of_other_software(rt: HostRuntime) -> Result<(), Fail> {
    let alloc = rt.alloc();
    let identity = read_identity(alloc, file(alloc, BEFORE, BEHIND)?.as_slice())?;
    let mut evidence = Evidence {
        ci: base64_bytes(alloc, INFORMATION.as_bytes())?,
        oc: Some(base64_bytes(alloc, CERTIFICATES.as_bytes())?),
        ov: Some(base64_bytes(alloc, VOUCHER.as_bytes())?),
    };
    assert!(rt;
        judges(
            alloc,
            &identity,
            at(NOW, None),
            &evidence,
            Verdict::Onboarding
        )?
    );
    evidence.oc = None;
    assert!(rt; judges(alloc, &identity, at(NOW, None), &evidence, NO_CHAIN)?);
    Ok(())
}

// The texts of identity files before and behind the anchor, and the member at fault.
static FILES: [(&str, &str, Name); 9] = [
    ("x", "", Name::Json),
    (r#"[""#, r#""]"#, Name::Serial),
    (
        r#"{"serial": ".A", "os-name": 1, "anchors": [""#,
        BEHIND,
        Name::Serial,
    ),
    (r#"{"serial": "A1", "anchors": [""#, BEHIND, Name::OsName),
    (
        r#"{"serial": "A1", "os-name": "os", "anchors": [""#,
        BEHIND,
        Name::OsVersion,
    ),
    (BEFORE, r#"", "AA=="]}"#, Name::Anchors),
    (BEFORE, r#"", "AA"]}"#, Name::Anchors),
    (BEFORE, r#"", 1]}"#, Name::Anchors),
    (
        r#"{"serial": "A1", "os-name": "os", "os-version": "1", "anchors": [], "x": [""#,
        BEHIND,
        Name::Anchors,
    ),
];

#[test]
fn identity_files(rt: HostRuntime) -> Result<(), Fail> {
    let alloc = rt.alloc();
    for &(before, behind, name) in &FILES {
        let read = read_identity(alloc, file(alloc, before, behind)?.as_slice());
        assert!(rt; read.err() == Some(IdentityFault::Bad { name }));
    }
    let identity = read_identity(alloc, file(alloc, BEFORE, BEHIND)?.as_slice())?;
    assert!(rt; identity.serial.as_slice() == b"A1".as_slice());
    assert!(rt; identity.anchors.len() == 1);
    Ok(())
}

#[test]
fn numbers_and_names_of_the_other_reasons(rt: HostRuntime) {
    let none = ImageFaults::create(rt.alloc());
    for (reason, number, name) in [
        (Reason::Lost, 1, "Lost"),
        (Reason::EndedEarly, 3, "EndedEarly"),
        (Reason::BadHttp, 4, "BadHttp"),
        (Reason::Coding, 5, "Coding"),
        (Reason::TooLarge { limit: 1 }, 6, "TooLarge"),
        (Reason::Status { code: 404 }, 7, "Status"),
        (Reason::BadOption { place: 1 }, 8, "BadOption"),
        (Reason::BadName { place: 1 }, 9, "BadName"),
        (Reason::NoImageHash, 21, "NoImageHash"),
        (Reason::NoImage { faults: none }, 22, "NoImage"),
        (Reason::RecordTooLarge { size: 1 }, 23, "RecordTooLarge"),
        (Reason::Depth, 24, "Depth"),
        (Reason::BudgetSpent, 25, "BudgetSpent"),
    ] {
        assert!(rt; reason.number() == number && reason.name() == name);
    }
}
