//! A case for each answer, and for each rule that alone makes a chain fail. Certificates and lists are made from fixed
//! keys.

use arrayvec::ArrayVec;
use std::alloc::Global;
use std::test::Fail;
use std::thread::Threads;
use sz_base::{Bytes, Certs, Seconds};
use sz_chain::{Bag, ChainFault, Slices, Why, signed_by};
use sz_cms::{Identifier, Kind, Signed, Signer};
use sz_fixtures::{CertTemplate, Change, CrlTemplate, Keys};
use sz_x509::Cert;

const CONTENT: &[u8] = b"what is signed";

// One tree of 32 leaves.
const LEVELS: &[u8] = b"5/1";

// Critical name constraints (RFC 5280 section 4.2.1.10) in the place of key usage, by the identifiers' last numbers.
const NAME_CONSTRAINTS: Change = Change {
    behind: [0x55, 0x1d],
    from: 15,
    to: 30,
};

// Critical certificate policies, which restrict nothing here, in the same place.
const POLICIES: Change = Change {
    to: 32,
    ..NAME_CONSTRAINTS
};

// An authority's key usage without that for certificates.
const SIGNS_NO_CERTS: Change = Change {
    behind: [2, 1],
    from: 0b1000_0110,
    to: 0b1000_0010,
};

// An authority's key usage without that for messages.
const SIGNS_NO_MESSAGES: Change = Change {
    to: 0b0000_0110,
    ..SIGNS_NO_CERTS
};

// An authority's key usage without that for lists.
const SIGNS_NO_LISTS: Change = Change {
    to: 0b1000_0100,
    ..SIGNS_NO_CERTS
};

const ROOT: CertTemplate = CertTemplate {
    not_before: Seconds(100),
    not_after: Seconds(1000),
    ..sz_fixtures::ROOT
};

const MIDDLE: CertTemplate = CertTemplate {
    subject: b'M',
    key: 2,
    ..ROOT
};

const OWNER: CertTemplate = CertTemplate {
    subject: b'O',
    issuer: b'M',
    key: 3,
    by: 2,
    ca: false,
    ..ROOT
};

// Certificates that are over one second before they are looked at.
const ROOT_OVER: CertTemplate = CertTemplate {
    not_after: Seconds(499),
    ..ROOT
};

const MIDDLE_OVER: CertTemplate = CertTemplate {
    not_after: Seconds(499),
    ..MIDDLE
};

const OWNER_OVER: CertTemplate = CertTemplate {
    not_after: Seconds(499),
    ..OWNER
};

// A message that the subject of a certificate is to have signed, and what is answered of it.
#[derive(Clone, Copy)]
struct Case {
    bag: &'static [CertTemplate],
    anchor: CertTemplate,
    lists: Option<&'static [CrlTemplate]>,
    signer: CertTemplate,
    by: u8,
    when: Seconds,
    fault: Option<ChainFault>,
}

// The owner's message, whose certificate the intermediate signed, and that one's the root.
const FOUND: Case = Case {
    bag: &[OWNER, MIDDLE],
    anchor: ROOT,
    lists: None,
    signer: OWNER,
    by: 3,
    when: Seconds(500),
    fault: None,
};

const PATH: Option<ChainFault> = Some(ChainFault::NoChain { why: Why::Path });

const NO_PATH: Case = Case {
    fault: PATH,
    ..FOUND
};

const NO_CANDIDATE: Case = Case {
    fault: Some(ChainFault::NoChain {
        why: Why::NoCandidate,
    }),
    ..FOUND
};

const REVOKED: Case = Case {
    fault: Some(ChainFault::NoChain { why: Why::Revoked }),
    ..FOUND
};

// A list of the root and one of the intermediate, which revoke no certificate here.
const TOP_LIST: CrlTemplate = CrlTemplate {
    issuer: b'R',
    by: 1,
    serial: 9,
    this_update: Seconds(100),
    next_update: Some(Seconds(1000)),
};

const LOW_LIST: CrlTemplate = CrlTemplate {
    issuer: b'M',
    by: 2,
    ..TOP_LIST
};

static TAKEN: [Case; 9] = [
    FOUND,
    // the issuer first
    Case {
        bag: &[MIDDLE, OWNER],
        ..FOUND
    },
    // the last second
    Case {
        bag: &[
            OWNER,
            CertTemplate {
                not_after: Seconds(500),
                ..MIDDLE
            },
        ],
        ..FOUND
    },
    // critical policies
    Case {
        bag: &[
            OWNER,
            CertTemplate {
                change: Some(POLICIES),
                ..MIDDLE
            },
        ],
        ..FOUND
    },
    // two of one name
    Case {
        bag: &[CertTemplate { key: 4, ..MIDDLE }, OWNER, MIDDLE],
        ..FOUND
    },
    // the anchor signs
    Case {
        bag: &[],
        signer: ROOT,
        by: 1,
        ..FOUND
    },
    // an anchor that is over issues
    Case {
        anchor: ROOT_OVER,
        ..FOUND
    },
    // both lists clear
    Case {
        lists: Some(&[TOP_LIST, LOW_LIST]),
        ..FOUND
    },
    // a list that names no time of the next one
    Case {
        lists: Some(&[
            CrlTemplate {
                next_update: None,
                ..TOP_LIST
            },
            LOW_LIST,
        ]),
        ..FOUND
    },
];

static REFUSED: [Case; 23] = [
    // no issuer
    Case {
        bag: &[OWNER, OWNER],
        ..NO_PATH
    },
    // another name
    Case {
        bag: &[
            OWNER,
            CertTemplate {
                issuer: b'X',
                ..MIDDLE
            },
        ],
        ..NO_PATH
    },
    // another key
    Case {
        bag: &[OWNER, CertTemplate { by: 4, ..MIDDLE }],
        ..NO_PATH
    },
    // an issuer that is over
    Case {
        bag: &[OWNER, MIDDLE_OVER],
        ..NO_PATH
    },
    // an owner that is over
    Case {
        bag: &[OWNER_OVER, MIDDLE],
        ..NO_PATH
    },
    // no authority
    Case {
        bag: &[
            OWNER,
            CertTemplate {
                ca: false,
                ..MIDDLE
            },
        ],
        ..NO_PATH
    },
    // no key for certificates
    Case {
        bag: &[
            OWNER,
            CertTemplate {
                change: Some(SIGNS_NO_CERTS),
                ..MIDDLE
            },
        ],
        ..NO_PATH
    },
    // no key for messages
    Case {
        bag: &[
            CertTemplate {
                ca: true,
                change: Some(SIGNS_NO_MESSAGES),
                ..OWNER
            },
            MIDDLE,
        ],
        ..NO_PATH
    },
    // critical name constraints
    Case {
        bag: &[
            OWNER,
            CertTemplate {
                change: Some(NAME_CONSTRAINTS),
                ..MIDDLE
            },
        ],
        ..NO_PATH
    },
    // another root
    Case {
        anchor: CertTemplate { key: 4, ..ROOT },
        ..NO_PATH
    },
    // before the first second
    Case {
        when: Seconds(99),
        ..NO_PATH
    },
    // an anchor that is over signs
    Case {
        bag: &[],
        anchor: ROOT_OVER,
        signer: ROOT_OVER,
        by: 1,
        ..NO_PATH
    },
    // another key signed
    Case {
        by: 4,
        fault: Some(ChainFault::NoChain {
            why: Why::Signature,
        }),
        ..FOUND
    },
    // no owner
    Case {
        bag: &[MIDDLE],
        ..NO_CANDIDATE
    },
    // an owner with critical name constraints
    Case {
        bag: &[
            CertTemplate {
                change: Some(NAME_CONSTRAINTS),
                ..OWNER
            },
            MIDDLE,
        ],
        ..NO_CANDIDATE
    },
    // no list
    Case {
        lists: Some(&[]),
        ..REVOKED
    },
    // no list of the root
    Case {
        lists: Some(&[LOW_LIST]),
        ..REVOKED
    },
    // a list that is over
    Case {
        lists: Some(&[
            CrlTemplate {
                next_update: Some(Seconds(499)),
                ..TOP_LIST
            },
            LOW_LIST,
        ]),
        ..REVOKED
    },
    // a list of the next second
    Case {
        lists: Some(&[
            CrlTemplate {
                this_update: Seconds(501),
                ..TOP_LIST
            },
            LOW_LIST,
        ]),
        ..REVOKED
    },
    // a list of another name
    Case {
        lists: Some(&[
            CrlTemplate {
                issuer: b'X',
                ..TOP_LIST
            },
            LOW_LIST,
        ]),
        ..REVOKED
    },
    // an authority whose key signs no lists
    Case {
        bag: &[
            OWNER,
            CertTemplate {
                change: Some(SIGNS_NO_LISTS),
                ..MIDDLE
            },
        ],
        lists: Some(&[TOP_LIST, LOW_LIST]),
        ..REVOKED
    },
    // a list by another key
    Case {
        lists: Some(&[CrlTemplate { by: 4, ..TOP_LIST }, LOW_LIST]),
        ..REVOKED
    },
    // one list of two is silent
    Case {
        lists: Some(&[
            TOP_LIST,
            LOW_LIST,
            CrlTemplate {
                serial: 3,
                ..LOW_LIST
            },
        ]),
        ..REVOKED
    },
];

// The message that the subject signed whose certificate has this issuer and serial number.
fn message<'a>(cert: &Cert<'a>, signature: &'a [u8]) -> Signed<'a> {
    let mut signers = ArrayVec::new();
    signers.push(Signer::default());
    signers.push(Signer {
        identifier: Identifier::IssuerSerial {
            issuer: cert.issuer,
            serial: cert.serial,
        },
        by_hss: true,
        attributes: None,
        signature,
    });
    signed(Some(CONTENT), signers)
}

// A message with this content and these signers.
fn signed<'a>(content: Option<&'a [u8]>, signers: ArrayVec<Signer<'a>, 4>) -> Signed<'a> {
    Signed {
        kind: Kind::Data,
        content,
        certs: ArrayVec::new(),
        crls: ArrayVec::new(),
        signers,
    }
}

// These strings of bytes, as a bag.
fn bag_of<'a, const MOST: usize>(each: &'a Certs) -> Result<Slices<'a, MOST>, Fail> {
    let mut bag = Slices::create();
    for bytes in each.as_slice() {
        bag.add(bytes.as_slice())?;
    }
    Ok(bag)
}

// What is answered of a message that the subject of this certificate signed so.
fn asked<'a>(
    bag: &'a Certs,
    anchors: &'a Certs,
    lists: Option<&'a Certs>,
    signer: &'a Bytes,
    signature: &'a Bytes,
    when: Seconds,
) -> Result<Option<ChainFault>, Fail> {
    let bag = bag_of(bag)?;
    let anchors = bag_of(anchors)?;
    let signed = message(&Cert::read(signer.as_slice())?, signature.as_slice());
    let Some(lists) = lists else {
        return Ok(signed_by(&signed, &bag, &anchors, None, when).err());
    };
    let lists = bag_of(lists)?;
    Ok(signed_by(&signed, &bag, &anchors, Some(&lists), when).err())
}

// Whether the answer is that of the case, where the bag has these certificates.
fn answers<R: Threads + Sync>(
    rt: &R,
    alloc: Global,
    keys: &mut Keys,
    bag: &Certs,
    case: &Case,
) -> Result<bool, Fail> {
    let anchors = keys.certs(rt, alloc, &[case.anchor])?;
    let signer = keys.cert(rt, alloc, &case.signer)?;
    let signature = keys.signature(rt, alloc, case.by, CONTENT)?;
    let lists = match case.lists {
        Some(lists) => Some(keys.crls(rt, alloc, lists)?),
        None => None,
    };
    let answer = asked(
        bag,
        &anchors,
        lists.as_ref(),
        &signer,
        &signature,
        case.when,
    )?;
    Ok(answer == case.fault)
}

// Whether the answers are those of the cases.
fn answers_all<R: Threads + Sync>(rt: &R, alloc: Global, cases: &[Case]) -> Result<bool, Fail> {
    let mut keys = Keys::create(rt, alloc, LEVELS, 4)?;
    for case in cases {
        let bag = keys.certs(rt, alloc, case.bag)?;
        if !answers(rt, alloc, &mut keys, &bag, case)? {
            return Ok(false);
        }
    }
    Ok(true)
}

#[test]
fn chains_that_are_found(rt: HostRuntime) -> Result<(), Fail> {
    assert!(rt; answers_all(&rt, rt.alloc(), &TAKEN)?);
    Ok(())
}

#[test]
fn rules_that_alone_fail(rt: HostRuntime) -> Result<(), Fail> {
    assert!(rt; answers_all(&rt, rt.alloc(), &REFUSED)?);
    Ok(())
}

// What is answered of the owner's message under these lists and, behind them, bytes that are no list.
fn asked_beside_no_list<R: Threads + Sync>(
    rt: &R,
    alloc: Global,
    keys: &mut Keys,
    lists: &[CrlTemplate],
) -> Result<Option<ChainFault>, Fail> {
    let bag = keys.certs(rt, alloc, FOUND.bag)?;
    let anchors = keys.certs(rt, alloc, &[ROOT])?;
    let signer = keys.cert(rt, alloc, &OWNER)?;
    let signature = keys.signature(rt, alloc, 3, CONTENT)?;
    let mut lists = keys.crls(rt, alloc, lists)?;
    lists.push(keys.cert(rt, alloc, &ROOT)?)?;
    asked(
        &bag,
        &anchors,
        Some(&lists),
        &signer,
        &signature,
        Seconds(500),
    )
}

#[test]
fn a_list_that_does_not_read_counts_for_nothing(rt: HostRuntime) -> Result<(), Fail> {
    let mut keys = Keys::create(&rt, rt.alloc(), LEVELS, 4)?;
    let both = asked_beside_no_list(&rt, rt.alloc(), &mut keys, &[TOP_LIST, LOW_LIST])?;
    let one = asked_beside_no_list(&rt, rt.alloc(), &mut keys, &[LOW_LIST])?;
    assert!(rt; both.is_none() && one == REVOKED.fault);
    Ok(())
}

// Ways from the owner up to the root, each as the names of its authorities.
struct Ways {
    owner_by: u8,
    names: &'static [&'static [u8]],
    path_len: Option<u32>,
    fault: Option<ChainFault>,
}

static WAYS: [Ways; 4] = [
    // two authorities that count, and one that is self-issued
    Ways {
        owner_by: b'b',
        names: &[b"baat"],
        path_len: Some(2),
        fault: None,
    },
    // one too many that count
    Ways {
        owner_by: b'b',
        names: &[b"baat"],
        path_len: Some(1),
        fault: PATH,
    },
    // eight certificates, beside nine
    Ways {
        owner_by: b'a',
        names: &[b"abcdefgh", b"g"],
        path_len: None,
        fault: None,
    },
    // nine certificates
    Ways {
        owner_by: b'a',
        names: &[b"abcdefgh"],
        path_len: None,
        fault: PATH,
    },
];

// Puts the authorities with these names last. Each issued the one before it, with the keys 2 and 4 in turn, and the
// root issued the last, with this path length.
fn push_way<R: Threads + Sync>(
    rt: &R,
    alloc: Global,
    keys: &mut Keys,
    bag: &mut Certs,
    names: &[u8],
    path_len: Option<u32>,
) -> Result<(), Fail> {
    for (at, subject) in names.iter().enumerate() {
        let (key, by) = if at % 2 == 0 { (2, 4) } else { (4, 2) };
        let template = match names.get(at + 1) {
            Some(issuer) => CertTemplate {
                subject: *subject,
                issuer: *issuer,
                key,
                by,
                ..MIDDLE
            },
            None => CertTemplate {
                subject: *subject,
                key,
                path_len,
                ..MIDDLE
            },
        };
        bag.push(keys.cert(rt, alloc, &template)?)?;
    }
    Ok(())
}

// Whether the answer is that of the ways.
fn answers_ways<R: Threads + Sync>(
    rt: &R,
    alloc: Global,
    keys: &mut Keys,
    ways: &Ways,
) -> Result<bool, Fail> {
    let signer = CertTemplate {
        issuer: ways.owner_by,
        ..OWNER
    };
    let mut bag = keys.certs(rt, alloc, &[signer])?;
    for names in ways.names {
        push_way(rt, alloc, keys, &mut bag, names, ways.path_len)?;
    }
    let case = Case {
        signer,
        fault: ways.fault,
        ..FOUND
    };
    answers(rt, alloc, keys, &bag, &case)
}

#[test]
fn path_lengths_and_the_most_certificates(rt: HostRuntime) -> Result<(), Fail> {
    let mut keys = Keys::create(&rt, rt.alloc(), LEVELS, 4)?;
    for ways in &WAYS {
        assert!(rt; answers_ways(&rt, rt.alloc(), &mut keys, ways)?);
    }
    Ok(())
}

#[test]
fn a_bag_in_which_each_issued_each(rt: HostRuntime) -> Result<(), Fail> {
    let alloc = rt.alloc();
    let mut keys = Keys::create(&rt, alloc, LEVELS, 4)?;
    let one = CertTemplate {
        subject: b'a',
        issuer: b'a',
        key: 2,
        by: 2,
        ..MIDDLE
    };
    let mut bag = Certs::create(alloc);
    for number in 0..32u32 {
        let other = CertTemplate {
            path_len: Some(number),
            ..one
        };
        bag.push(keys.cert(&rt, alloc, &other)?)?;
    }
    let case = Case {
        signer: one,
        by: 2,
        ..NO_PATH
    };
    assert!(rt; answers(&rt, alloc, &mut keys, &bag, &case)?);
    Ok(())
}

#[test]
fn messages_without_a_signer(rt: HostRuntime) {
    let none = Bag::create();
    for (content, has_signer, fault) in [
        (Some(CONTENT), false, ChainFault::NoSigner),
        (None, true, ChainFault::NoSigner),
        (Some(CONTENT), true, ChainFault::BadDigest),
    ] {
        let mut signers = ArrayVec::new();
        if has_signer {
            signers.push(Signer::default());
        }
        let answer = signed_by(&signed(content, signers), &none, &none, None, Seconds(0));
        assert!(rt; answer.err() == Some(fault));
    }
}
