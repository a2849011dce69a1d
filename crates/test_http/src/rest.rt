//! The texts of requests and replies, and what is refused of them.

use crate::rest_texts::{ABC, ALL_THREE, NONCE, REQUEST, WITH_NONCE};
use crate::texts::{behind_head, repeated};
use std::alloc::Global;
use std::test::Fail;
use sz_base::{Bytes, Evidence, OutOfMemory, Serial, Target};
use sz_http::{HeadReading, Kind};
use sz_json::Name;
use sz_rest::{
    AskFault, Asked, RestFault, read_reply, read_request, write_refusal, write_reply, write_request,
};

/// What a server makes of a request.
#[derive(Clone, Copy)]
enum Answer {
    /// It asks for the data of the device A1.
    Device,
    /// It asks for the image `abc`.
    Image,
    /// It is refused with this status.
    Refused(u16),
}

fn answers(alloc: Global, text: &[u8], want: Answer) -> Result<bool, Fail> {
    let mut reading = HeadReading::create(alloc, Kind::Request)?;
    let body = behind_head(&mut reading, text)?;
    let head = reading.head().ok_or("no head")?;
    Ok(match (read_request(alloc, &head, body), want) {
        (Ok(Asked::Bootstrap(serial)), Answer::Device) => serial.as_slice() == b"A1".as_slice(),
        (Ok(Asked::Image(image)), Answer::Image) => image.as_slice() == b"abc".as_slice(),
        (Err(AskFault::Refused { status }), Answer::Refused(code)) => status == code,
        _ => false,
    })
}

const WRITTEN: &[(Option<&[u8; 16]>, &[u8])] = &[(None, REQUEST), (Some(&NONCE), WITH_NONCE)];

fn is_request(alloc: Global, nonce: Option<&[u8; 16]>, want: &[u8]) -> Result<bool, Fail> {
    let target = Target::read(alloc, b"10.0.0.2:8443")?;
    let serial = Serial::read(alloc, b"A1")?;
    let text = write_request(alloc, &target, &serial, nonce)?;
    Ok(text.as_slice() == want && answers(alloc, text.as_slice(), Answer::Device)?)
}

#[test]
fn requests_are_read_as_they_are_written(rt: HostRuntime) -> Result<(), Fail> {
    for &(nonce, want) in WRITTEN {
        assert!(rt; is_request(rt.alloc(), nonce, want)?);
    }
    Ok(())
}

const OPERATION: &str = "/restconf/operations/ietf-sztp-bootstrap-server:get-bootstrapping-data";

const INPUT: &str = r#"{"x":0,"ietf-sztp-bootstrap-server:input":null}"#;

const A1: &str = "Sztp-Serial-Number: A1\n";

const TWICE: &str = "Sztp-Serial-Number: A1\nSztp-Serial-Number: A1\n";

// the method, the target, the fields and the body of a request
const REQUESTS: &[([&str; 4], Answer)] = &[
    (["POST", OPERATION, A1, ""], Answer::Device),
    (
        ["POST", OPERATION, "sztp-SERIAL-number:A1\n", INPUT],
        Answer::Device,
    ),
    (["GET", OPERATION, A1, ""], Answer::Refused(405)),
    (["POST", OPERATION, "", ""], Answer::Refused(400)),
    (["POST", OPERATION, TWICE, ""], Answer::Refused(400)),
    (
        ["POST", OPERATION, "Sztp-Serial-Number: .A1\n", ""],
        Answer::Refused(400),
    ),
    (["POST", OPERATION, A1, "{}"], Answer::Refused(400)),
    (["POST", OPERATION, A1, "{"], Answer::Refused(400)),
    (["GET", "/images/abc", "", ""], Answer::Image),
    (["POST", "/images/abc", "", ""], Answer::Refused(405)),
    (["GET", "/images/", "", ""], Answer::Refused(404)),
    (["POST", "/images/a/b", "", ""], Answer::Refused(404)),
    (["GET", "/", "", ""], Answer::Refused(404)),
];

fn request_answers(alloc: Global, parts: [&str; 4], want: Answer) -> Result<bool, Fail> {
    let [method, target, fields, body] = parts;
    let text = format!(in alloc; "{method} {target} HTTP/1.1\n{fields}\n{body}")?;
    answers(alloc, text.as_bytes(), want)
}

#[test]
fn requests_are_answered_by_what_they_ask(rt: HostRuntime) -> Result<(), Fail> {
    for &(parts, want) in REQUESTS {
        assert!(rt; request_answers(rt.alloc(), parts, want)?);
    }
    Ok(())
}

fn optional(alloc: Global, bytes: Option<&[u8]>) -> Result<Option<Bytes>, OutOfMemory> {
    match bytes {
        Some(bytes) => Ok(Some(Bytes::from_slice(alloc, bytes)?)),
        None => Ok(None),
    }
}

fn is_same(artifact: &Option<Bytes>, want: Option<&[u8]>) -> bool {
    match (artifact, want) {
        (Some(artifact), Some(want)) => artifact.as_slice() == want,
        (None, None) => true,
        _ => false,
    }
}

// the owner certificate and the ownership voucher beside the conveyed information `abc`, and the reply
const REPLIES: &[(Option<&[u8]>, Option<&[u8]>, &[u8])] = &[
    (None, None, ABC),
    (Some(b"\xff"), Some(b""), ALL_THREE),
];

fn is_written(
    alloc: Global,
    oc: Option<&[u8]>,
    ov: Option<&[u8]>,
    want: &[u8],
) -> Result<bool, OutOfMemory> {
    let evidence = Evidence {
        ci: Bytes::from_slice(alloc, b"abc")?,
        oc: optional(alloc, oc)?,
        ov: optional(alloc, ov)?,
    };
    Ok(write_reply(alloc, &evidence)?.as_slice() == want)
}

fn is_read(alloc: Global, text: &[u8], oc: Option<&[u8]>, ov: Option<&[u8]>) -> Result<bool, Fail> {
    let mut reading = HeadReading::create(alloc, Kind::Reply)?;
    let read = read_reply(alloc, 200, behind_head(&mut reading, text)?)?;
    Ok(read.ci.as_slice() == b"abc".as_slice() && is_same(&read.oc, oc) && is_same(&read.ov, ov))
}

#[test]
fn replies_are_read_as_they_are_written(rt: HostRuntime) -> Result<(), Fail> {
    for &(oc, ov, text) in REPLIES {
        assert!(rt; is_written(rt.alloc(), oc, ov, text)?);
        assert!(rt; is_read(rt.alloc(), text, oc, ov)?);
    }
    Ok(())
}

// the status and the body of a reply
const REFUSED: &[(u16, &[u8], RestFault)] = &[
    (404, b"{", RestFault::Status { code: 404 }),
    (200, b"{", RestFault::Member { name: Name::Json }),
    (200, b"{}", RestFault::Member { name: Name::Output }),
    (
        200,
        b"{\"ietf-sztp-bootstrap-server:output\":1}",
        RestFault::Member { name: Name::Output },
    ),
    (200, b"{\"ietf-sztp-bootstrap-server:output\":{}}", CONVEYED),
    (
        200,
        b"{\"ietf-sztp-bootstrap-server:output\":{\"conveyed-information\":\"YWJ\"}}",
        CONVEYED,
    ),
    (
        200,
        b"{\"ietf-sztp-bootstrap-server:output\":{\"conveyed-information\":\"\",\"owner-certificate\":1}}",
        RestFault::Member {
            name: Name::OwnerCertificate,
        },
    ),
    (
        200,
        b"{\"ietf-sztp-bootstrap-server:output\":{\"conveyed-information\":\"\",\"ownership-voucher\":null}}",
        RestFault::Member {
            name: Name::OwnershipVoucher,
        },
    ),
];

const CONVEYED: RestFault = RestFault::Member {
    name: Name::ConveyedInformation,
};

#[test]
fn other_replies_are_refused(rt: HostRuntime) {
    for &(status, body, want) in REFUSED {
        assert!(rt; read_reply(rt.alloc(), status, body).err() == Some(want));
    }
}

const TOO_LARGE: Option<RestFault> = Some(RestFault::TooLarge { limit: 1_048_576 });

// what stands before and after 349,525 groups of base64 in a body
const LONG: &[(&[u8], &[u8], Option<RestFault>)] = &[
    (
        b"{\"ietf-sztp-bootstrap-server:output\":{\"conveyed-information\":\"",
        b"AA==\"}}",
        None,
    ),
    (
        b"{\"ietf-sztp-bootstrap-server:output\":{\"conveyed-information\":\"",
        b"AAA=\",\"owner-certificate\":1}}",
        TOO_LARGE,
    ),
    (
        b"{\"ietf-sztp-bootstrap-server:output\":{\"conveyed-information\":\"\",\"ownership-voucher\":\"",
        b"AAA=\"}}",
        TOO_LARGE,
    ),
    (
        b"{\"ietf-sztp-bootstrap-server:output\":{\"conveyed-information\":\"",
        b"AAA\"}}",
        Some(CONVEYED),
    ),
];

#[test]
fn artifacts_have_1048576_bytes_at_most(rt: HostRuntime) -> Result<(), Fail> {
    for &(before, after, want) in LONG {
        let body = repeated(rt.alloc(), before, b"AAAA", 349_525, after)?;
        assert!(rt; read_reply(rt.alloc(), 200, body.as_slice()).err() == want);
    }
    Ok(())
}

fn is_refusal(text: Bytes, line: &[u8]) -> bool {
    text.as_slice()
        .strip_suffix(b"\r\nContent-Length: 0\r\n\r\n")
        == Some(line)
}

#[test]
fn refusals_have_the_line_of_their_status(rt: HostRuntime) -> Result<(), OutOfMemory> {
    let alloc = rt.alloc();
    assert!(rt; is_refusal(write_refusal(alloc, 400)?, b"HTTP/1.1 400 Bad Request"));
    assert!(rt; is_refusal(write_refusal(alloc, 404)?, b"HTTP/1.1 404 Not Found"));
    assert!(rt;
        is_refusal(
            write_refusal(alloc, 405)?,
            b"HTTP/1.1 405 Method Not Allowed"
        )
    );
    assert!(rt;
        is_refusal(
            write_refusal(alloc, 413)?,
            b"HTTP/1.1 413 Payload Too Large"
        )
    );
    assert!(rt;
        is_refusal(
            write_refusal(alloc, 415)?,
            b"HTTP/1.1 415 Unsupported Media Type"
        )
    );
    assert!(rt;
        is_refusal(
            write_refusal(alloc, 500)?,
            b"HTTP/1.1 500 Internal Server Error"
        )
    );
    Ok(())
}
