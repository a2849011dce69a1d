//! The replies of a server, as it writes them: bootstrapping data (RFC 8572 section 7), and refusals.

ghost use Rattle.std.specs.Prelude.{◌≡◌, [], IfOk, IfSome, OnOk, option_map, unwrap_or};
ghost use Rattle.base64.specs.GeneralPurpose.{IsBytes};
ghost use Rattle.http.specs.StatusCode.{reason_phrase};
ghost use Rattle.serde_json.specs.Data.{put};
ghost use Rattle.serde_json.specs.View.{view};
ghost use Rattle.serde_json.specs.Written.{compact_text};
ghost use Rattle.sz_json.specs.Name.{name_text};
ghost use Rattle.sz_json.specs.Object.{binary_value, members_in, with_member};
ghost use Rattle.sz_rest.specs.Message.{lines_text};
ghost use Rattle.sz_rest.specs.Reply.{ReplyOf};
ghost use Rattle.sz_rest.specs.ReplyText.{AreBytes, IsRefusal, IsReplyOf, IsReplyWith, output_value, refusal_text, reply_text, reply_value, status_line};

use crate::message::{VERSION, YANG_JSON, begin, finish, push_field};
use http::StatusCode;
use std::alloc::Global;
use sz_base::{Bytes, Evidence, OutOfMemory};
use sz_json::{Name, Object, Value, single, write};

/// The reply with this evidence: status 200 and compact JSON. A device reads it as this evidence where no artifact is
/// over the limit.
pub fn write_reply(alloc: Global, evidence: &Evidence) -> Result<Bytes, OutOfMemory>
    ensures written { IfOk result (λ text. text ≡ reply_text evidence.now) }
    ensures replies { IfOk result (IsReplyWith evidence.now) }
{
    let body = body(alloc, evidence)?;
    let mut lines = status_line(alloc, StatusCode::OK)?;
    push_field(&mut lines, b"Content-Type", YANG_JSON)?;
    finish(alloc, lines, body.as_slice())
}

/// The refusal with this status, without a body. The status is 400, 404, 405, 413, 415 or 500.
pub fn write_refusal(alloc: Global, status: u16) -> Result<Bytes, OutOfMemory>
    requires { IsRefusal status }
    ensures written { IfOk result (λ text. text ≡ refusal_text status) }
    ensures refuses { IfOk result (IsReplyOf status) }
{
    let Ok(code) = StatusCode::from_u16(status) else {
        unreachable!();
    };
    let lines = status_line(alloc, code)?;
    finish(alloc, lines, b"")
}

fn status_line(alloc: Global, status: StatusCode) -> Result<Bytes, OutOfMemory>
    ensures { IfOk result (λ lines. lines ≡ lines_text (status_line status) []) }
{
    begin(
        alloc,
        VERSION,
        status.as_str().as_bytes(),
        phrase(status).as_bytes(),
    )
}

// The phrase of the status, if it has one.
fn phrase(status: StatusCode) -> &'static str
    ensures { result.now ≡ unwrap_or (reason_phrase status) [] }
{
    match status.canonical_reason() {
        Some(phrase) => phrase,
        None => "",
    }
}

fn body(alloc: Global, evidence: &Evidence) -> Result<Bytes, OutOfMemory>
    ensures compact { IfOk result (λ body. body ≡ compact_text (reply_value evidence.now)) }
    ensures replies { IfOk result (λ body. ReplyOf body evidence.now) }
{
    let value = reply_object(alloc, evidence)?;
    write(alloc, &value)
}

fn reply_object(alloc: Global, evidence: &Evidence) -> Result<Value, OutOfMemory>
    ensures value { IfOk result (λ value. view value ≡ reply_value evidence.now) }
    ensures bytes { OnOk result (AreBytes evidence.now) }
{
    let output = output(alloc, evidence)?;
    single(alloc, Name::Output, output)
}

fn output(alloc: Global, evidence: &Evidence) -> Result<Value, OutOfMemory>
    ensures value { IfOk result (λ value. view value ≡ output_value evidence.now) }
    ensures bytes { OnOk result (AreBytes evidence.now) }
{
    let mut output = Object::create(alloc);
    put_artifact(
        alloc,
        &mut output,
        Name::ConveyedInformation,
        evidence.ci.as_slice(),
    )?;
    put_where(alloc, &mut output, Name::OwnerCertificate, &evidence.oc)?;
    put_where(alloc, &mut output, Name::OwnershipVoucher, &evidence.ov)?;
    Ok(output.into_value())
}

fn put_artifact(
    alloc: Global,
    output: &mut Object,
    name: Name,
    artifact: &[u8],
) -> Result<(), OutOfMemory>
    ensures ok { OnOk result (members_in output.new
        ≡ put (name_text name) (binary_value artifact.now) (members_in output.old)) }
    ensures bytes { IsBytes artifact.now }
{
    output.put_binary(alloc, name, artifact)
}

// Puts the artifact where there is one.
fn put_where(
    alloc: Global,
    output: &mut Object,
    name: Name,
    artifact: &Option<Bytes>,
) -> Result<(), OutOfMemory>
    ensures ok { OnOk result (members_in output.new
        ≡ with_member name (option_map binary_value artifact.now) (members_in output.old)) }
    ensures bytes { IfSome artifact.now IsBytes }
{
    match artifact {
        Some(artifact) => put_artifact(alloc, output, name, artifact.as_slice()),
        None => Ok(()),
    }
}
