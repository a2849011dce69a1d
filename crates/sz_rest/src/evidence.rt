//! The evidence of a reply, as a device reads it (RFC 8572 section 7).

ghost use Rattle.std.specs.Prelude.{◌≡◌, Ok, Some, IfOk, IfErr, IfSome};
ghost use Rattle.serde_json.specs.View.{view};
ghost use Rattle.sz_json.specs.Form.{binary_of};
ghost use Rattle.sz_json.specs.Member.{optional, required};
ghost use Rattle.sz_rest.specs.Reply.{Fits, FitsLimits, HasArtifacts, IsBodyAnswer, IsFault, IsReplyFault, member_fault, output_fault, ReplyOf, RepliesWith, reply_fault, size_fault, size_fault_where};

use crate::RestFault;
use http::StatusCode;
use std::alloc::Global;
use sz_base::{Bytes, Evidence, MOST_ARTIFACT_BYTES};
use sz_json::{Name, Value, binary, required_binary, required_object};

/// Reads a reply of this status with this body. `Status` exactly where it is not 200; else the first fault of the body:
/// `Member` of a member that is missing or of the wrong form, with the name `Json` where the body is no bounded JSON,
/// and `TooLarge` of an artifact with more than `MOST_ARTIFACT_BYTES` bytes.
pub fn read_reply(alloc: Global, status: u16, body: &[u8]) -> Result<Evidence, RestFault>
    ensures ok { IfOk result (λ evidence. (status ≡ 200) × ReplyOf body.now evidence) }
    ensures fits { IfOk result FitsLimits }
    ensures refused { IfErr result (IsReplyFault status body.now) }
{
    if status != StatusCode::OK.as_u16() {
        return Err(RestFault::Status { code: status });
    }
    read_body(alloc, body)
}

fn read_body(alloc: Global, body: &[u8]) -> Result<Evidence, RestFault>
    ensures ok { IfOk result (ReplyOf body.now) }
    ensures fits { IfOk result FitsLimits }
    ensures refused { IfErr result (IsBodyAnswer body.now) }
{
    let value = sz_json::read_bounded(alloc, body)?;
    of_value(alloc, &value)
}

fn of_value(alloc: Global, value: &Value) -> Result<Evidence, RestFault>
    ensures ok { IfOk result (RepliesWith (view value.now)) }
    ensures fits { IfOk result FitsLimits }
    ensures refused { IfErr result (IsFault (reply_fault (view value.now))) }
{
    let output = required_object(value, Name::Output)?;
    artifacts(alloc, output)
}

fn artifacts(alloc: Global, output: &Value) -> Result<Evidence, RestFault>
    ensures ok { IfOk result (HasArtifacts (view output.now)) }
    ensures fits { IfOk result FitsLimits }
    ensures refused { IfErr result (IsFault (output_fault (view output.now))) }
{
    let ci = artifact(alloc, output, Name::ConveyedInformation)?;
    let oc = optional_artifact(alloc, output, Name::OwnerCertificate)?;
    let ov = optional_artifact(alloc, output, Name::OwnershipVoucher)?;
    Ok(Evidence { ci, oc, ov })
}

fn artifact(alloc: Global, output: &Value, name: Name) -> Result<Bytes, RestFault>
    ensures ok { IfOk result (λ artifact. required binary_of name (view output.now) ≡ Ok artifact) }
    ensures fits { IfOk result Fits }
    ensures refused { IfErr result (IsFault (member_fault (required binary_of name (view output.now)) size_fault)) }
{
    let artifact = required_binary(alloc, output, name)?;
    within_limit(artifact)
}

fn optional_artifact(alloc: Global, output: &Value, name: Name) -> Result<Option<Bytes>, RestFault>
    ensures ok { IfOk result (λ artifact. optional binary_of name (view output.now) ≡ Ok artifact) }
    ensures fits { IfOk result (λ artifact. IfSome artifact Fits) }
    ensures refused { IfErr result (IsFault (member_fault (optional binary_of name (view output.now))
        size_fault_where)) }
{
    match binary(alloc, output, name)? {
        Some(artifact) => Ok(Some(within_limit(artifact)?)),
        None => Ok(None),
    }
}

// The artifact, where it is not over the limit.
fn within_limit(artifact: Bytes) -> Result<Bytes, RestFault>
    ensures ok { IfOk result (λ kept. (kept ≡ artifact) × Fits artifact) }
    ensures refused { IfErr result (λ fault. size_fault artifact ≡ Some fault) }
{
    if artifact.len() as u64 > MOST_ARTIFACT_BYTES {
        return Err(RestFault::TooLarge {
            limit: MOST_ARTIFACT_BYTES,
        });
    }
    Ok(artifact)
}
