//! The reader of a voucher.

ghost use Rattle.std.specs.Prelude.{◌≡◌, Ok, IfOk, IfErr, option_and_then};
ghost use Rattle.std.specs.Option.{option_copied};
ghost use Rattle.serde_json.specs.View.{view};
ghost use Rattle.sz_json.specs.Fault.{fault_of, IsFault, IsTextFault};
ghost use Rattle.sz_json.specs.Member.{optional, required};
ghost use Rattle.sz_artifacts.specs.Assertion.{assertion_in, assertion_of};
ghost use Rattle.sz_artifacts.specs.Voucher.{HasMembers, IsVoucher, members_fault, nonce_of, voucher_fault, VoucherOf};
ghost use Rattle.sz_artifacts.specs.WrittenVoucher.{IsWritable};

use crate::voucher::{LONGEST_NONCE, SHORTEST_NONCE};
use crate::{Assertion, Voucher};
use std::alloc::Global;
use sz_base::Bytes;
use sz_json::{
    JsonFault, Name, Value, binary, flag, member, required_binary, required_object, required_text,
    required_time, time,
};

const BAD_ASSERTION: JsonFault = JsonFault::Member {
    name: Name::Assertion,
};

const BAD_NONCE: JsonFault = JsonFault::Member { name: Name::Nonce };

impl Voucher {
    /// Reads a content. `Member` exactly of the first member that is missing or of the wrong form, with the name `Json`
    /// where the content is no bounded JSON.
    pub fn read(alloc: Global, content: &[u8]) -> Result<Self, JsonFault>
        ensures ok { IfOk result (VoucherOf content.now) }
        ensures writable { IfOk result IsWritable }
        ensures refused { IfErr result (IsTextFault voucher_fault content.now) }
    {
        let value = sz_json::read_bounded(alloc, content)?;
        of_value(alloc, &value)
    }
}

#[tactic(auto, using(sz_json::proofs::Faults::outer_fault))]
fn of_value(alloc: Global, value: &Value) -> Result<Voucher, JsonFault>
    ensures ok { IfOk result (IsVoucher (view value.now)) }
    ensures writable { IfOk result IsWritable }
    ensures refused { IfErr result (IsFault (voucher_fault (view value.now))) }
{
    let inside = required_object(value, Name::Voucher)?;
    members(alloc, inside)
}

#[tactic(auto, using(sz_json::proofs::Faults::first_fault))]
fn members(alloc: Global, inside: &Value) -> Result<Voucher, JsonFault>
    ensures ok { IfOk result (HasMembers (view inside.now)) }
    ensures writable { IfOk result IsWritable }
    ensures refused { IfErr result (IsFault (members_fault (view inside.now))) }
{
    let created_on = required_time(inside, Name::CreatedOn)?;
    let expires_on = time(inside, Name::ExpiresOn)?;
    let assertion = assertion(inside)?;
    let serial = required_text(alloc, inside, Name::SerialNumber)?;
    let _issuer = binary(alloc, inside, Name::IdevidIssuer)?;
    let pinned = required_binary(alloc, inside, Name::PinnedDomainCert)?;
    let checks = flag(inside, Name::DomainCertRevocationChecks)?;
    let nonce = nonce(alloc, inside)?;
    let _renewal = time(inside, Name::LastRenewalDate)?;
    Ok(Voucher {
        expires_on,
        serial,
        pinned,
        revocation: checks.unwrap_or(false),
        nonce,
        assertion,
        created_on,
    })
}

fn assertion(inside: &Value) -> Result<Assertion, JsonFault>
    ensures ok { IfOk result (λ assertion. required assertion_of Name.Assertion (view inside.now) ≡ Ok assertion) }
    ensures refused { IfErr result (IsFault (fault_of (required assertion_of Name.Assertion (view inside.now)))) }
{
    let Some(member) = member(inside, Name::Assertion)? else {
        return Err(BAD_ASSERTION);
    };
    match in_text(member.as_str()) {
        Some(assertion) => Ok(assertion),
        None => Err(BAD_ASSERTION),
    }
}

fn in_text(text: Option<&str>) -> Option<Assertion>
    ensures { result ≡ option_and_then assertion_in (option_copied text.entry) }
{
    let text = text?;
    if text == "verified" {
        Some(Assertion::Verified)
    } else if text == "logged" {
        Some(Assertion::Logged)
    } else if text == "proximity" {
        Some(Assertion::Proximity)
    } else {
        None
    }
}

// the nonce, if there is one
fn nonce(alloc: Global, inside: &Value) -> Result<Option<Bytes>, JsonFault>
    ensures ok { IfOk result (λ nonce. optional nonce_of Name.Nonce (view inside.now) ≡ Ok nonce) }
    ensures refused { IfErr result (IsFault (fault_of (optional nonce_of Name.Nonce (view inside.now)))) }
{
    match binary(alloc, inside, Name::Nonce)? {
        Some(bytes) if bytes.len() >= SHORTEST_NONCE && bytes.len() <= LONGEST_NONCE => Ok(Some(
            bytes,
        )),
        Some(_) => Err(BAD_NONCE),
        None => Ok(None),
    }
}
