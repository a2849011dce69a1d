//! The judgement on evidence.

ghost use Rattle.std.specs.Prelude.{◌≡◌, Ok, Err, IfOk, IfErr};
ghost use Rattle.sz_base.specs.Identity.{IsWhole};
ghost use Rattle.sz_cms.specs.View.{signed_of};
ghost use Rattle.sz_evidence.specs.Authorised.{IsSignedInformation};
ghost use Rattle.sz_evidence.specs.Judgement.{First, Judgement, plain_rules, RefusesInformation};
ghost use Rattle.sz_evidence.specs.View.{IsPlainJudged, IsReason, owner_of};

use crate::messages::{check_kind, owner_certificate, read_message};
use crate::strings::{bag_of, certs_of, crls_of, if_asked};
use crate::vouched::right_voucher;
use crate::{Artifact, Reason};
use std::alloc::Global;
use sz_artifacts::{Conveyed, Onboarding, Voucher, is_onboarding};
use sz_base::{Evidence, Identity, Moment, Targets};
use sz_chain::signed_by;
use sz_cms::{Info, Signed};
use sz_json::JsonFault;

/// What evidence is judged as.
#[derive(Debug, Drop)]
pub enum Judged {
    /// A redirect that is not signed, to these targets.
    Unsigned(Targets),
    /// A redirect that is signed by the owner whom the voucher names, to these targets.
    Redirect(Targets),
    /// Onboarding information that is authorised.
    Onboarding(Onboarding),
}

/// Why evidence is not taken.
#[derive(Debug, Drop)]
pub enum Refusal {
    /// The first reason in the order of judgement.
    Reason(Reason),
    /// Memory ran out.
    OutOfMemory,
}

impl From<JsonFault> for Refusal {
    ghost use Rattle.std.specs.Prelude.{◌≡◌};
    ghost use Rattle.sz_evidence.specs.View.{json_refusal};

    ghost from_gives = { λ fault e. e ≡ json_refusal fault };

    fn from(fault: JsonFault) -> Self {
        match fault {
            JsonFault::Member { name } => Refusal::Reason(Reason::Member { name }),
            JsonFault::OutOfMemory => Refusal::OutOfMemory,
        }
    }
}

/// Judges the evidence for the device of this identity at this moment (RFC 8572 section 5.4): onboarding information
/// exactly where it is authorised, or a redirect, and else the first reason in the order of judgement. Memory is taken
/// for the fields of the voucher and of the conveyed information alone.
pub fn judge(
    alloc: Global,
    identity: &Identity,
    when: Moment,
    evidence: &Evidence,
) -> Result<Judged, Refusal>
    requires whole { IsWhole identity.now }
    ensures judged { IfOk result (λ judged. Judgement identity.now when evidence.now (Ok judged)) }
    ensures refused { IfErr result (IsReason (λ reason. Judgement identity.now when evidence.now (Err reason))) }
{
    let info = read_message(Artifact::Conveyed, evidence.ci.as_slice())?;
    check_kind(&info)?;
    let signed = match info {
        Info::Plain { content, .. } => return judge_plain(alloc, content),
        Info::Signed(signed) => signed,
    };
    let voucher = right_voucher(alloc, identity, when, &evidence.ov)?;
    let owner = owner_certificate(&evidence.oc)?;
    let content = check_owner(&signed, &owner, &voucher, when)?;
    match Conveyed::read(alloc, content)? {
        Conveyed::Redirect(targets) => Ok(Judged::Redirect(targets)),
        Conveyed::Onboarding(onboarding) => Ok(Judged::Onboarding(onboarding)),
    }
}

// Judges conveyed information that is not signed.
fn judge_plain(alloc: Global, content: &[u8]) -> Result<Judged, Refusal>
    ensures judged { IfOk result (IsPlainJudged content.now) }
    ensures refused { IfErr result (IsReason (First (plain_rules content.now))) }
{
    if is_onboarding(alloc, content)? {
        return Err(Refusal::Reason(Reason::Unsigned));
    }
    match Conveyed::read(alloc, content)? {
        Conveyed::Redirect(targets) => Ok(Judged::Unsigned(targets)),
        Conveyed::Onboarding(_) => Err(Refusal::Reason(Reason::Unsigned)),
    }
}

// The content, where it is signed under the certificate that the voucher pins.
fn check_owner<'a>(
    signed: &Signed<'a>,
    owner: &Option<Signed<'a>>,
    voucher: &'a Voucher,
    when: Moment,
) -> Result<&'a [u8], Refusal>
    ensures ok { IfOk result (λ content. IsSignedInformation (signed_of signed.entry.now) (owner_of owner.entry.now)
        voucher.entry.now when content.now) }
    ensures refused { IfErr result (IsReason (RefusesInformation (signed_of signed.entry.now)
        (owner_of owner.entry.now) voucher.entry.now when)) }
{
    let bag = certs_of(signed, owner);
    let crls = crls_of(signed, owner);
    let anchors = bag_of(voucher.pinned.as_slice());
    let asked = if_asked(voucher.revocation, &crls);
    match signed_by(signed, &bag, &anchors, asked, when.time) {
        Ok(content) => Ok(content),
        Err(fault) => Err(Refusal::Reason(Reason::NoChain {
            artifact: Artifact::Conveyed,
            fault,
        })),
    }
}
