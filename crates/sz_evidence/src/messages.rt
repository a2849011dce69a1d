//! The messages of the evidence, read as what each has to be.

ghost use Rattle.std.specs.Prelude.{◌≡◌, IfOk, IfErr, OnOk};
ghost use Rattle.sz_cms.specs.Message.{InfoOf};
ghost use Rattle.sz_cms.specs.View.{info_of, IsNamed, kind_of, signed_of};
ghost use Rattle.sz_evidence.specs.Authorised.{IsInformation, IsOwner, IsVoucherMessage};
ghost use Rattle.sz_evidence.specs.Judgement.{First, kind_in, message_reason, message_rules, OtherKind, owner_rules, Unreadable};
ghost use Rattle.sz_evidence.specs.View.{IsReason, owner_of};

use crate::{Artifact, Reason, Refusal, What};
use sz_base::Bytes;
use sz_cms::identifier::VOUCHER;
use sz_cms::{Info, InfoFault, InfoKind, Kind, Signed};

/// The message that the bytes of an artifact are.
pub(crate) fn read_message<'a>(artifact: Artifact, bytes: &'a [u8]) -> Result<Info<'a>, Refusal>
    ensures ok { IfOk result (λ info. InfoOf bytes.entry.now (info_of info)) }
    ensures named { IfOk result (λ info. IsNamed (kind_of info)) }
    ensures refused { IfErr result (IsReason (Unreadable artifact bytes.entry.now)) }
{
    match Info::read(bytes) {
        Ok(info) => Ok(info),
        Err(fault) => Err(Refusal::Reason(reason_of(artifact, fault))),
    }
}

// the reason that stands for a fault of an artifact
fn reason_of(artifact: Artifact, fault: InfoFault) -> Reason
    ensures { result ≡ message_reason artifact (fault.kind, fault.place) }
{
    match fault.kind {
        InfoKind::Der => Reason::BadDer {
            artifact,
            place: fault.place,
        },
        _ => Reason::BadCms { artifact },
    }
}

// the artifact is not the message that has to be there
fn bad_cms(artifact: Artifact) -> Refusal
    ensures { result ≡ Refusal.Reason (Reason.BadCms artifact) }
{
    Refusal::Reason(Reason::BadCms { artifact })
}

/// Whether a message is of a type of conveyed information that is read.
pub(crate) fn check_kind(info: &Info<'_>) -> Result<(), Refusal>
    requires { IsNamed (kind_of info.now) }
    ensures ok { OnOk result (IsInformation (kind_in (info_of info.now))) }
    ensures refused { IfErr result (IsReason (OtherKind (info_of info.now))) }
{
    let kind = match info {
        Info::Plain { kind, .. } => *kind,
        Info::Signed(signed) => signed.kind,
    };
    match kind {
        Kind::ConveyedJson | Kind::Data => Ok(()),
        Kind::ConveyedXml => Err(Refusal::Reason(Reason::XmlContent)),
        Kind::Enveloped => Err(Refusal::Reason(Reason::Encrypted)),
        _ => Err(bad_cms(Artifact::Conveyed)),
    }
}

/// The voucher, as signed data of its type.
pub(crate) fn voucher_message<'a>(ov: &'a Option<Bytes>) -> Result<Signed<'a>, Refusal>
    ensures ok { IfOk result (λ signed. IsVoucherMessage ov.entry.now (signed_of signed)) }
    ensures refused { IfErr result (IsReason (First (message_rules ov.entry.now))) }
{
    let Some(bytes) = ov else {
        return Err(Refusal::Reason(Reason::Absent {
            what: What::Voucher,
        }));
    };
    let Info::Signed(signed) = read_message(Artifact::Voucher, bytes.as_slice())? else {
        return Err(bad_cms(Artifact::Voucher));
    };
    if signed.kind.identifier() != VOUCHER.as_slice() {
        return Err(bad_cms(Artifact::Voucher));
    }
    Ok(signed)
}

/// The owner certificate, where it is there, as signed data.
pub(crate) fn owner_certificate<'a>(oc: &'a Option<Bytes>) -> Result<Option<Signed<'a>>, Refusal>
    ensures ok { IfOk result (λ owner. IsOwner oc.entry.now (owner_of owner)) }
    ensures refused { IfErr result (IsReason (First (owner_rules oc.entry.now))) }
{
    let Some(bytes) = oc else {
        return Ok(None);
    };
    match read_message(Artifact::Owner, bytes.as_slice())? {
        Info::Signed(signed) => Ok(Some(signed)),
        Info::Plain { .. } => Err(bad_cms(Artifact::Owner)),
    }
}
