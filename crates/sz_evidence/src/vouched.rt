//! The voucher: whether it is right for the device at the moment.

ghost use Rattle.std.specs.Prelude.{◌≡◌, IfOk, IfErr, OnOk, None};
ghost use Rattle.sz_base.specs.Identity.{IsWhole};
ghost use Rattle.sz_chain.specs.SignedBy.{SignedBy};
ghost use Rattle.sz_cms.specs.View.{signed_of};
ghost use Rattle.sz_evidence.specs.Authorised.{VoucherOk};
ghost use Rattle.sz_evidence.specs.Judgement.{First, IsUnfit, PinsNoCertificate, RefusesVoucher, voucher_reason, voucher_rules};
ghost use Rattle.sz_evidence.specs.View.{IsReason};
ghost use Rattle.sz_artifacts.specs.Vouching.{VouchesFor};
ghost use Rattle.sz_x509.specs.Certificate.{Certificate, CertOf};

use crate::messages::voucher_message;
use crate::strings::{all_of, anchors_of};
use crate::{Artifact, Reason, Refusal};
use std::alloc::Global;
use sz_artifacts::{Voucher, VoucherFault, judge};
use sz_base::{Bytes, Identity, Moment, Seconds};
use sz_chain::signed_by;
use sz_cms::Signed;
use sz_json::Name;
use sz_x509::Cert;

/// The voucher, where it is right: signed under the identity's anchors, for this device at this moment, and with a
/// certificate that it pins.
pub(crate) fn right_voucher(
    alloc: Global,
    identity: &Identity,
    when: Moment,
    ov: &Option<Bytes>,
) -> Result<Voucher, Refusal>
    requires whole { IsWhole identity.now }
    ensures ok { IfOk result (VoucherOk ov.now identity.now when) }
    ensures refused { IfErr result (IsReason (First (voucher_rules identity.now when ov.now))) }
{
    let signed = voucher_message(ov)?;
    let content = check_maker(&signed, identity, when.time)?;
    let voucher = Voucher::read(alloc, content)?;
    check_fit(&voucher, identity, when)?;
    check_pinned(&voucher)?;
    Ok(voucher)
}

// The content, where it is signed under one of the identity's anchors.
fn check_maker<'a>(
    signed: &Signed<'a>,
    identity: &'a Identity,
    when: Seconds,
) -> Result<&'a [u8], Refusal>
    requires whole { IsWhole identity.now }
    ensures ok { IfOk result (λ content. SignedBy (signed_of signed.entry.now) (signed_of signed.entry.now).certs
        identity.entry.now.anchors None when.0 content.now) }
    ensures refused { IfErr result (IsReason (RefusesVoucher (signed_of signed.entry.now) identity.entry.now when)) }
{
    let bag = all_of(signed.certs.as_slice());
    let anchors = anchors_of(identity.anchors.as_slice());
    match signed_by(signed, &bag, &anchors, None, when) {
        Ok(content) => Ok(content),
        Err(fault) => Err(Refusal::Reason(Reason::NoChain {
            artifact: Artifact::Voucher,
            fault,
        })),
    }
}

// Whether the voucher is for this device at this moment.
fn check_fit(voucher: &Voucher, identity: &Identity, when: Moment) -> Result<(), Refusal>
    ensures ok { OnOk result (VouchesFor voucher.now identity.now.serial when) }
    ensures refused { IfErr result (IsReason (IsUnfit voucher.now identity.now when)) }
{
    match judge(voucher, &identity.serial, when) {
        Ok(()) => Ok(()),
        Err(fault) => Err(Refusal::Reason(reason_of(fault))),
    }
}

// the reason that stands for a fault of a voucher
fn reason_of(fault: VoucherFault) -> Reason
    ensures { result ≡ voucher_reason fault }
{
    match fault {
        VoucherFault::WrongSerial => Reason::WrongSerial,
        VoucherFault::Nonce => Reason::Nonce,
        VoucherFault::Expired => Reason::Expired,
    }
}

// Whether what the voucher pins is a certificate.
fn check_pinned(voucher: &Voucher) -> Result<(), Refusal>
    ensures ok { OnOk result ((cert : Certificate) × CertOf voucher.now.pinned cert) }
    ensures refused { IfErr result (IsReason (PinsNoCertificate voucher.now)) }
{
    match Cert::read(voucher.pinned.as_slice()) {
        Ok(_) => Ok(()),
        Err(_) => Err(Refusal::Reason(Reason::Member {
            name: Name::PinnedDomainCert,
        })),
    }
}
