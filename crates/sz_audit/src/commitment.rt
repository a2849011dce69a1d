//! The audit of what a device was committed to.

ghost use Rattle.std.specs.Prelude.{◌≡◌, ◌↔◌, IfOk, IfErr, IsTrue};
ghost use Rattle.sz_base.specs.Identity.{IsWhole};
ghost use Rattle.sz_audit.specs.Audit.{FindsCommitment, HasFields};

use crate::Found;
use crate::judging::{Stored, judge_stored};
use std::alloc::Global;
use sz_artifacts::Onboarding;
use sz_base::{Bytes, Identity};
use sz_record::Committed;
use sz_state::StateFault;

/// What is found of what a device was committed to: its evidence first, then its fields.
pub(crate) fn audit_commitment(
    alloc: Global,
    identity: &Identity,
    committed: &Committed,
) -> Result<Found, StateFault>
    requires { IsWhole identity.now }
    ensures found { IfOk result (FindsCommitment identity.now committed.now) }
    ensures refused { IfErr result (λ fault. fault ≡ StateFault.OutOfMemory) }
{
    match judge_stored(alloc, identity, committed.when, &committed.evidence) {
        Ok(Stored::Authorises(onboarding)) if has_fields(committed, &onboarding) => {
            Ok(Found::Authorised)
        }
        Ok(Stored::Authorises(_)) => Ok(Found::OtherFields),
        Ok(Stored::Refused(reason)) => Ok(Found::Refused(reason)),
        Err(_) => Err(StateFault::OutOfMemory),
    }
}

// Whether the fields are those that the information names.
fn has_fields(committed: &Committed, onboarding: &Onboarding) -> bool
    ensures { IsTrue result ↔ HasFields committed.now onboarding.now }
{
    committed.handling == onboarding.handling
        && are_same(&committed.pre, &onboarding.pre)
        && are_same(&committed.configuration, &onboarding.configuration)
        && are_same(&committed.post, &onboarding.post)
}

// Whether both are there with the same bytes, or neither is.
fn are_same(one: &Option<Bytes>, other: &Option<Bytes>) -> bool
    ensures { IsTrue result ↔ (one.now ≡ other.now) }
{
    match (one, other) {
        (None, None) => true,
        (Some(one), Some(other)) => one.as_slice() == other.as_slice(),
        _ => false,
    }
}
