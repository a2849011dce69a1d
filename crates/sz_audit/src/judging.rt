//! Stored evidence, judged again.

ghost use Rattle.std.specs.Prelude.{IfOk};
ghost use Rattle.sz_base.specs.Identity.{IsWhole};
ghost use Rattle.sz_audit.specs.Audit.{IsStored};

use std::alloc::Global;
use sz_artifacts::Onboarding;
use sz_base::{Evidence, Identity, Moment, OutOfMemory};
use sz_evidence::{Judged, Reason, Refusal, judge};

/// What stored evidence is.
pub(crate) enum Stored {
    /// It authorises this information.
    Authorises(Onboarding),
    /// It authorises nothing, for this reason.
    Refused(Reason),
}

/// Judges evidence at its stored moment.
pub(crate) fn judge_stored(
    alloc: Global,
    identity: &Identity,
    when: Moment,
    evidence: &Evidence,
) -> Result<Stored, OutOfMemory>
    requires { IsWhole identity.now }
    ensures { IfOk result (IsStored identity.now when evidence.now) }
{
    match judge(alloc, identity, when, evidence) {
        Ok(Judged::Onboarding(onboarding)) => Ok(Stored::Authorises(onboarding)),
        Ok(Judged::Redirect(_)) => Ok(Stored::Refused(Reason::Unsigned)),
        Ok(Judged::Unsigned(_)) => Ok(Stored::Refused(Reason::Unsigned)),
        Err(Refusal::Reason(reason)) => Ok(Stored::Refused(reason)),
        Err(Refusal::OutOfMemory) => Err(OutOfMemory),
    }
}
