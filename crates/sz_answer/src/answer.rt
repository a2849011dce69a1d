//! What a visit comes to.

use sz_artifacts::Onboarding;
use sz_base::{Evidence, Targets};
use sz_evidence::Reason;

/// What a visit comes to, before an offer is tried.
#[derive(Debug, Drop)]
pub enum Answer {
    /// A message names these servers.
    Listed(Targets),
    /// A redirect to these servers, signed or not.
    Redirected(Targets),
    /// Onboarding information that is authorised, with the evidence of it.
    Offered(Onboarding, Evidence),
    /// It comes to nothing.
    Refused(Reason),
}
