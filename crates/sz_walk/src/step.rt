//! What one call of a walk comes to.

use sz_artifacts::Onboarding;
use sz_base::Evidence;

/// What a call of `Walk::next` came to.
#[derive(Debug, Drop)]
pub enum Step {
    /// Onboarding information that is authorised, with the evidence of it. The visit is noted as accepted; where the
    /// offer is not taken, `Walk::refuse` notes why.
    Offer(Onboarding, Evidence),
    /// A visit that came to something else.
    Passed,
    /// Nothing is left to visit.
    Done,
    /// Memory ran out. The walk isn't continued.
    OutOfMemory,
}
