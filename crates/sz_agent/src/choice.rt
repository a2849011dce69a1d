//! What the walk of a boot comes to.

use sz_artifacts::Onboarding;
use sz_base::Evidence;
use sz_state::Staged;
use sz_walk::Visits;

/// Onboarding information, with the evidence that authorises it.
#[derive(Debug, Drop)]
pub(crate) struct Offer {
    pub(crate) onboarding: Onboarding,
    pub(crate) evidence: Evidence,
}

/// What the walk of a boot comes to.
#[derive(Debug, Drop)]
pub(crate) enum Choice {
    /// The device can be committed to this offer.
    Commits(Offer),
    /// The image of this offer is staged, and can be put in place.
    Installs(Staged, Offer),
    /// No offer can be taken.
    Nothing,
    /// The disk failed.
    DiskFault,
    /// Memory ran out.
    OutOfMemory,
}

/// A walk that is over.
#[derive(Debug, Drop)]
pub(crate) struct Searched {
    pub(crate) choice: Choice,
    pub(crate) visits: Visits,
}
