//! Visits, as they are noted.

use sz_base::Items;
use sz_evidence::Reason;
use sz_source::Item;

/// One visit.
#[derive(Debug, Drop)]
pub struct Visit {
    /// The number of the source, from 0.
    pub source: u16,
    /// How many redirects led to it.
    pub depth: u8,
    pub item: Item,
    pub note: Note,
}

/// What a visit came to.
#[derive(Debug, Drop)]
pub enum Note {
    /// A message that names so many servers; 65,535 where there are more.
    Listed(u16),
    /// A redirect to so many servers, likewise.
    Redirected(u16),
    /// Onboarding information that was offered, and not turned down.
    Accepted,
    /// It came to nothing.
    Refused(Reason),
}

/// Visits, in the order in which they were made.
pub type Visits = Items<Visit>;
