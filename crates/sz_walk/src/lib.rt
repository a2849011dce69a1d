//! The walk of a device over its sources of bootstrapping data (RFC 8572 section 5.2): what is visited, in which order,
//! what is noted of each visit, and where the walk ends.
#![tactic(auto)]

mod entry;
mod laws;
mod progress;
mod step;
mod trial;
mod visit;
mod walk;

pub use laws::{run_begins, run_goes_on, run_is_walk, visits_own_few};
pub use step::Step;
pub use trial::Tries;
pub use visit::{Note, Visit, Visits};
pub use walk::Walk;
