//! The sources that a device asks for bootstrapping data (RFC 8572 section 4), as they are named on a command line, and
//! the items that a walk over sources visits.
#![tactic(auto)]

mod item;
mod laws;
mod source;

pub use item::Item;
pub use laws::sources_read_back;
pub use source::{MOST_SOURCES, Source, Sources};
