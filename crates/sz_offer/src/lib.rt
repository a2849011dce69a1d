//! What a device makes of an offer of onboarding information (RFC 8572 section 5.6): whether the record that it would
//! store next fits its disk, whether what runs is what the information asks for, and else the download of the image
//! that it names.
//!
//! The verdict on an offer, with the exchanges that it owns, is a definition (`specs/Offer`); `try_offer` comes to
//! it, and says what was staged and what can be done next.
#![tactic(auto)]

mod laws;
mod trial;
mod trying;

pub use laws::authorised_names_are_short;
pub use trial::Trial;
pub use trying::try_offer;
