//! Whether evidence authorises a device to be bootstrapped (RFC 8572 section 5): the judgement on conveyed information,
//! owner certificate and ownership voucher, as one answer that a table of rules gives.
//!
//! Beside it stand the reasons for which a visit of a source comes to nothing, and the file of an identity.
#![tactic(auto)]

mod identity;
mod judgement;
mod laws;
mod messages;
mod reason;
mod strings;
mod vouched;

pub use identity::{IdentityFault, read_identity};
pub use judgement::{Judged, Refusal, judge};
pub use laws::{
    authorised_has_not_expired, authorised_has_the_nonce, authorised_is_for_the_serial_number,
    evidence_authorises_one, identities_are_single, judged_onboarding_is_authorised,
    judgements_are_single, unsigned_is_not_authorised,
};
pub use reason::{Artifact, Reason, What};
