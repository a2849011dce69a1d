//! Whether a message is signed by one to whom a chain of certificates leads down from a trust anchor (RFC 5652 and
//! RFC 5280 section 6.1, in this project's profile). No call takes memory.
//!
//! `Chain` of `specs/` says what a chain is: a property of each certificate, of each link and of its end. `find_chain`
//! answers whether there is one for signers among the places of a bag, and finds it wherever it exists. `signed_by`
//! answers the content exactly where `SignedBy` of `specs/` holds, and else what is missing: each refusal is a fact
//! about what there is, a signer, a certificate that fits it, a signature that verifies, a chain.
#![tactic(auto)]

mod bag;
mod fault;
mod links;
mod lists;
mod node;
mod place;
mod search;
mod set;
mod signed;
mod signers;
mod test_of;
pub mod usage;
mod verify;
mod way;

pub use bag::{Bag, BagFull, CrlBag, MOST_CERTS, MOST_CRLS, Slices, bags_have_room};
pub use fault::{ChainFault, Why};
pub use place::{MOST_PLACES, Place, Places, places_of};
pub use set::PlaceSet;
pub use signed::signed_by;
pub use test_of::{Test, select};
pub use verify::select_verifying;
pub use way::{NoChain, find_chain};
