//! Signed messages (CMS, RFC 5652) with HSS/LMS signatures (RFC 8708): read as slices of their bytes, and written.
//!
//! `Info` is a message, plain or signed; `InfoOf` of `specs/Message` says which bytes are which message. What a signer
//! covers and whether its digest is that of the content follow RFC 5652 sections 5.4 and 11. The writers give messages
//! with the given values, whose signer's digest fits and which cover what was signed.
#![tactic(auto)]

mod attributes;
mod fault;
pub mod identifier;
mod info;
mod kind;
mod laws;
mod reading;
mod signer;
mod signers;
mod writing;

pub use fault::{InfoFault, InfoKind};
pub use info::{Info, MOST_CERTS, MOST_CRLS, MOST_SIGNERS, Signed};
pub use kind::Kind;
pub use laws::{fault_or_message, kinds_are_apart, written_once};
pub use signer::{Covered, Identifier, SignedAttributes, Signer};
pub use writing::{write_attributes, write_certs, write_plain, write_signed};
