//! Verifying one-time signatures, signatures of one tree and of up to eight levels of trees: LM-OTS, LMS and
//! HSS (RFC 8554 sections 4 to 6), with SHA-256 and values of 32 bytes. No call takes memory.
//!
//! `hss_verify`, `lms_verify` and `HssCheck`, which takes the message in pieces, answer the first rule that a
//! signature breaks, in one written order, and `law` says that none is broken exactly where the standard calls
//! it a signature. What a signer shares with the verifier is here too: chains, digits, leaves and nodes.
#![tactic(auto)]

mod buffer;
mod bytes;
mod chain;
mod check;
mod digits;
mod fault;
mod hash;
mod hss;
pub mod law;
mod level;
mod ots;
mod path;
mod types;
mod verify;

pub use chain::run_chain;
pub use check::HssCheck;
pub use digits::{digit, signed_bytes};
pub use fault::HssFault;
pub use hash::{hashed, inner_node, key_hasher, leaf_node};
pub use hss::{HSS_PUBLIC_LENGTH, LONGEST_SIGNATURE};
pub use ots::message_digest;
pub use types::{LmsType, OtsType};
pub use verify::{hss_verify, lms_verify, ots_candidate};
