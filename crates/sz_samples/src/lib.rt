//! Artifacts that other software made, each in base64, for the tests of the crates above.
#![tactic(auto)]

mod evidence;
mod imaged;
mod nonce;
mod pinned;

pub use evidence::{ANCHOR, CERTIFICATES, INFORMATION, VOUCHER};
pub use imaged::{IMAGED_ANCHOR, IMAGED_CERTIFICATES, IMAGED_INFORMATION, IMAGED_VOUCHER};
pub use nonce::{NONCE_CERTIFICATES, NONCE_INFORMATION, NONCE_VOUCHER};
pub use pinned::{PINNED_INFORMATION, PINNED_VOUCHER};
