//! A signer whose key stands on a disk. It hands a leaf number out only once the disk says that it is spent, so that no
//! one-time key ever signs two messages, through any power cut.
#![tactic(auto)]

mod fault;
mod laws;
mod leaves;
mod opening;
mod reserving;
mod signer;
mod signing;

pub use fault::SignFault;
pub use laws::leaf_numbers_sign_once;
pub use leaves::Leaves;
pub use signer::Signer;
