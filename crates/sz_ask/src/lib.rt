//! Asking a bootstrap server (RFC 8572 section 7): one exchange over the network with the request for bootstrapping
//! data, and the evidence that its reply gives.
#![tactic(auto)]

mod asking;
mod fault;
mod incoming;

pub use asking::{MOST_REPLY_BYTES, ask};
pub use fault::ServerFault;
