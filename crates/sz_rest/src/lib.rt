//! The texts of get-bootstrapping-data (RFC 8572 section 7) as messages of HTTP, at both ends: a device writes its
//! request and reads the reply, a server reads the request and writes the reply or a refusal.
#![tactic(auto)]

mod asked;
mod evidence;
mod fault;
mod laws;
mod message;
mod reply;
mod request;

pub use asked::{Asked, read_request};
pub use evidence::read_reply;
pub use fault::{AskFault, RestFault};
pub use laws::{faultless_values_are_replies, replies_read_back, requests_have_one_answer};
pub use reply::{write_refusal, write_reply};
pub use request::write_request;
