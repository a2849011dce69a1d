//! The audit of a device on its disk: the evidence that it keeps is judged again at its stored moments, its stored
//! fields are compared with what the evidence names, and the bytes of its image are hashed. Nothing is written.
#![tactic(auto)]

mod auditing;
mod commitment;
mod found;
mod hashing;
mod image;
mod judging;
mod laws;

pub use auditing::audit;
pub use found::{Audit, Found};
pub use laws::lawful_devices_are_authorised;
