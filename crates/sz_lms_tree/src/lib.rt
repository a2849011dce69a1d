//! Trees of one-time keys with SHA-256 and 32-byte values (RFC 8554 sections 4 and 5), each made from one
//! secret: their leaves, roots and children, and the signatures of their leaves.
#![tactic(auto)]

mod gate;
mod halves;
mod jobs;
mod kept;
mod nodes;
mod public;
mod secrets;
mod signing;
mod trees;

pub use gate::{Gate, OpenGate, Part};
pub use jobs::most_jobs;
pub use nodes::{leaf, root};
pub use public::public_of;
pub use secrets::{Secret, child};
pub use trees::Tree;
