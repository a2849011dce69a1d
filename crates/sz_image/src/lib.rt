//! The download of an image over HTTP, from one URI or the first of several that gives it: it goes to a room piece by
//! piece as it comes, its SHA-256 digest is carried along, and no more of it is ever in memory than one piece.
#![tactic(auto)]

mod choice;
mod download;
mod head;
mod incoming;
mod receive;
mod request;

pub use choice::{NoImage, fetch_first};
pub use download::fetch;
