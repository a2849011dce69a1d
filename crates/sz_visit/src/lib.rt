//! What a device makes of one visit of a source of bootstrapping data (RFC 8572 section 4): the artifacts in a folder,
//! and the message in a file.
#![tactic(auto)]

mod fault;
mod files;
mod storage;

pub use fault::FileFault;
pub use files::{MOST_MESSAGE_BYTES, read_message};
pub use storage::read_storage;
