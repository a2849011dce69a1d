//! Keys of one to three levels of trees, all made from one secret: their leaf numbers, their public keys, what they
//! sign (RFC 8554 section 6), and their stored form.
#![tactic(auto)]

mod batch;
mod key;
mod laws;
mod leaf;
mod level;
mod levels_text;
mod reading;
mod stored;
mod trees;

pub use key::Key;
pub use laws::{
    leaves_sign_once, levels_read_back, signatures_verify, stored_keys_have_no_wrong_byte,
};
pub use level::{Level, Levels};
pub use reading::{BadKey, read};
pub use stored::{Payload, StoredKey, spell};
pub use trees::Trees;
