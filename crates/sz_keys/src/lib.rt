//! The commands of keys: `check`, which says whether a file has a signature under a public key, `keygen`, which makes a
//! key on a disk, and `sign`, which signs a file with it.
#![tactic(auto)]

mod check_command;
mod keygen_command;
mod making;
mod pieces;
mod sign_command;
mod signer_failure;
mod signing;
mod spending;
mod verdict;

pub use check_command::{CheckPaths, check};
pub use keygen_command::{KeygenWords, keygen, say_made};
pub use sign_command::{SignWords, say_signed, sign};
pub use verdict::{Checked, say_checked};
