//! What one visit of a source of bootstrapping data comes to (RFC 8572 section 5.3): the artifacts in a folder, the
//! message in a file or the reply of a server, as servers to go on with, an offer, or the reason of a refusal.
#![tactic(auto)]

mod answer;
mod visiting;

pub use answer::Answer;
pub use visiting::visit;
