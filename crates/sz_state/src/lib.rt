//! A device on its disk: its record in a cell, and its images in two areas. A crash at any moment of a call leaves a
//! disk that stands for the device from before or for the one after.
//!
//! What the bytes of a disk stand for is one definition: the cell's value is the stored form of the device, and where
//! the device has an image, its bytes with the named SHA-256 are in its area. The layout is this project's own.
#![tactic(auto)]

mod areas;
mod change;
mod fault;
mod fitting;
mod found;
mod held;
mod initial;
mod laws;
mod room;
mod satisfied;
mod sizes;
mod spare;
mod staged;

pub use areas::Layout;
pub use change::{install, onboard};
pub use fault::StateFault;
pub use fitting::fits;
pub use found::attach;
pub use held::Held;
pub use initial::init;
pub use laws::{stands_while_staged, stays_found};
pub use room::Staging;
pub use satisfied::is_satisfied;
pub use sizes::layout;
pub use spare::staging;
pub use staged::Staged;
