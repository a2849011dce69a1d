//! One boot of a device (RFC 8572 section 5): its disk is attached, a nonce is drawn, its sources are walked over,
//! and the first offer that the device can take is taken: an image is put in place, or the device is committed.
//!
//! A boot changes nothing or takes the one step of `sz_step`, by the evidence of the first offer that its device
//! takes; a crash at any moment leaves a disk that stands for the device before or for the one after. The laws carry
//! that over every list of boots and power cuts.
#![tactic(auto)]

mod booting;
mod choice;
mod drawing;
mod ending;
mod laws;
mod report;
mod searching;
mod taking;
mod weighing;

pub use booting::boot;
pub use laws::{a_boot_is_complete, a_boot_is_safe, whatever_a_disk_stands_for_is_lawful};
pub use report::{Outcome, Report};
