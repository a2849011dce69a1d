//! The stored form of a device: the record that it keeps of its identity, of what runs, of the image that was put in
//! place and of what it was committed to.
//!
//! How a device is spelled, and where the first wrong byte of a payload stands, are definitions over lists of bytes;
//! the reader answers exactly by them, and what the writer gives is the spelling. Version 2 is written, and versions 1
//! and 2 are read: version 1 has no nonces. The form is this project's own.
#![tactic(auto)]

mod device;
mod fault;
mod laws;
mod reading;
mod sizes;
mod storable;
mod unread;
mod widths;
mod writing;

pub use device::{Committed, Device, Image, Stage};
pub use fault::RecordFault;
pub use laws::{devices_are_rewritten, payloads_have_one_reading};
pub use reading::read;
pub use sizes::{installed_size, onboarded_size, size};
pub use storable::is_storable;
pub use widths::device_widths;
pub use writing::write;
