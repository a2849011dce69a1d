//! What one boot may do to a device (RFC 8572 section 5), and what stays true over any list of boots: a device takes at
//! most one step at a boot, by evidence that authorises it; each image and configuration that it has is named by such
//! evidence; and it is committed at most once.
//!
//! The crate has no code: a step, a lawful device and a list of boots are definitions, and its functions are laws.
#![tactic(auto)]

mod laws;

pub use laws::{
    a_committed_device_takes_no_step, a_device_is_committed_once, a_factory_device_is_lawful,
    a_step_keeps_lawful, boots_leave_lawful_devices,
};
