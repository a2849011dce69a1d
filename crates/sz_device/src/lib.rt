//! The commands of a device (RFC 8572): `init`, which makes a disk stand for a device with an identity, `onboard`,
//! which boots it once over its sources, `show`, which prints it, and `audit`, which judges again what it keeps.
#![tactic(auto)]

mod audit_command;
mod booting;
mod device_text;
mod identity_file;
mod init_command;
mod laws;
mod looking;
mod making;
mod onboard_command;
mod report_text;
mod show_command;
mod sizes;
mod sources;
mod state_failure;

pub use audit_command::{audit, say_audited};
pub use init_command::{InitWords, init, say_initialised};
pub use laws::{
    a_disk_shows_the_device_that_it_stands_for, a_lawful_device_is_authorised,
    an_init_begins_the_life_of_its_disk, an_onboard_is_a_boot_of_its_disk,
    an_undisturbed_onboard_is_complete,
};
pub use onboard_command::{OnboardWords, onboard, say_onboarded};
pub use show_command::{say_shown, show};
