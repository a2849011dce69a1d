//! A device, as a value.

use sz_artifacts::Handling;
use sz_base::{Bytes, Evidence, Identity, Moment, Text};

/// What a device keeps of itself.
#[derive(Debug, Drop)]
pub struct Device {
    pub identity: Identity,
    /// The name of the operating system that runs.
    pub running_name: Text,
    /// The version of the operating system that runs.
    pub running_version: Text,
    /// The image that was put in place, if one was.
    pub image: Option<Image>,
    /// What it was committed to, if it was.
    pub onboarded: Option<Committed>,
}

/// An image that was put in place.
#[derive(Debug, Drop)]
pub struct Image {
    /// The area that has its bytes, 0 or 1.
    pub area: u8,
    /// The number of its bytes.
    pub size: u64,
    /// Their SHA-256.
    pub hash: [u8; 32],
    /// When it was authorised.
    pub when: Moment,
    /// What authorised it.
    pub evidence: Evidence,
}

/// What a device was committed to.
#[derive(Debug, Drop)]
pub struct Committed {
    /// When it was authorised.
    pub when: Moment,
    /// What authorised it.
    pub evidence: Evidence,
    pub handling: Handling,
    /// The script that runs before the configuration is taken.
    pub pre: Option<Bytes>,
    pub configuration: Option<Bytes>,
    /// The script that runs after the configuration is taken.
    pub post: Option<Bytes>,
}

/// How far a device has come.
#[derive(Clone, Copy, Debug, PartialEq, Eq)]
pub enum Stage {
    /// It has neither an image nor what it was committed to.
    Factory,
    /// It has an image, and was committed to nothing.
    Installed,
    /// It was committed.
    Onboarded,
}

impl Device {
    ghost use Rattle.std.specs.Prelude.{◌≡◌};
    ghost use Rattle.sz_record.specs.Device.{stage_of};

    /// How far it has come.
    pub fn stage(&self) -> Stage
        ensures { result ≡ stage_of self.now }
    {
        match (&self.image, &self.onboarded) {
            (_, Some(_)) => Stage::Onboarded,
            (Some(_), None) => Stage::Installed,
            (None, None) => Stage::Factory,
        }
    }
}
