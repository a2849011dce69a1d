//! Onboarding information, as a value.

use sz_base::{Bytes, Text, Texts};

/// The longest name and version of an operating system, in bytes.
pub const LONGEST_NAME: usize = 256;

/// How the configuration is taken (RFC 8572 section 6.3).
#[derive(Clone, Copy, Debug, PartialEq, Eq)]
pub enum Handling {
    Merge,
    Replace,
}

/// The boot image that is to run.
#[derive(Debug, Drop)]
pub struct BootImage {
    /// The name of its operating system, UTF-8 of at most `LONGEST_NAME` bytes.
    pub os_name: Option<Text>,
    /// The version of its operating system, UTF-8 of at most `LONGEST_NAME` bytes.
    pub os_version: Option<Text>,
    /// Where it can be had, the first to be tried first.
    pub uris: Texts,
    /// Its SHA-256.
    pub hash: Option<[u8; 32]>,
}

/// Onboarding information.
#[derive(Debug, Drop)]
pub struct Onboarding {
    pub image: Option<BootImage>,
    pub handling: Handling,
    /// The script that runs before the configuration is taken.
    pub pre: Option<Bytes>,
    pub configuration: Option<Bytes>,
    /// The script that runs after the configuration is taken.
    pub post: Option<Bytes>,
}
