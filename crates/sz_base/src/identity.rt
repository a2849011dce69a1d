//! What a device is made with.

ghost use Rattle.std.specs.Prelude.{◌≡◌, ◌≤◌, ◌↔◌, length, IsTrue, IfOk};
ghost use Rattle.std.specs.List.{All};
ghost use Rattle.sz_base.specs.Identity.{most_anchor_bytes};

use crate::{Bytes, Certs, OutOfMemory, Serial, Text};
use std::alloc::Global;

/// The most certificates that a device trusts.
pub const MOST_ANCHORS: usize = 8;

/// The most bytes of one of them.
pub const MOST_ANCHOR_BYTES: usize = 65_536;

/// The most bytes of the name, and of the version, of its operating system.
pub const MOST_OS_BYTES: usize = 256;

/// What a device is made with: its serial number, the certificates that it trusts, and the name and the
/// version of its operating system.
#[derive(Debug, Drop)]
pub struct Identity {
    pub serial: Serial,
    /// The certificates that it trusts.
    pub anchors: Certs,
    pub os_name: Text,
    pub os_version: Text,
}

impl Identity {
    ghost use Rattle.sz_base.specs.Identity.{IsWhole};

    /// The identity has one to eight anchors of at most 65,536 bytes each, and a name and a version of at
    /// most 256 bytes each.
    pub fn is_whole(&self) -> bool
        ensures { IsTrue result ↔ IsWhole self.now }
    {
        matches!(self.anchors.len(), 1..=MOST_ANCHORS)
            && self.os_name.len() <= MOST_OS_BYTES
            && self.os_version.len() <= MOST_OS_BYTES
            && are_short(self.anchors.as_slice())
    }

    /// An equal identity.
    pub fn copy(&self, alloc: Global) -> Result<Self, OutOfMemory>
        ensures { IfOk result (λ copied. copied ≡ self.now) }
    {
        let serial = self.serial.copy(alloc)?;
        let anchors = self.anchors.copy(alloc)?;
        let os_name = self.os_name.copy(alloc)?;
        let os_version = self.os_version.copy(alloc)?;
        Ok(Identity {
            serial,
            anchors,
            os_name,
            os_version,
        })
    }
}

// each of them has at most 65,536 bytes
fn are_short(anchors: &[Bytes]) -> bool
    ensures { IsTrue result ↔ All (λ anchor. length anchor ≤ most_anchor_bytes) anchors.now }
{
    anchors
        .iter()
        .all(|anchor| anchor.len() <= MOST_ANCHOR_BYTES)
}
