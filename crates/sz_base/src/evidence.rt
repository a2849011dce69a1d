//! The artifacts that authorise a bootstrap, as a source hands them over.

ghost use Rattle.std.specs.Prelude.{◌≡◌, IfOk};

use crate::{Bytes, OutOfMemory};
use std::alloc::Global;

/// The most bytes of an artifact.
pub const MOST_ARTIFACT_BYTES: u64 = 1_048_576;

/// The artifacts that a source hands to a device (RFC 8572, section 3), each as its bytes.
#[derive(Debug, Drop)]
pub struct Evidence {
    /// The conveyed information.
    pub ci: Bytes,
    /// The owner certificate, with those above it.
    pub oc: Option<Bytes>,
    /// The ownership voucher.
    pub ov: Option<Bytes>,
}

impl Evidence {
    /// Equal evidence.
    pub fn copy(&self, alloc: Global) -> Result<Self, OutOfMemory>
        ensures { IfOk result (λ copied. copied ≡ self.now) }
    {
        let ci = self.ci.copy(alloc)?;
        let oc = copy_optional(alloc, &self.oc)?;
        let ov = copy_optional(alloc, &self.ov)?;
        Ok(Evidence { ci, oc, ov })
    }
}

// equal bytes, where there are some
fn copy_optional(alloc: Global, bytes: &Option<Bytes>) -> Result<Option<Bytes>, OutOfMemory>
    ensures { IfOk result (λ copied. copied ≡ bytes.now) }
{
    match bytes {
        None => Ok(None),
        Some(bytes) => Ok(Some(bytes.copy(alloc)?)),
    }
}
