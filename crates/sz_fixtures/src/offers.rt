//! Onboarding information with and without a boot image, and its evidence.

ghost use Rattle.std.specs.Prelude.{◌≡◌, IfOk};
ghost use Rattle.sz_state.specs.Change.{HasShortNames};

use crate::disks::zeros;
use std::alloc::Global;
use sz_artifacts::{BootImage, Handling, Onboarding};
use sz_base::{Bytes, Evidence, OutOfMemory, Text, Texts};

/// A boot image of this version with this hash, which these URIs are said to give.
pub fn boot_image(
    alloc: Global,
    version: &[u8; 1],
    uris: Texts,
    hash: Option<[u8; 32]>,
) -> Result<BootImage, OutOfMemory>
    ensures short { IfOk result HasShortNames }
    ensures hash { IfOk result (λ boot. boot.hash ≡ hash) }
{
    Ok(BootImage {
        os_name: None,
        os_version: Some(Text::from_slice(alloc, version)?),
        uris,
        hash,
    })
}

/// Information with this boot image, and with a configuration of so many zeros that replaces what is there.
pub fn information(
    alloc: Global,
    image: Option<BootImage>,
    configuration: usize,
) -> Result<Onboarding, OutOfMemory>
    ensures { IfOk result (λ onboarding. onboarding.image ≡ image) }
{
    let configuration = zeros(alloc, configuration)?;
    Ok(Onboarding {
        image,
        handling: Handling::Replace,
        pre: None,
        configuration: Some(configuration),
        post: None,
    })
}

/// Evidence of 2 bytes.
pub fn evidence(alloc: Global) -> Result<Evidence, OutOfMemory> {
    Ok(Evidence {
        ci: Bytes::from_slice(alloc, b"ci")?,
        oc: None,
        ov: None,
    })
}
