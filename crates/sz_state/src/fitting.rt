//! Whether a device's next record fits its cell.

ghost use Rattle.std.specs.Prelude.{◌≡◌, length, Some, unwrap_or};
ghost use Rattle.sz_artifacts.specs.declared.conveyed.onboarding.BootImage.{BootImage as SomeBoot};
ghost use Rattle.sz_record.specs.Size.{size_of};
ghost use Rattle.sz_record.specs.Spelling.{new_version, record_bytes};
ghost use Rattle.sz_record.specs.declared.device.Image.{Image as SomeImage};
ghost use Rattle.sz_state.specs.Fitting.{FitsAs};
ghost use Rattle.sz_state.specs.Step.{IsSatisfied, once_onboarded, with_image};

use crate::Held;
use crate::satisfied::is_booted;
use sz_artifacts::{BootImage, Onboarding};
use sz_base::{Evidence, Moment, Text};
use sz_record::{Device, installed_size, onboarded_size};

/// `None` exactly where the device's next record fits its cell, else the size of that record, or the greatest u64 where
/// it is larger. The next record is that of the device once it is committed to the information, where the information
/// is satisfied, and else once its boot image is in place.
pub fn fits(held: &Held, onboarding: &Onboarding, evidence: &Evidence, when: &Moment) -> Option<u64>
    ensures commits { IsSatisfied held.now.device onboarding.now
        → FitsAs held.now.ready.capacity (once_onboarded held.now.device onboarding.now when.now evidence.now) result }
    ensures installs { (boot : SomeBoot) (image : SomeImage) → ¬ (IsSatisfied held.now.device onboarding.now)
        → onboarding.now.image ≡ Some boot → length image.hash ≡ 32 → image.when ≡ when.now
        → image.evidence ≡ evidence.now
        → FitsAs held.now.ready.capacity (with_image held.now.device boot image) result }
{
    let size = next_size(&held.device, onboarding, evidence, when);
    if size <= u64::from(held.ready.capacity()) {
        None
    } else {
        Some(size)
    }
}

// the size of the next record
fn next_size(device: &Device, onboarding: &Onboarding, evidence: &Evidence, when: &Moment) -> u64
    ensures commits { IsSatisfied device.now onboarding.now
        → result ≡ size_of (record_bytes new_version (once_onboarded device.now onboarding.now when.now evidence.now)) }
    ensures installs { (boot : SomeBoot) (image : SomeImage) → ¬ (IsSatisfied device.now onboarding.now)
        → onboarding.now.image ≡ Some boot → length image.hash ≡ 32 → image.when ≡ when.now
        → image.evidence ≡ evidence.now
        → result ≡ size_of (record_bytes new_version (with_image device.now boot image)) }
{
    let Some(boot) = &onboarding.image else {
        return commitment_size(device, onboarding, evidence, when);
    };
    if is_booted(device, boot) {
        commitment_size(device, onboarding, evidence, when)
    } else {
        install_size(device, boot, evidence, when)
    }
}

// the size of the record once the device is committed
fn commitment_size(
    device: &Device,
    onboarding: &Onboarding,
    evidence: &Evidence,
    when: &Moment,
) -> u64
    ensures { result
        ≡ size_of (record_bytes new_version (once_onboarded device.now onboarding.now when.now evidence.now)) }
{
    onboarded_size(
        device,
        when,
        evidence,
        &onboarding.pre,
        &onboarding.configuration,
        &onboarding.post,
    )
}

// the size of the record once the boot image is in place
fn install_size(device: &Device, boot: &BootImage, evidence: &Evidence, when: &Moment) -> u64
    ensures { (image : SomeImage) → length image.hash ≡ 32 → image.when ≡ when.now
        → image.evidence ≡ evidence.now
        → result ≡ size_of (record_bytes new_version (with_image device.now boot.now image)) }
{
    installed_size(
        device,
        name_or(&boot.os_name, device.running_name.as_slice()),
        name_or(&boot.os_version, device.running_version.as_slice()),
        when,
        evidence,
    )
}

// the name, or what runs where there is none
fn name_or<'a>(named: &'a Option<Text>, running: &'a [u8]) -> &'a [u8]
    ensures { result.now ≡ unwrap_or named.entry.now running.entry.now }
{
    match named {
        None => running,
        Some(name) => name.as_slice(),
    }
}
