//! Putting an image in place, and committing a device.

ghost use Rattle.std.specs.Prelude.{◌≡◌, ◌+◌, ◌≤◌, List, ℕ, IfOk, IfErr, unwrap_or};
ghost use Rattle.sz_spec.specs.Cause.{HasCause};
ghost use Rattle.sz_cell.specs.Cell.{IsReady};
ghost use Rattle.sz_cell.specs.Slot.{region_size};
ghost use Rattle.sz_record.specs.Spelling.{new_version, record_bytes};
ghost use Rattle.sz_record.specs.Stored.{IsStorable};
ghost use Rattle.sz_state.specs.Change.{CanInstall, CanOnboard, ChangeAnswered, IsBeforeTheDisk, IsChanged, NamesImage, NowHasImage, StandsThrough};
ghost use Rattle.sz_state.specs.Fault.{state_failed};
ghost use Rattle.sz_state.specs.Fitting.{Fits};
ghost use Rattle.sz_state.specs.Held.{IsHeld};
ghost use Rattle.sz_state.specs.Ran.{NowStands, RecordReplaced};
ghost use Rattle.sz_state.specs.Step.{once_installed, once_onboarded, with_image};

use crate::{Held, Staged, StateFault};
use std::alloc::Global;
use sz_artifacts::{BootImage, Onboarding};
use sz_base::{Evidence, Moment, OutOfMemory, Text};
use sz_cell::Ready;
use sz_disk::Disk;
use sz_record::{Committed, Device, Image, device_widths, write};

/// Puts a staged image in place: from then on the device runs what the information names, as far as it names it. It
/// takes its memory before it calls the disk, and replaces the record whole. `Exhausted` where the record has the last
/// sequence.
pub fn install<D: Disk>(
    alloc: Global,
    held: Held,
    disk: &mut D,
    staged: Staged,
    onboarding: &Onboarding,
    evidence: Evidence,
    when: Moment,
) -> Result<Held, StateFault>
    requires held { IsHeld (D.seen disk.old) held }
    requires can { CanInstall (D.seen disk.old).size held.device staged onboarding.now when evidence }
    ensures ok { IfOk result
        (IsChanged (D.seen disk.new) (once_installed held.device onboarding.now staged when evidence)) }
    ensures stands { let after = once_installed held.device onboarding.now staged when evidence in
        NowStands (D.seen disk.old) held.device → NowHasImage (D.seen disk.old) after
        → StandsThrough (D.seen disk.old) (D.seen disk.new) held.device after result }
    ensures answer { ChangeAnswered held.ready.sequence result }
    ensures untouched { IfErr result (λ fault. IsBeforeTheDisk fault → disk.new ≡ disk.old) }
    ensures cause { HasCause (D.seen disk.old).faults (D.seen disk.new).faults (state_failed result) }
{
    let Held { device, ready } = held;
    let device = with_image(alloc, device, staged, onboarding, evidence, when)?;
    device_widths(&device);
    replace(alloc, disk, ready, device)
}

/// Commits a device to the information. It takes its memory before it calls the disk, and replaces the record whole.
/// `Exhausted` where the record has the last sequence.
pub fn onboard<D: Disk>(
    alloc: Global,
    held: Held,
    disk: &mut D,
    onboarding: Onboarding,
    evidence: Evidence,
    when: Moment,
) -> Result<Held, StateFault>
    requires held { IsHeld (D.seen disk.old) held }
    requires can { CanOnboard (D.seen disk.old).size held.device onboarding when evidence }
    ensures ok { IfOk result
        (IsChanged (D.seen disk.new) (once_onboarded held.device onboarding when evidence)) }
    ensures stands { NowStands (D.seen disk.old) held.device
        → StandsThrough (D.seen disk.old) (D.seen disk.new) held.device
        (once_onboarded held.device onboarding when evidence) result }
    ensures answer { ChangeAnswered held.ready.sequence result }
    ensures untouched { IfErr result (λ fault. IsBeforeTheDisk fault → disk.new ≡ disk.old) }
    ensures cause { HasCause (D.seen disk.old).faults (D.seen disk.new).faults (state_failed result) }
{
    let Held { device, ready } = held;
    let device = committed(device, onboarding, evidence, when);
    device_widths(&device);
    replace(alloc, disk, ready, device)
}

// replaces the record of a cell by that of this device
fn replace<D: Disk>(
    alloc: Global,
    disk: &mut D,
    ready: Ready,
    device: Device,
) -> Result<Held, StateFault>
    requires within { ready.at + region_size ready.capacity ≤ (D.seen disk.old).size }
    requires storable { IsStorable new_version device }
    requires fits { Fits ready.capacity device }
    ensures device { IfOk result (λ held. held.device ≡ device) }
    ensures replaced { (before : List ℕ) → IsReady (D.seen disk.old) ready before
        → RecordReplaced (D.seen disk.old) (D.seen disk.new) ready before (record_bytes new_version device) result }
    ensures answer { ChangeAnswered ready.sequence result }
    ensures untouched { IfErr result (λ fault. IsBeforeTheDisk fault → disk.new ≡ disk.old) }
    ensures cause { HasCause (D.seen disk.old).faults (D.seen disk.new).faults (state_failed result) }
{
    let payload = write(alloc, &device)?;
    match ready.replace(disk, payload.as_slice()) {
        Ok(ready) => Ok(Held { device, ready }),
        Err(fault) => Err(StateFault::from(fault)),
    }
}

// the device that is committed to the information
fn committed(device: Device, onboarding: Onboarding, evidence: Evidence, when: Moment) -> Device
    ensures { result ≡ once_onboarded device onboarding when evidence }
{
    let Device {
        identity,
        running_name,
        running_version,
        image,
        onboarded: _,
    } = device;
    let Onboarding {
        image: _,
        handling,
        pre,
        configuration,
        post,
    } = onboarding;
    Device {
        identity,
        running_name,
        running_version,
        image,
        onboarded: Some(Committed {
            when,
            evidence,
            handling,
            pre,
            configuration,
            post,
        }),
    }
}

// the device that runs what the information names, by the staged image
fn with_image(
    alloc: Global,
    device: Device,
    staged: Staged,
    onboarding: &Onboarding,
    evidence: Evidence,
    when: Moment,
) -> Result<Device, OutOfMemory>
    requires { NamesImage onboarding.now }
    ensures { IfOk result (λ next. next ≡ once_installed device onboarding.now staged when evidence) }
{
    let Some(boot) = &onboarding.image else {
        unreachable!();
    };
    let Some(hash) = boot.hash else {
        unreachable!();
    };
    let image = Image {
        area: staged.area,
        size: staged.size,
        hash,
        when,
        evidence,
    };
    running(alloc, device, boot, image)
}

// the device that runs what the boot image names, by this image
fn running(
    alloc: Global,
    device: Device,
    boot: &BootImage,
    image: Image,
) -> Result<Device, OutOfMemory>
    ensures { IfOk result (λ next. next ≡ with_image device boot.now image) }
{
    let Device {
        identity,
        running_name,
        running_version,
        image: _,
        onboarded,
    } = device;
    let running_name = named_or(alloc, &boot.os_name, running_name)?;
    let running_version = named_or(alloc, &boot.os_version, running_version)?;
    Ok(Device {
        identity,
        running_name,
        running_version,
        image: Some(image),
        onboarded,
    })
}

// the name, or what runs where there is none
fn named_or(alloc: Global, named: &Option<Text>, running: Text) -> Result<Text, OutOfMemory>
    ensures { IfOk result (λ name. name ≡ unwrap_or named.now running) }
{
    match named {
        None => Ok(running),
        Some(name) => name.copy(alloc),
    }
}
