//! The audit of a device on its disk.

ghost use Rattle.std.specs.Prelude.{◌≡◌, Err, IfOk, IfErr, IfSome, false};
ghost use Rattle.sz_spec.specs.Cause.{HasCause};
ghost use Rattle.sz_audit.specs.Audit.{Audits, FindsCommitment, FindsImage, FindsWhere};
ghost use Rattle.sz_base.specs.Identity.{IsWhole};
ghost use Rattle.sz_disk.specs.Disk.{IsQuiet, IsStill};
ghost use Rattle.sz_record.specs.Stored.{IsWithin};
ghost use Rattle.sz_state.specs.Fault.{state_failed};
ghost use Rattle.sz_state.specs.Held.{IsHeld, IsReadFault};
ghost use Rattle.sz_state.specs.Layout.{HasLayout, space_of};
ghost use Rattle.sz_state.specs.Ran.{Found as FoundBy};
ghost use Rattle.sz_state.specs.declared.held.Held.{Held as SomeHeld};

use crate::commitment::audit_commitment;
use crate::image::audit_image;
use crate::{Audit, Found};
use std::alloc::Global;
use sz_disk::Disk;
use sz_record::Device;
use sz_state::{StateFault, attach};

/// Audits the device of a disk. It is found as `attach` finds it, with the same refusals. Of its image and of what it
/// was committed to the evidence is judged at its stored moment, and the stored fields are compared with those that
/// it names; the image's bytes are hashed, in pieces of 65,536 bytes. Nothing is written.
pub fn audit<D: Disk>(alloc: Global, disk: &mut D) -> Result<Audit, StateFault>
    requires { HasLayout (D.seen disk.old).size }
    ensures found { IfOk result (λ audit. (held : SomeHeld) × IsHeld (D.seen disk.new) held
        × Audits (D.seen disk.new).reads held.device audit) }
    ensures refused { IfErr result (λ fault. FoundBy (D.seen disk.old) (D.seen disk.new) (Err fault)) }
    ensures reads { state_failed result ≡ false → (D.seen disk.new).reads ≡ (D.seen disk.old).reads }
    ensures still { IsStill (D.seen disk.old) (D.seen disk.new) }
    ensures cause { HasCause (D.seen disk.old).faults (D.seen disk.new).faults (state_failed result) }
{
    let held = attach(alloc, disk)?;
    let image = image_found(alloc, disk, &held.device)?;
    let configuration = commitment_found(alloc, &held.device)?;
    Ok(Audit {
        image,
        configuration,
    })
}

// What is found of the device's image, where it has one.
fn image_found<D: Disk>(
    alloc: Global,
    disk: &mut D,
    device: &Device,
) -> Result<Option<Found>, StateFault>
    requires layout { HasLayout (D.seen disk.old).size }
    requires whole { IsWhole device.now.identity }
    requires within { IfSome device.now.image (IsWithin (space_of (D.seen disk.old).size)) }
    ensures found { IfOk result (λ found. FindsWhere (FindsImage (D.seen disk.new).reads device.now.identity)
        device.now.image found) }
    ensures refused { IfErr result IsReadFault }
    ensures quiet { IsQuiet (D.seen disk.old) (D.seen disk.new) }
    ensures cause { HasCause (D.seen disk.old).faults (D.seen disk.new).faults (state_failed result) }
{
    match &device.image {
        None => Ok(None),
        Some(image) => Ok(Some(audit_image(alloc, disk, &device.identity, image)?)),
    }
}

// What is found of what the device was committed to, where it was.
fn commitment_found(alloc: Global, device: &Device) -> Result<Option<Found>, StateFault>
    requires { IsWhole device.now.identity }
    ensures found { IfOk result (λ found. FindsWhere (FindsCommitment device.now.identity) device.now.onboarded
        found) }
    ensures refused { IfErr result (λ fault. fault ≡ StateFault.OutOfMemory) }
{
    match &device.onboarded {
        None => Ok(None),
        Some(committed) => Ok(Some(audit_commitment(alloc, &device.identity, committed)?)),
    }
}
