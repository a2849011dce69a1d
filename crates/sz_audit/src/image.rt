//! The audit of an image.

ghost use Rattle.std.specs.Prelude.{◌≡◌, ◌↔◌, IfOk, IfErr, IsTrue};
ghost use Rattle.sz_spec.specs.Cause.{HasCause};
ghost use Rattle.sz_base.specs.Identity.{IsWhole};
ghost use Rattle.sz_disk.specs.Disk.{IsQuiet};
ghost use Rattle.sz_record.specs.Stored.{IsWithin};
ghost use Rattle.sz_state.specs.Fault.{state_failed};
ghost use Rattle.sz_state.specs.Held.{IsReadFault};
ghost use Rattle.sz_state.specs.Layout.{HasLayout, space_of};
ghost use Rattle.sz_step.specs.Lawful.{Names};
ghost use Rattle.sz_audit.specs.Audit.{FindsImage};

use crate::Found;
use crate::hashing::hash_area;
use crate::judging::{Stored, judge_stored};
use std::alloc::Global;
use sz_artifacts::Onboarding;
use sz_base::Identity;
use sz_disk::Disk;
use sz_record::Image;
use sz_state::StateFault;

/// What is found of a device's image: its evidence first, then the hash that this names, then its bytes.
pub(crate) fn audit_image<D: Disk>(
    alloc: Global,
    disk: &mut D,
    identity: &Identity,
    image: &Image,
) -> Result<Found, StateFault>
    requires layout { HasLayout (D.seen disk.old).size }
    requires whole { IsWhole identity.now }
    requires within { IsWithin (space_of (D.seen disk.old).size) image.now }
    ensures found { IfOk result (FindsImage (D.seen disk.new).reads identity.now image.now) }
    ensures refused { IfErr result IsReadFault }
    ensures quiet { IsQuiet (D.seen disk.old) (D.seen disk.new) }
    ensures cause { HasCause (D.seen disk.old).faults (D.seen disk.new).faults (state_failed result) }
{
    let onboarding = match judge_stored(alloc, identity, image.when, &image.evidence) {
        Ok(Stored::Authorises(onboarding)) => onboarding,
        Ok(Stored::Refused(reason)) => return Ok(Found::Refused(reason)),
        Err(_) => return Err(StateFault::OutOfMemory),
    };
    if !names(&onboarding, &image.hash) {
        return Ok(Found::OtherFields);
    }
    let digest = hash_area(alloc, disk, image.area, image.size)?;
    if !are_same(&digest, &image.hash) {
        return Ok(Found::OtherBytes);
    }
    Ok(Found::Authorised)
}

// Whether the information names an image of this SHA-256.
fn names(onboarding: &Onboarding, hash: &[u8; 32]) -> bool
    ensures { IsTrue result ↔ Names onboarding.now hash.now }
{
    match &onboarding.image {
        None => false,
        Some(boot) => boot.hash == Some(*hash),
    }
}

// Whether both are one SHA-256.
fn are_same(one: &[u8; 32], other: &[u8; 32]) -> bool
    ensures { IsTrue result ↔ (one.now ≡ other.now) }
{
    one == other
}
