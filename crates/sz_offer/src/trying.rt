//! The trial of an offer: whether a device can take it, with the download of the image that it needs.

ghost use Rattle.std.specs.Prelude.{◌≡◌, Option as SomeOption};
ghost use Rattle.sz_spec.specs.Cause.{HasCause};
ghost use Rattle.sz_spec.specs.Told.{WhereTold};
ghost use Rattle.sz_evidence.specs.declared.reason.Reason.{Reason as SomeReason};
ghost use Rattle.sz_http.specs.Reading.{side_of};
ghost use Rattle.sz_offer.specs.Trial.{CanTake, DownloadCameTo, IfStaged, IsOpen, IsStagedFor, IsPlaced, IsVerdict, MakesOver, Tried, WritesSpare, blames_disk, looker_of, network_of};
ghost use Rattle.sz_state.specs.Held.{IsHeld};
ghost use Rattle.sz_state.specs.Layout.{space_of};

use crate::Trial;
use std::alloc::Global;
use sz_artifacts::Onboarding;
use sz_base::{Evidence, Failed, Moment, Texts};
use sz_disk::Disk;
use sz_evidence::Reason;
use sz_http::{Reading, Side};
use sz_image::{NoImage, fetch_first};
use sz_io::Net;
use sz_state::{Held, fits, is_satisfied, staging};

/// Tries an offer of onboarding information for a device that was found and is not committed: whether the record that
/// it would store next fits, whether what runs satisfies the information, and else whether the image that it names
/// can be had, which is then staged in the area that the device does not use. `buffer` is a reading of replies.
pub fn try_offer<D: Disk, N: Net>(
    alloc: Global,
    held: &Held,
    disk: &mut D,
    net: &mut N,
    onboarding: &Onboarding,
    evidence: &Evidence,
    when: &Moment,
    buffer: &mut Reading,
) -> Trial
    requires open { IsOpen (D.seen disk.old) held.now onboarding.now }
    requires replies { side_of buffer.old ≡ Side.Reply }
    ensures tried { Tried (looker_of (D.seen disk.old) held.now when.now) onboarding.now evidence.now
        (network_of (N.faults net.old) (N.traffic net.old)) (network_of (N.faults net.new) (N.traffic net.new)) result }
    ensures makes { (verdict : SomeOption SomeReason) → IsVerdict result verdict
        → WhereTold (MakesOver (looker_of (D.seen disk.old) held.now when.now) onboarding.now evidence.now verdict)
        (N.traffic net.old) (N.traffic net.new) }
    ensures can { CanTake (D.seen disk.new).size held.now.device onboarding.now when.now evidence.now result }
    ensures placed { IsPlaced (D.seen disk.new) held.now.device onboarding.now when.now evidence.now result }
    ensures spare { WritesSpare (D.seen disk.old) (D.seen disk.new) held.now }
    ensures disk_fault { HasCause (D.seen disk.old).faults (D.seen disk.new).faults (blames_disk result) }
    ensures side { side_of buffer.new ≡ Side.Reply }
{
    let satisfied = is_satisfied(&held.device, onboarding);
    if let Some(size) = fits(held, onboarding, evidence, when) {
        return Trial::Refused(Reason::RecordTooLarge { size });
    }
    if satisfied {
        return Trial::Satisfied;
    }
    let Some(boot) = &onboarding.image else {
        unreachable!();
    };
    let Some(hash) = &boot.hash else {
        return Trial::Refused(Reason::NoImageHash);
    };
    stage_first(alloc, held, disk, net, &boot.uris, hash, buffer)
}

// Downloads the image into the area that the device does not use, from the first of these URIs that gives it.
fn stage_first<D: Disk, N: Net>(
    alloc: Global,
    held: &Held,
    disk: &mut D,
    net: &mut N,
    uris: &Texts,
    hash: &[u8; 32],
    buffer: &mut Reading,
) -> Trial
    requires found { IsHeld (D.seen disk.old) held.now }
    requires replies { side_of buffer.old ≡ Side.Reply }
    ensures download { DownloadCameTo hash.now (space_of (D.seen disk.old).size) uris.now
        (network_of (N.faults net.old) (N.traffic net.old)) (network_of (N.faults net.new) (N.traffic net.new)) result }
    ensures staged { IfStaged result (IsStagedFor (D.seen disk.new) held.now hash.now) }
    ensures spare { WritesSpare (D.seen disk.old) (D.seen disk.new) held.now }
    ensures disk_fault { HasCause (D.seen disk.old).faults (D.seen disk.new).faults (blames_disk result) }
    ensures side { side_of buffer.new ≡ Side.Reply }
{
    let mut room = staging(held, disk);
    match fetch_first(alloc, net, &mut room, uris, hash, buffer) {
        Ok(_) => match room.finish() {
            Ok(staged) => Trial::Staged(staged),
            Err(Failed) => Trial::DiskFault,
        },
        Err(NoImage::Refused(faults)) => Trial::Refused(Reason::NoImage { faults }),
        Err(NoImage::DiskFault) => Trial::DiskFault,
        Err(NoImage::OutOfMemory) => Trial::OutOfMemory,
    }
}
