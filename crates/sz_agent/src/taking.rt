//! What the choice of a walk becomes on the disk.

ghost use Rattle.std.specs.Prelude.{◌≡◌, true};
ghost use Rattle.sz_spec.specs.Cause.{HasCause};
ghost use Rattle.sz_state.specs.Held.{IsHeld};
ghost use Rattle.sz_state.specs.Ran.{NowStands};
ghost use Rattle.sz_agent.specs.Choice.{Becomes, CanChoose, CanCommit, CanUpgrade, change_blames_disk, is_untouched, made_by, StandsOn};

use crate::Outcome;
use crate::choice::{Choice, Offer};
use crate::ending::outcome_of;
use std::alloc::Global;
use sz_base::Moment;
use sz_disk::Disk;
use sz_state::{Held, Staged, install, onboard};

/// Commits the device, or puts the staged image in place, as was chosen, and says how the boot ended. Without a
/// choice the disk is not called.
pub(crate) fn take<D: Disk>(
    alloc: Global,
    held: Held,
    disk: &mut D,
    choice: Choice,
    when: Moment,
) -> Outcome
    requires held { IsHeld (D.seen disk.old) held }
    requires can { CanChoose (D.seen disk.old) held.device when choice }
    ensures becomes { Becomes (made_by held.device when choice) held.ready.sequence choice result }
    ensures stands { NowStands (D.seen disk.old) held.device
        → StandsOn (D.seen disk.old) (D.seen disk.new) held.device (made_by held.device when choice) result }
    ensures untouched { is_untouched result ≡ true → disk.new ≡ disk.old }
    ensures cause { HasCause (D.seen disk.old).faults (D.seen disk.new).faults (change_blames_disk choice result) }
{
    match choice {
        Choice::Commits(offer) => commit(alloc, held, disk, offer, when),
        Choice::Installs(staged, offer) => upgrade(alloc, held, disk, staged, offer, when),
        Choice::Nothing => Outcome::NoSource,
        Choice::DiskFault => Outcome::DiskFault,
        Choice::OutOfMemory => Outcome::OutOfMemory,
    }
}

// Commits the device to the offer.
fn commit<D: Disk>(alloc: Global, held: Held, disk: &mut D, offer: Offer, when: Moment) -> Outcome
    requires held { IsHeld (D.seen disk.old) held }
    requires can { CanCommit (D.seen disk.old) held.device when offer }
    ensures becomes { Becomes (made_by held.device when (Choice.Commits offer)) held.ready.sequence
        (Choice.Commits offer) result }
    ensures stands { NowStands (D.seen disk.old) held.device → StandsOn (D.seen disk.old) (D.seen disk.new)
        held.device (made_by held.device when (Choice.Commits offer)) result }
    ensures untouched { is_untouched result ≡ true → disk.new ≡ disk.old }
    ensures cause { HasCause (D.seen disk.old).faults (D.seen disk.new).faults
        (change_blames_disk (Choice.Commits offer) result) }
{
    let Offer {
        onboarding,
        evidence,
    } = offer;
    match onboard(alloc, held, disk, onboarding, evidence, when) {
        Ok(Held { device, ready: _ }) => Outcome::Onboarded(device),
        Err(fault) => outcome_of(fault),
    }
}

// Puts the staged image of the offer in place.
fn upgrade<D: Disk>(
    alloc: Global,
    held: Held,
    disk: &mut D,
    staged: Staged,
    offer: Offer,
    when: Moment,
) -> Outcome
    requires held { IsHeld (D.seen disk.old) held }
    requires can { CanUpgrade (D.seen disk.old) held.device when staged offer }
    ensures becomes { Becomes (made_by held.device when (Choice.Installs staged offer)) held.ready.sequence
        (Choice.Installs staged offer) result }
    ensures stands { NowStands (D.seen disk.old) held.device → StandsOn (D.seen disk.old) (D.seen disk.new)
        held.device (made_by held.device when (Choice.Installs staged offer)) result }
    ensures untouched { is_untouched result ≡ true → disk.new ≡ disk.old }
    ensures cause { HasCause (D.seen disk.old).faults (D.seen disk.new).faults
        (change_blames_disk (Choice.Installs staged offer) result) }
{
    let Offer {
        onboarding,
        evidence,
    } = offer;
    match install(alloc, held, disk, staged, &onboarding, evidence, when) {
        Ok(Held { device, ready: _ }) => Outcome::Installed(device),
        Err(fault) => outcome_of(fault),
    }
}
