//! The walk of a boot, to the first offer that the device can take.

ghost use Rattle.std.specs.Prelude.{◌≡◌, ◌≤◌, length, IfNone, IfOk, IfSome};
ghost use Rattle.sz_spec.specs.Cause.{HasCause};
ghost use Rattle.sz_http.specs.Reading.{side_of};
ghost use Rattle.sz_offer.specs.Trial.{looker_of, WritesSpare};
ghost use Rattle.sz_walk.specs.Visits.{HasOffer};
ghost use Rattle.sz_walk.specs.Walk.{WhereBothTell};
ghost use Rattle.sz_agent.specs.Choice.{blames_disk, CanChoose, EndsIdle, GoesOn, IsOpen, IsPrepared, turn_blames_disk, TurnsFrom};
ghost use Rattle.sz_agent.specs.Lost.{Counts as SomeCounts, CountsLost, counts_of};
ghost use Rattle.sz_agent.specs.Quest.{quest_of};
ghost use Rattle.sz_source.specs.Source.{most_sources};

use crate::choice::{Choice, Offer, Searched};
use crate::weighing::weigh;
use std::alloc::Global;
use sz_base::{Moment, OutOfMemory};
use sz_disk::Disk;
use sz_http::{Reading, Side};
use sz_io::{Folder, Net};
use sz_source::Sources;
use sz_state::Held;
use sz_walk::{Step, Visits, Walk};

/// Walks over the sources for a device that was found and is not committed. The walk and the buffer of its downloads
/// are made before the first visit. It ends with the first offer that the device can take, or where nothing is left
/// to visit, the disk fails or memory runs out.
pub(crate) fn search<D: Disk, F: Folder, N: Net>(
    alloc: Global,
    held: &Held,
    disk: &mut D,
    folder: &mut F,
    net: &mut N,
    sources: Sources,
    when: Moment,
) -> Searched
    requires open { IsOpen (D.seen disk.old) held.now }
    requires few { length sources ≤ most_sources }
    ensures ends { WhereBothTell (F.files folder.old) (N.traffic net.old) (N.traffic net.new)
        (λ files began now. EndsIdle (quest_of (looker_of (D.seen disk.old) held.now when) sources files)
        result.choice result.visits began now) }
    ensures can { CanChoose (D.seen disk.new) held.now.device when result.choice }
    ensures spare { WritesSpare (D.seen disk.old) (D.seen disk.new) held.now }
    ensures disk_fault { HasCause (D.seen disk.old).faults (D.seen disk.new).faults (blames_disk result.choice) }
    ensures lost { CountsLost (counts_of (F.faults folder.old) (N.faults net.old))
        (counts_of (F.faults folder.new) (N.faults net.new)) result.visits }
    ensures unchanged { F.files folder.new ≡ F.files folder.old }
{
    let Ok((mut walk, mut buffer)) = prepare(alloc, sources) else {
        return Searched {
            choice: Choice::OutOfMemory,
            visits: Visits::create(alloc),
        };
    };
    let choice = choose(alloc, held, disk, folder, net, when, &mut walk, &mut buffer);
    Searched {
        choice,
        visits: walk.finish(),
    }
}

// The walk over the sources, before its first visit, and the buffer of its downloads.
fn prepare(alloc: Global, sources: Sources) -> Result<(Walk, Reading), OutOfMemory>
    requires few { length sources ≤ most_sources }
    ensures { IfOk result (λ prepared. IsPrepared sources prepared.0 prepared.1) }
{
    let walk = Walk::create(alloc, sources)?;
    let buffer = Reading::create(alloc, Side::Reply, u64::MAX)?;
    Ok((walk, buffer))
}

// Visits one item after another until the walk ends. No source is visited past its budget, so it does.
fn choose<D: Disk, F: Folder, N: Net>(
    alloc: Global,
    held: &Held,
    disk: &mut D,
    folder: &mut F,
    net: &mut N,
    when: Moment,
    walk: &mut Walk,
    buffer: &mut Reading,
) -> Choice
    requires open { IsOpen (D.seen disk.old) held.now }
    requires prepared { IsPrepared walk.old.sources walk.old buffer.old }
    ensures ends { WhereBothTell (F.files folder.old) (N.traffic net.old) (N.traffic net.new)
        (λ files began now. EndsIdle (quest_of (looker_of (D.seen disk.old) held.now when) walk.old.sources files)
        result walk.new.walked.visits began now) }
    ensures can { CanChoose (D.seen disk.new) held.now.device when result }
    ensures spare { WritesSpare (D.seen disk.old) (D.seen disk.new) held.now }
    ensures disk_fault { HasCause (D.seen disk.old).faults (D.seen disk.new).faults (blames_disk result) }
    ensures lost { CountsLost (counts_of (F.faults folder.old) (N.faults net.old))
        (counts_of (F.faults folder.new) (N.faults net.new)) walk.new.walked.visits }
    ensures unchanged { F.files folder.new ≡ F.files folder.old }
{
    'visits: loop {
        let chosen = turn(alloc, held, disk, folder, net, when, walk, buffer);
        if let Some(choice) = chosen {
            return choice;
        }
    }
}

// The next visit, with the trial of what it offers: what is chosen, where the walk ends with it.
fn turn<D: Disk, F: Folder, N: Net>(
    alloc: Global,
    held: &Held,
    disk: &mut D,
    folder: &mut F,
    net: &mut N,
    when: Moment,
    walk: &mut Walk,
    buffer: &mut Reading,
) -> Option<Choice>
    requires open { IsOpen (D.seen disk.old) held.now }
    requires no_offer { ¬ HasOffer walk.old.walked }
    requires replies { side_of buffer.old ≡ Side.Reply }
    ensures turns { WhereBothTell (F.files folder.old) (N.traffic net.old) (N.traffic net.new)
        (λ files. TurnsFrom (quest_of (looker_of (D.seen disk.old) held.now when) walk.old.sources files) result
        walk.old.walked walk.new.walked) }
    ensures goes_on { IfNone result (GoesOn walk.old walk.new buffer.new) }
    ensures can { IfSome result (CanChoose (D.seen disk.new) held.now.device when) }
    ensures spare { WritesSpare (D.seen disk.old) (D.seen disk.new) held.now }
    ensures disk_fault { HasCause (D.seen disk.old).faults (D.seen disk.new).faults (turn_blames_disk result) }
    ensures lost { (first : SomeCounts)
        → CountsLost first (counts_of (F.faults folder.old) (N.faults net.old)) walk.old.walked.visits
        → CountsLost first (counts_of (F.faults folder.new) (N.faults net.new)) walk.new.walked.visits }
    ensures unchanged { F.files folder.new ≡ F.files folder.old }
{
    match walk.next(folder, net, &held.device.identity, when) {
        Step::Passed => None,
        Step::Done => Some(Choice::Nothing),
        Step::OutOfMemory => Some(Choice::OutOfMemory),
        Step::Offer(onboarding, evidence) => {
            let offer = Offer {
                onboarding,
                evidence,
            };
            match weigh(alloc, held, disk, net, offer, when, buffer) {
                Ok(choice) => Some(choice),
                Err(reason) => {
                    walk.refuse(reason);
                    None
                }
            }
        }
    }
}
