//! One boot of a device.

ghost use Rattle.std.specs.Prelude.{◌≡◌, ◌≤◌, ℕ, [], length, true, None};
ghost use Rattle.sz_spec.specs.Cause.{HasCause};
ghost use Rattle.sz_disk.specs.Disk.{IsQuiet};
ghost use Rattle.sz_record.specs.declared.device.Device.{Device as SomeDevice};
ghost use Rattle.sz_state.specs.Layout.{HasLayout};
ghost use Rattle.sz_agent.specs.Boot.{BootOk, ends_early, FoundAs, IsMoment, outside_of, random_of};
ghost use Rattle.sz_agent.specs.Crash.{ReadsAs};
ghost use Rattle.sz_agent.specs.Ending.{blames_disk};
ghost use Rattle.sz_agent.specs.Lost.{CountsLost, counts_of};
ghost use Rattle.sz_source.specs.Source.{most_sources};

use crate::choice::Searched;
use crate::drawing::draw;
use crate::ending::outcome_of;
use crate::searching::search;
use crate::taking::take;
use crate::{Outcome, Report};
use std::alloc::Global;
use sz_base::{Moment, Seconds};
use sz_disk::Disk;
use sz_io::{Entropy, Folder, Net};
use sz_record::payloads_have_one_reading;
use sz_source::Sources;
use sz_state::{Held, attach};
use sz_walk::Visits;

/// One boot of the device of this disk (RFC 8572 section 5): the device is attached; where there is none, or it is
/// committed already, the boot ends with nothing asked and nothing written; a nonce is drawn; the sources are visited
/// until the device can take an offer; then its image is put in place, or the device is committed. A draw that fails
/// gives a moment without a nonce. Whatever the outcome, the disk stands for the device before or for the one after,
/// and so does what a crash at any moment leaves.
pub fn boot<D: Disk, F: Folder, N: Net, E: Entropy>(
    alloc: Global,
    disk: &mut D,
    folder: &mut F,
    net: &mut N,
    entropy: &mut E,
    sources: Sources,
    when: Seconds,
) -> Report
    requires layout { HasLayout (D.seen disk.old).size }
    requires few { length sources ≤ most_sources }
    ensures boot_ok { (before : SomeDevice) (sequence : ℕ) → ReadsAs (D.seen disk.old) before sequence
        → BootOk D.seen disk.old disk.new sources
        (outside_of (F.files folder.old) (N.traffic net.old) (N.traffic net.new)) result before sequence }
    ensures found { FoundAs (D.seen disk.old) result.outcome }
    ensures moment { IsMoment when result (random_of (E.faults entropy.old) (E.bytes entropy.old))
        (random_of (E.faults entropy.new) (E.bytes entropy.new)) net.old net.new }
    ensures early { ends_early result.outcome ≡ true → IsQuiet (D.seen disk.old) (D.seen disk.new)
        × (net.new ≡ net.old) × (folder.new ≡ folder.old) × (entropy.new ≡ entropy.old) }
    ensures disk_fault { HasCause (D.seen disk.old).faults (D.seen disk.new).faults (blames_disk result.outcome) }
    ensures lost { CountsLost (counts_of (F.faults folder.old) (N.faults net.old))
        (counts_of (F.faults folder.new) (N.faults net.new)) result.visits }
    ensures unchanged { F.files folder.new ≡ F.files folder.old }
{
    payloads_have_one_reading();
    let held = match attach(alloc, disk) {
        Ok(held) => held,
        Err(fault) => return unasked(alloc, outcome_of(fault), when),
    };
    if held.device.onboarded.is_some() {
        let Held { device, ready: _ } = held;
        return unasked(alloc, Outcome::AlreadyOnboarded(device), when);
    }
    let moment = draw(entropy, when);
    let Searched { choice, visits } = search(alloc, &held, disk, folder, net, sources, moment);
    Report {
        outcome: take(alloc, held, disk, choice, moment),
        visits,
        moment,
    }
}

// The report of a boot that ends before its draw.
fn unasked(alloc: Global, outcome: Outcome, when: Seconds) -> Report
    ensures outcome { result.outcome ≡ outcome }
    ensures visits { result.visits ≡ [] }
    ensures moment { result.moment ≡ record { time = when; nonce = None } }
{
    Report {
        outcome,
        visits: Visits::create(alloc),
        moment: Moment {
            time: when,
            nonce: None,
        },
    }
}
