//! The trial of an offer of a walk.

ghost use Rattle.std.specs.Prelude.{◌≡◌};
ghost use Rattle.sz_spec.specs.Cause.{HasCause};
ghost use Rattle.sz_spec.specs.Told.{WhereTold};
ghost use Rattle.sz_http.specs.Reading.{side_of};
ghost use Rattle.sz_offer.specs.Trial.{looker_of, WritesSpare};
ghost use Rattle.sz_agent.specs.Choice.{CanChoose, IfChosen, IsAuthorised, IsOpen, Weighs, weighing_blames_disk};
ghost use Rattle.sz_agent.specs.Lost.{WeighingLost};

use crate::choice::{Choice, Offer};
use std::alloc::Global;
use sz_base::Moment;
use sz_disk::Disk;
use sz_evidence::Reason;
use sz_http::{Reading, Side};
use sz_io::Net;
use sz_offer::{Trial, authorised_names_are_short, try_offer};
use sz_state::Held;

/// Tries an offer whose evidence authorises it: what is chosen, where the walk ends with it, or why it is turned
/// down. `buffer` is a reading of replies.
pub(crate) fn weigh<D: Disk, N: Net>(
    alloc: Global,
    held: &Held,
    disk: &mut D,
    net: &mut N,
    offer: Offer,
    when: Moment,
    buffer: &mut Reading,
) -> Result<Choice, Reason>
    requires open { IsOpen (D.seen disk.old) held.now }
    requires authorised { IsAuthorised held.now.device when offer }
    requires replies { side_of buffer.old ≡ Side.Reply }
    ensures weighs { WhereTold (Weighs (looker_of (D.seen disk.old) held.now when) offer result)
        (N.traffic net.old) (N.traffic net.new) }
    ensures can { IfChosen result (CanChoose (D.seen disk.new) held.now.device when) }
    ensures spare { WritesSpare (D.seen disk.old) (D.seen disk.new) held.now }
    ensures disk_fault { HasCause (D.seen disk.old).faults (D.seen disk.new).faults (weighing_blames_disk result) }
    ensures lost { WeighingLost (N.faults net.old) (N.faults net.new) result }
    ensures side { side_of buffer.new ≡ Side.Reply }
{
    authorised_names_are_short();
    let trial = try_offer(
        alloc,
        held,
        disk,
        net,
        &offer.onboarding,
        &offer.evidence,
        &when,
        buffer,
    );
    match trial {
        Trial::Satisfied => Ok(Choice::Commits(offer)),
        Trial::Staged(staged) => Ok(Choice::Installs(staged, offer)),
        Trial::Refused(reason) => Err(reason),
        Trial::DiskFault => Ok(Choice::DiskFault),
        Trial::OutOfMemory => Ok(Choice::OutOfMemory),
    }
}
