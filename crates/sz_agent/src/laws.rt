//! The laws of boots: what the contract of `boot` comes to where nothing disturbs it, and over every list of boots
//! and power cuts. Each is the contract of a function that does nothing.

ghost use Rattle.std.specs.Prelude.{◌≡◌, ℕ, List, None};
ghost use Rattle.sz_spec.specs.Cause.{HasCause};
ghost use Rattle.sz_base.specs.declared.identity.Identity.{Identity};
ghost use Rattle.sz_record.specs.declared.device.Device.{Device};
ghost use Rattle.sz_source.specs.declared.source.Source.{Source};
ghost use Rattle.sz_state.specs.Step.{factory};
ghost use Rattle.sz_walk.specs.Walk.{WhereBothTell};
ghost use Rattle.sz_agent.specs.Boot.{BootOk, looker_at, Outside};
ghost use Rattle.sz_agent.specs.Complete.{Completes, IsUndisturbed};
ghost use Rattle.sz_agent.specs.Crash.{ReadsAs, StandsForEither};
ghost use Rattle.sz_agent.specs.Ending.{blames_disk};
ghost use Rattle.sz_agent.specs.Life.{ComesOfBoots, IsBoot, Lives, Run};
ghost use Rattle.sz_agent.specs.Quest.{quest_of};
ghost use Rattle.sz_agent.specs.declared.report.Report.{Report};

use sz_disk::Disk;
use sz_step::{a_device_is_committed_once, a_factory_device_is_lawful, boots_leave_lawful_devices};

/// What the contract of `boot` says of a disk is what the life of a disk asks of each of its boots: it is a safe boot
/// of `sz_step`, over every crash.
pub fn a_boot_is_safe<D: Disk>()
    ensures { (old new : D) (sources : List Source) (outside : Outside) (report : Report)
        → ((before : Device) (sequence : ℕ) → ReadsAs (D.seen old) before sequence
        → BootOk D.seen old new sources outside report before sequence)
        → IsBoot D.seen (record { old = old; new = new }) }
{}

/// A boot of a device that is not committed, and which nothing disturbs, takes its step by the first offer that the
/// device takes, or hears none and changes nothing.
pub fn a_boot_is_complete<D: Disk>()
    ensures { (old new : D) (sources : List Source) (outside : Outside) (report : Report) (before : Device)
        (sequence : ℕ) → HasCause (D.seen old).faults (D.seen new).faults (blames_disk report.outcome)
        → IsUndisturbed (D.seen old) (D.seen new) sequence report.outcome → before.onboarded ≡ None
        → (ok : BootOk D.seen old new sources outside report before sequence)
        → WhereBothTell outside.files outside.began outside.now (λ files.
        Completes (quest_of (looker_at before (D.seen old).size report.moment) sources files) ok.changes.boot
        report.visits) }
{}

/// Whatever boots and power cuts a disk lives through from the day that it was made to stand for a device, each image
/// that a crash may leave of it stands for a device that safe boots leave: all that it has is authorised, and it is
/// committed at most once.
pub fn whatever_a_disk_stands_for_is_lawful<D: Disk>()
    ensures { (identity : Identity) (first last : D) (runs : List (Run D)) (image : List ℕ)
        → StandsForEither (D.seen first) (factory identity) (factory identity) → Lives D.seen first runs last
        → (D.seen last).leaves image → ComesOfBoots identity image }
{
    a_factory_device_is_lawful();
    boots_leave_lawful_devices();
    a_device_is_committed_once();
}
