//! What the commands tell of a disk and what they make of it. Each function does nothing: its contract is the law.

ghost use Rattle.std.specs.Prelude.{◌≡◌, List, ℕ, Err, IsTrue, None, Ok, Some, is_some};
ghost use Rattle.sz_agent.specs.Complete.{IsUndisturbed};
ghost use Rattle.sz_agent.specs.Crash.{ReadsAs, StandsForEither};
ghost use Rattle.sz_agent.specs.Life.{IsBoot};
ghost use Rattle.sz_agent.specs.declared.report.Report.{Report};
ghost use Rattle.sz_audit.specs.Audit.{AllAuthorised, Audits};
ghost use Rattle.sz_audit.specs.declared.found.Audit.{Audit as SomeAudit};
ghost use Rattle.sz_base.specs.declared.identity.Identity.{Identity};
ghost use Rattle.sz_commands.specs.Failure.{Failure};
ghost use Rattle.sz_commands.specs.declared.ending.Ending.TheVariants.{Done};
ghost use Rattle.sz_device.specs.AuditRan.{ending_of};
ghost use Rattle.sz_device.specs.Booted.{Beside, Booted, IsComplete};
ghost use Rattle.sz_device.specs.DeviceMade.{DeviceMade};
ghost use Rattle.sz_device.specs.Looked.{Looks};
ghost use Rattle.sz_device.specs.ShowRan.{Shows};
ghost use Rattle.sz_device.specs.ShowText.{show_text};
ghost use Rattle.sz_record.specs.declared.device.Device.{Device};
ghost use Rattle.sz_source.specs.declared.source.Source.{Source};
ghost use Rattle.sz_state.specs.Stands.{Stands};
ghost use Rattle.sz_state.specs.Step.{factory};
ghost use Rattle.sz_step.specs.Lawful.{Lawful};

use sz_agent::a_boot_is_complete;
use sz_audit::lawful_devices_are_authorised;
use sz_disk::Disk;

/// An `onboard` that gives a report is a boot in the life of its disk, so whatever holds over every list of boots and
/// power cuts holds over every list of such runs; one that gives none leaves the disk as it was.
pub fn an_onboard_is_a_boot_of_its_disk<D: Disk>()
    ensures boot { (sources : List Source) (old new : D) (before after : Beside) (report : Report)
        → Booted D.seen sources old new before after (Ok report) → IsBoot D.seen (record { old = old; new = new }) }
    ensures nothing { (sources : List Source) (old new : D) (before after : Beside) (failure : Failure)
        → Booted D.seen sources old new before after (Err failure) → new ≡ old }
{}

/// An `onboard` of a device that is not committed, and which nothing disturbs, is complete: the device takes its step
/// by the first offer that it takes, or none was heard and it is as it was.
pub fn an_undisturbed_onboard_is_complete<D: Disk>()
    ensures { (sources : List Source) (old new : D) (before after : Beside) (report : Report) (device : Device)
        (sequence : ℕ) → Booted D.seen sources old new before after (Ok report)
        → ReadsAs (D.seen old) device sequence → device.onboarded ≡ None
        → IsUndisturbed (D.seen old) (D.seen new) sequence report.outcome
        → IsComplete D.seen sources old new before after report device sequence }
{
    a_boot_is_complete::<D>();
}

/// An `init` that gives the serial number begins the life of its disk: every image that a crash may leave stands for
/// the device as it is made.
pub fn an_init_begins_the_life_of_its_disk<D: Disk>()
    ensures { (identity : Identity) (old new : D) (serial : List ℕ) → DeviceMade D.seen identity old new (Ok serial)
        → IsTrue (is_some (D.seen new).reads)
        → StandsForEither (D.seen new) (factory identity) (factory identity) }
{}

/// A disk whose bytes stand for a device is shown as that device.
pub fn a_disk_shows_the_device_that_it_stands_for<D: Disk>()
    ensures { (old new : D) (bytes : List ℕ) (device : Device) (text : List ℕ)
        → Looks D.seen Shows old new (Ok text) → (D.seen old).reads ≡ Some bytes → Stands bytes device
        → text ≡ show_text device }
{}

/// A disk whose bytes stand for a lawful device is audited without a finding: all that is there is authorised, and the
/// command is done.
pub fn a_lawful_device_is_authorised<D: Disk>()
    ensures { (old new : D) (bytes : List ℕ) (device : Device) (audit : SomeAudit)
        → Looks D.seen Audits old new (Ok audit) → (D.seen old).reads ≡ Some bytes → Stands bytes device
        → Lawful device → AllAuthorised audit × (ending_of audit ≡ Done) }
{
    lawful_devices_are_authorised();
}
