//! Laws of steps and of lists of boots. Each is the contract of a function that does nothing.

ghost use Rattle.std.specs.Prelude.{◌≡◌, ◌≢◌, ◌≤◌, List, None, count_by};
ghost use Rattle.sz_base.specs.declared.evidence.Evidence.{Evidence};
ghost use Rattle.sz_base.specs.declared.identity.Identity.{Identity};
ghost use Rattle.sz_base.specs.declared.moment.Moment.{Moment};
ghost use Rattle.sz_record.specs.declared.device.Device.{Device};
ghost use Rattle.sz_state.specs.Step.{factory};
ghost use Rattle.sz_step.specs.Boots.{Boot, EachLeaves, Follow, commits};
ghost use Rattle.sz_step.specs.Lawful.{Lawful};
ghost use Rattle.sz_step.specs.Step.{Step};

/// A device as it is made is lawful.
pub fn a_factory_device_is_lawful()
    ensures { (identity : Identity) → Lawful (factory identity) }
{}

/// A step from a lawful device leaves a lawful one.
pub fn a_step_keeps_lawful()
    ensures { (before : Device) (when : Moment) (evidence : Evidence) (after : Device) → Lawful before
        → Step before when evidence after → Lawful after }
{}

/// From a device that is committed there is no step.
pub fn a_committed_device_takes_no_step()
    ensures { (before : Device) (when : Moment) (evidence : Evidence) (after : Device) → before.onboarded ≢ None
        → ¬ (Step before when evidence after) }
{}

/// Whatever boots follow on a device as it was made, at most one of them commits it.
pub fn a_device_is_committed_once()
    ensures { (identity : Identity) (boots : List Boot) → Follow (factory identity) boots
        → count_by commits boots ≤ 1 }
{}

/// Whatever boots follow on a device as it was made, each leaves a lawful device of that identity: the serial number
/// and the anchors by which evidence is judged stay those that the device was made with.
pub fn boots_leave_lawful_devices()
    ensures lawful { (identity : Identity) (boots : List Boot) → Follow (factory identity) boots
        → EachLeaves Lawful boots }
    ensures identity { (identity : Identity) (boots : List Boot) → Follow (factory identity) boots
        → EachLeaves (λ device. device.identity ≡ identity) boots }
{}
