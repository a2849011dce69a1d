//! What an audit says of a lawful device. The function does nothing: its contract is the law.

ghost use Rattle.std.specs.Prelude.{List, ℕ, Some};
ghost use Rattle.sz_audit.specs.Audit.{AllAuthorised, Audits};
ghost use Rattle.sz_audit.specs.declared.found.Audit.{Audit as SomeAudit};
ghost use Rattle.sz_record.specs.declared.device.Device.{Device};
ghost use Rattle.sz_state.specs.Stands.{Stands};
ghost use Rattle.sz_step.specs.Lawful.{Lawful};

/// Of a lawful device for which the bytes of the disk stand, all that is found is authorised.
pub fn lawful_devices_are_authorised()
    ensures { (bytes : List ℕ) (device : Device) (audit : SomeAudit) → Lawful device → Stands bytes device
        → Audits (Some bytes) device audit → AllAuthorised audit }
{}
