//! Laws of stored forms. Each is the contract of a function that does nothing.

ghost use Rattle.std.specs.Prelude.{◌≡◌, List, ℕ, None};
ghost use Rattle.sz_record.specs.Spelling.{new_version};
ghost use Rattle.sz_record.specs.Stored.{first_wrong, IsStorable, IsStored};
ghost use Rattle.sz_record.specs.declared.device.Device.{Device};

/// What is read can be written: a device of either version has a form of version 2.
pub fn devices_are_rewritten()
    ensures { (space : ℕ) (payload : List ℕ) (device : Device) → IsStored space payload device
        → IsStorable new_version device }
{}

/// A payload that is the stored form of a device has no wrong byte, and is that of no other device.
pub fn payloads_have_one_reading()
    ensures never_both { (space : ℕ) (payload : List ℕ) (device : Device) → IsStored space payload device
        → first_wrong space payload ≡ None }
    ensures one_device { (space : ℕ) (payload : List ℕ) (device other : Device) → IsStored space payload device
        → IsStored space payload other → device ≡ other }
{}
