//! Making a disk stand for a device as it is made.

ghost use Rattle.std.specs.Prelude.{◌≡◌, ◌⊎◌, ◌≤◌, length, IfOk, IfErr};
ghost use Rattle.sz_base.specs.Identity.{IsWhole};
ghost use Rattle.sz_spec.specs.Cause.{HasCause};
ghost use Rattle.sz_cell.specs.Cell.{NoneOpen};
ghost use Rattle.sz_disk.specs.Disk.{IsStill, LeavesOnly};
ghost use Rattle.sz_record.specs.Spelling.{new_version, record_bytes};
ghost use Rattle.sz_record.specs.Stored.{HasWidths};
ghost use Rattle.sz_state.specs.Fault.{state_failed};
ghost use Rattle.sz_state.specs.Layout.{HasLayout, capacity_of, cell_place};
ghost use Rattle.sz_state.specs.Ran.{AsBeforeOrStands, FitsUnlessTold, IsEarly, IsNoRecord, Made};
ghost use Rattle.sz_state.specs.Step.{factory};

use crate::{Layout, StateFault};
use std::alloc::Global;
use sz_base::{Bytes, Identity, OutOfMemory};
use sz_disk::Disk;
use sz_record::{Device, device_widths, size, write};

/// Makes a disk stand for a device with this identity as it is made. `TooLarge` exactly where its record does not fit
/// the cell; `InUse` where, after a sync, a gate of the cell is open. It takes its memory before it calls the disk, and
/// writes nothing unless both gates read closed, whatever it answers. The record's sequence is 1.
pub fn init<D: Disk>(alloc: Global, disk: &mut D, identity: &Identity) -> Result<(), StateFault>
    requires layout { HasLayout (D.seen disk.old).size }
    requires whole { IsWhole identity.now }
    ensures made { Made (D.seen disk.old) (D.seen disk.new) identity.now result }
    ensures fits { FitsUnlessTold (D.seen disk.old) identity.now result }
    ensures free { IsStill (D.seen disk.old) (D.seen disk.new)
        ⊎ NoneOpen cell_place (capacity_of (D.seen disk.old).size) (D.seen disk.old).reads }
    ensures any_moment { LeavesOnly (D.seen disk.old) (D.seen disk.new)
        (AsBeforeOrStands (D.seen disk.old) (factory identity.now)) }
    ensures untouched { IfErr result (λ fault. IsEarly fault → disk.new ≡ disk.old) }
    ensures cause { HasCause (D.seen disk.old).faults (D.seen disk.new).faults (state_failed result) }
{
    let layout = Layout::of_disk(disk);
    let payload = factory_record(alloc, identity, layout.cell.capacity)?;
    match sz_cell::format(disk, layout.cell, payload.as_slice()) {
        Ok(_) => Ok(()),
        Err(fault) => Err(StateFault::from(fault)),
    }
}

// the record of a device as it is made, where it fits
fn factory_record(alloc: Global, identity: &Identity, capacity: u32) -> Result<Bytes, StateFault>
    requires { IsWhole identity.now }
    ensures first { IfOk result (λ written. written ≡ record_bytes new_version (factory identity.now)) }
    ensures wide { IfOk result (λ written. HasWidths (factory identity.now)) }
    ensures fits { IfOk result (λ written. length written ≤ capacity) }
    ensures refused { IfErr result (IsNoRecord capacity (factory identity.now)) }
{
    let device = factory(alloc, identity)?;
    device_widths(&device);
    let size = size(&device);
    if size > u64::from(capacity) {
        return Err(StateFault::TooLarge { size });
    }
    let record = write(alloc, &device)?;
    Ok(record)
}

// a device as it is made
fn factory(alloc: Global, identity: &Identity) -> Result<Device, OutOfMemory>
    ensures { IfOk result (λ made. made ≡ factory identity.now) }
{
    let identity = identity.copy(alloc)?;
    let running_name = identity.os_name.copy(alloc)?;
    let running_version = identity.os_version.copy(alloc)?;
    Ok(Device {
        identity,
        running_name,
        running_version,
        image: None,
        onboarded: None,
    })
}
