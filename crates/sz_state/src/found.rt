//! Finding the device of a disk.

ghost use Rattle.std.specs.Prelude.{◌≡◌, ◌+◌, ◌^◌, ◌<◌, ◌≤◌, List, ℕ, length, IfOk, IfErr, false};
ghost use Rattle.sz_spec.specs.Cause.{HasCause};
ghost use Rattle.sz_disk.specs.Disk.{IsQuiet, IsStill, IsSynced};
ghost use Rattle.sz_cell.specs.Cell.{IsReady};
ghost use Rattle.sz_cell.specs.Slot.{region_size};
ghost use Rattle.sz_record.specs.Stored.{IsStored};
ghost use Rattle.sz_state.specs.Fault.{state_failed};
ghost use Rattle.sz_state.specs.Held.{IsReadFault, IsRecordFault};
ghost use Rattle.sz_state.specs.Layout.{HasLayout};
ghost use Rattle.sz_state.specs.Ran.{Found, RecordFound};

use crate::{Held, Layout, StateFault};
use std::alloc::Global;
use sz_base::Failed;
use sz_cell::Ready;
use sz_disk::Disk;
use sz_record::{Device, RecordFault};

/// Finds the device of a disk, as it is also after a crash at any moment. It begins with a sync and writes nothing:
/// whatever it answers but `Failed`, from then on a crash leaves what a read gives. Each of these answers is what the
/// disk's bytes mean as it reads. Takes memory for the record's payload and for what it tells.
pub fn attach<D: Disk>(alloc: Global, disk: &mut D) -> Result<Held, StateFault>
    requires { HasLayout (D.seen disk.old).size }
    ensures found { Found (D.seen disk.old) (D.seen disk.new) result }
    ensures synced { state_failed result ≡ false → IsSynced (D.seen disk.old) (D.seen disk.new) }
    ensures still { IsStill (D.seen disk.old) (D.seen disk.new) }
    ensures cause { HasCause (D.seen disk.old).faults (D.seen disk.new).faults (state_failed result) }
{
    let layout = Layout::of_disk(disk);
    match sz_cell::attach(disk, layout.cell) {
        Ok(ready) => read_record(alloc, disk, layout.space, ready),
        Err(fault) => Err(StateFault::from(fault)),
    }
}

// reads the record of a cell
fn read_record<D: Disk>(
    alloc: Global,
    disk: &mut D,
    space: u64,
    ready: Ready,
) -> Result<Held, StateFault>
    requires { ready.at + region_size ready.capacity ≤ (D.seen disk.old).size }
    ensures found { (payload : List ℕ) → IsReady (D.seen disk.old) ready payload
        → RecordFound (D.seen disk.new) space ready result }
    ensures quiet { IsQuiet (D.seen disk.old) (D.seen disk.new) }
    ensures cause { HasCause (D.seen disk.old).faults (D.seen disk.new).faults (state_failed result) }
{
    let payload = read_payload(alloc, disk, &ready)?;
    match read_device(alloc, space, payload.as_slice()) {
        Ok(device) => Ok(Held { device, ready }),
        Err(fault) => Err(fault),
    }
}

// the payload of the cell's value
fn read_payload<D: Disk>(alloc: Global, disk: &mut D, ready: &Ready) -> Result<Vec<u8>, StateFault>
    requires { ready.now.at + region_size ready.now.capacity ≤ (D.seen disk.old).size }
    ensures read { (payload : List ℕ) → IsReady (D.seen disk.old) ready.now payload
        → IfOk result (λ read. IsReady (D.seen disk.new) ready.now read.items) }
    ensures short { IfOk result (λ read. length read.items < 2 ^ 32) }
    ensures refused { IfErr result IsReadFault }
    ensures quiet { IsQuiet (D.seen disk.old) (D.seen disk.new) }
    ensures cause { HasCause (D.seen disk.old).faults (D.seen disk.new).faults (state_failed result) }
{
    let Ok(mut payload) = vec![in alloc; 0u8; ready.length() as usize] else {
        return Err(StateFault::OutOfMemory);
    };
    match sz_cell::read(ready, disk, payload.as_mut_slice()) {
        Ok(()) => Ok(payload),
        Err(Failed) => Err(StateFault::Failed),
    }
}

// the device whose stored form this is
fn read_device(alloc: Global, space: u64, payload: &[u8]) -> Result<Device, StateFault>
    requires { length payload.now < 2 ^ 32 }
    ensures ok { IfOk result (IsStored space payload.now) }
    ensures refused { IfErr result (IsRecordFault space payload.now) }
{
    match sz_record::read(alloc, space, payload) {
        Ok(device) => Ok(device),
        Err(RecordFault::BadRecord { place, value }) => Err(StateFault::BadRecord {
            place: place as u32,
            value,
        }),
        Err(RecordFault::OutOfMemory) => Err(StateFault::OutOfMemory),
    }
}
