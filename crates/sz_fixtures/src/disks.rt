//! Devices on disks in memory: how they are made and found there, and what stands at a place.

ghost use Rattle.std.specs.Prelude.{IfOk};
ghost use Rattle.sz_base.specs.Identity.{IsWhole};
ghost use Rattle.sz_state.specs.Held.{IsHeld};

use crate::device::identity;
use std::alloc::Global;
use std::test::Fail;
use sz_base::{Bytes, Identity, OutOfMemory};
use sz_cell::{Region, format};
use sz_disk::{Disk, MemoryDisk};
use sz_state::{Held, StateFault, attach, init, layout};

/// 1 MiB, the least size of a device disk: its slots hold 16,368 bytes each, and its areas begin at 262,144 and at
/// 524,288.
pub const SIZE: u64 = 1_048_576;

/// So many zeros.
pub fn zeros(alloc: Global, count: usize) -> Result<Bytes, OutOfMemory> {
    Ok(Bytes::from_vec(vec![in alloc; 0u8; count]?))
}

/// Makes a disk stand for a device of this identity. One whose size has no layout counts as failed.
pub fn make<D: Disk>(alloc: Global, disk: &mut D, identity: &Identity) -> Result<(), StateFault>
    requires { IsWhole identity.now }
{
    if layout(disk.size()).is_none() {
        return Err(StateFault::Failed);
    }
    init(alloc, disk, identity)
}

/// The device of a disk. One whose size has no layout counts as failed.
pub fn find<D: Disk>(alloc: Global, disk: &mut D) -> Result<Held, StateFault>
    ensures { IfOk result (IsHeld (D.seen disk.new)) }
{
    if layout(disk.size()).is_none() {
        return Err(StateFault::Failed);
    }
    attach(alloc, disk)
}

/// A disk that was made for a device A1 with this certificate.
pub fn disk_of(alloc: Global, anchor: Bytes) -> Result<MemoryDisk, Fail> {
    let identity = identity(alloc, anchor)?;
    let mut disk = MemoryDisk::create(alloc, SIZE)?;
    make(alloc, &mut disk, &identity)?;
    Ok(disk.power_up())
}

/// Writes bytes at a place.
pub fn overwrite(disk: &mut MemoryDisk, at: u64, bytes: &[u8]) -> Result<(), Fail> {
    let size = disk.size();
    if at > size || bytes.len() as u64 > size - at {
        return Err("a place outside the disk".into());
    }
    Ok(disk.write_at(at, bytes)?)
}

/// Whether these bytes stand at a place.
pub fn holds(alloc: Global, disk: &mut MemoryDisk, at: u64, bytes: &[u8]) -> Result<bool, Fail> {
    let size = disk.size();
    if at > size || bytes.len() as u64 > size - at {
        return Err("a place outside the disk".into());
    }
    let mut found = vec![in alloc; 0u8; bytes.len()]?;
    disk.read(at, found.as_mut_slice())?;
    Ok(found.as_slice() == bytes)
}

/// Makes the cell at the front of a disk have this record, in slots that hold so many bytes.
pub fn put_record(disk: &mut MemoryDisk, capacity: u32, record: &[u8]) -> Result<(), Fail> {
    if record.len() > capacity as usize || 2 * (16 + u64::from(capacity)) > disk.size() {
        return Err("a record that does not fit".into());
    }
    format(disk, Region { at: 0, capacity }, record)?;
    Ok(())
}
