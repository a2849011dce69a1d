//! Finding the cell of a region.
ghost use Rattle.std.specs.Prelude.{◌≡◌, ℕ, ◌+◌, ◌≤◌, IfOk, Err, false};
ghost use Rattle.sz_spec.specs.Cause.{HasCause};
ghost use Rattle.sz_disk.specs.Disk.{IsStill, IsSynced};
ghost use Rattle.sz_cell.specs.Cell.{ReadMeans};
ghost use Rattle.sz_cell.specs.Fault.{attach_failed};
ghost use Rattle.sz_cell.specs.Meaning.{none, damaged};
ghost use Rattle.sz_cell.specs.Slot.{region_size};
ghost use Rattle.sz_cell.specs.Transition.{IsAttached};

use crate::header::judge;
use crate::slot::read_headers;
use crate::standing::Standing;
use crate::{AttachFault, Ready, Region};
use sz_disk::Disk;

/// Finds the cell of a region, as it is also after a crash at any moment. It begins with a sync and writes
/// nothing: whatever it answers but `Failed`, from then on a crash leaves what a read gives. Each of these
/// answers is what the region means as the disk reads it.
pub fn attach<D: Disk>(disk: &mut D, region: Region) -> Result<Ready, AttachFault>
    requires { region.at + region_size region.capacity ≤ (D.seen disk.old).size }
    ensures ok { IfOk result (IsAttached region.at region.capacity (D.seen disk.new)) }
    ensures not_formatted { result ≡ Err AttachFault.NotFormatted
        → ReadMeans region.at region.capacity (D.seen disk.old).reads none }
    ensures damaged { (slot sequence length : ℕ) → result ≡ Err (AttachFault.Damaged slot sequence length)
        → ReadMeans region.at region.capacity (D.seen disk.old).reads (damaged slot sequence length) }
    ensures synced { attach_failed result ≡ false → IsSynced (D.seen disk.old) (D.seen disk.new) }
    ensures still { IsStill (D.seen disk.old) (D.seen disk.new) }
    ensures cause { HasCause (D.seen disk.old).faults (D.seen disk.new).faults (attach_failed result) }
{
    let (first, second) = read_headers(disk, region)?;
    let found = judge(region.capacity, first, second)?;
    Ok(Ready::at(Standing::found(region, found)))
}
