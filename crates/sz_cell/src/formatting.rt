//! Making a new cell.
ghost use Rattle.std.specs.Prelude.{◌≡◌, ◌⊎◌, ℕ, ◌+◌, ◌≤◌, ◌∷◌, length, IfOk, OnOk, Err, false};
ghost use Rattle.sz_spec.specs.Cause.{HasCause};
ghost use Rattle.sz_disk.specs.Disk.{IsStill, IsSynced, LeavesOnly};
ghost use Rattle.sz_cell.specs.Cell.{formatted, IsFirstOpen, NoneOpen};
ghost use Rattle.sz_cell.specs.Fault.{format_failed};
ghost use Rattle.sz_cell.specs.Meaning.{value};
ghost use Rattle.sz_cell.specs.Slot.{region_size, open_gate, spelled};
ghost use Rattle.sz_cell.specs.Transition.{Formatted, IsInUse, MeansAsBeforeOr};
ghost use Rattle.sz_cell.specs.Write.{Writes};

use crate::header::OPEN;
use crate::slot::{read_headers, write_behind, write_gate};
use crate::standing::{FIRST, Standing};
use crate::{FormatFault, Ready, Region};
use sz_disk::Disk;

/// Makes a cell with this value in a region where no gate is open, in its first slot. It begins with a sync:
/// whatever it answers but `Failed`, from then on a crash leaves what a read gives. Nothing is written unless both
/// gates read closed, whatever it answers.
pub fn format<D: Disk>(disk: &mut D, region: Region, payload: &[u8]) -> Result<Ready, FormatFault>
    requires within { region.at + region_size region.capacity ≤ (D.seen disk.old).size }
    requires fits { length payload.now ≤ region.capacity }
    ensures same { IfOk result (λ ready. ready ≡ formatted region.at region.capacity (length payload.now)) }
    ensures ok { OnOk result
        (Formatted region.at region.capacity (D.seen disk.old) (D.seen disk.new) payload.now) }
    ensures in_use { (slot : ℕ) → result ≡ Err (FormatFault.InUse slot)
        → IsInUse region.at region.capacity slot (D.seen disk.old) (D.seen disk.new) }
    ensures free { IsStill (D.seen disk.old) (D.seen disk.new)
        ⊎ NoneOpen region.at region.capacity (D.seen disk.old).reads }
    ensures any_moment { LeavesOnly (D.seen disk.old) (D.seen disk.new)
        (MeansAsBeforeOr region.at region.capacity (D.seen disk.old).leaves (value 0 1 payload.now)) }
    ensures wrote { Writes region.at (open_gate ∷ spelled 1 payload.now)
        (D.seen disk.old) (D.seen disk.new) result }
    ensures cause { HasCause (D.seen disk.old).faults (D.seen disk.new).faults (format_failed result) }
{
    find_closed(disk, region)?;
    let size = region.size_of(payload);
    let place = region.place(0);
    write_behind(disk, place, FIRST, payload)?;
    write_gate(disk, place, OPEN)?;
    Ok(Ready::at(Standing::first(region, size)))
}

// Syncs, and finds both gates closed.
fn find_closed<D: Disk>(disk: &mut D, region: Region) -> Result<(), FormatFault>
    requires within { region.at + region_size region.capacity ≤ (D.seen disk.old).size }
    ensures closed { OnOk result (NoneOpen region.at region.capacity (D.seen disk.old).reads) }
    ensures in_use { (slot : ℕ) → result ≡ Err (FormatFault.InUse slot)
        → IsFirstOpen region.at region.capacity slot (D.seen disk.old).reads }
    ensures synced { format_failed result ≡ false → IsSynced (D.seen disk.old) (D.seen disk.new) }
    ensures still { IsStill (D.seen disk.old) (D.seen disk.new) }
    ensures cause { HasCause (D.seen disk.old).faults (D.seen disk.new).faults (format_failed result) }
{
    let (first, second) = read_headers(disk, region)?;
    if first.is_open() {
        Err(FormatFault::InUse { slot: 0 })
    } else if second.is_open() {
        Err(FormatFault::InUse { slot: 1 })
    } else {
        Ok(())
    }
}
