//! The calls on the disk that a cell is made of: one slot's header read, its gate or the rest written and synced.
ghost use Rattle.std.specs.Prelude.{◌≡◌, ◌+◌, ◌^◌, ◌<◌, ◌≤◌, [], ◌∷◌, length, IfOk, OnOk, is_err};
ghost use Rattle.sz_spec.specs.Cause.{HasCause};
ghost use Rattle.sz_disk.specs.Disk.{IsQuiet, IsStill, IsSynced};
ghost use Rattle.sz_cell.specs.Header.{HeaderRead, HeadersRead};
ghost use Rattle.sz_cell.specs.Slot.{header_size, region_size, spelled};
ghost use Rattle.sz_cell.specs.Write.{ClosesGate, Writes};

use crate::Region;
use crate::header::{CLOSED, HEADER, Header, OPEN};
use sz_base::Failed;
use sz_disk::Disk;

/// Syncs, and reads the headers of both slots. It writes nothing.
pub(crate) fn read_headers<D: Disk>(
    disk: &mut D,
    region: Region,
) -> Result<(Header, Header), Failed>
    requires { region.at + region_size region.capacity ≤ (D.seen disk.old).size }
    ensures slots { IfOk result (λ pair. (pair.0.slot ≡ 0) × (pair.1.slot ≡ 1)) }
    ensures headers { IfOk result
        (λ pair. HeadersRead region.at region.capacity (D.seen disk.old).reads pair.0 pair.1) }
    ensures synced { OnOk result (IsSynced (D.seen disk.old) (D.seen disk.new)) }
    ensures still { IsStill (D.seen disk.old) (D.seen disk.new) }
    ensures cause { HasCause (D.seen disk.old).faults (D.seen disk.new).faults (is_err result) }
{
    disk.sync()?;
    let first = read_header(disk, region, 0)?;
    let second = read_header(disk, region, 1)?;
    Ok((first, second))
}

/// Reads the header of a slot, 0 or 1.
pub(crate) fn read_header<D: Disk>(disk: &mut D, region: Region, slot: u8) -> Result<Header, Failed>
    requires within { region.at + region_size region.capacity ≤ (D.seen disk.old).size }
    requires slot { slot < 2 }
    ensures slot { IfOk result (λ header. header.slot ≡ slot) }
    ensures header { IfOk result (HeaderRead region.at region.capacity slot (D.seen disk.old).reads) }
    ensures quiet { IsQuiet (D.seen disk.old) (D.seen disk.new) }
    ensures cause { HasCause (D.seen disk.old).faults (D.seen disk.new).faults (is_err result) }
{
    let mut bytes = [0; HEADER];
    disk.read(region.place(slot), &mut bytes)?;
    Ok(Header::read(slot, &bytes))
}

/// Writes a gate at its place, and syncs.
pub(crate) fn write_gate<D: Disk>(disk: &mut D, place: u64, gate: u8) -> Result<(), Failed>
    requires { place + 1 ≤ (D.seen disk.old).size }
    ensures wrote { Writes place (gate ∷ []) (D.seen disk.old) (D.seen disk.new) result }
    ensures cause { HasCause (D.seen disk.old).faults (D.seen disk.new).faults (is_err result) }
{
    disk.write_at(place, &[gate])?;
    disk.sync()
}

/// Closes the gate at this place where it reads open, and syncs then.
pub(crate) fn close_gate<D: Disk>(disk: &mut D, place: u64) -> Result<(), Failed>
    requires { place + 1 ≤ (D.seen disk.old).size }
    ensures closes { ClosesGate place (D.seen disk.old) (D.seen disk.new) result }
    ensures cause { HasCause (D.seen disk.old).faults (D.seen disk.new).faults (is_err result) }
{
    let mut gate = [CLOSED];
    disk.read(place, &mut gate)?;
    if gate[0] == OPEN {
        write_gate(disk, place, CLOSED)?;
    }
    Ok(())
}

/// Writes all but the gate of the slot at this place, and syncs.
pub(crate) fn write_behind<D: Disk>(
    disk: &mut D,
    place: u64,
    sequence: u64,
    payload: &[u8],
) -> Result<(), Failed>
    requires fits { place + header_size + length payload.now ≤ (D.seen disk.old).size }
    requires short { length payload.now < 2 ^ 32 }
    ensures wrote { Writes (place + 1) (spelled sequence payload.now) (D.seen disk.old) (D.seen disk.new) result }
    ensures cause { HasCause (D.seen disk.old).faults (D.seen disk.new).faults (is_err result) }
{
    let header = Header::spell(sequence, payload.len() as u32);
    disk.write_at(place + 1, &header)?;
    disk.write_at(place + HEADER as u64, payload)?;
    disk.sync()
}
