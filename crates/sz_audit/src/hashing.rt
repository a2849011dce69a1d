//! The hash of the front of an image area.

ghost use Rattle.std.specs.Prelude.{◌≡◌, ◌+◌, ◌≤◌, ℕ, IfOk, IfErr, is_err, length};
ghost use Rattle.sha2.specs.Sha256.{sha256};
ghost use Rattle.sz_spec.specs.Cause.{HasCause};
ghost use Rattle.sz_disk.specs.Disk.{IsQuiet};
ghost use Rattle.sz_disk.specs.Image.{part};
ghost use Rattle.sz_state.specs.Fault.{state_failed};
ghost use Rattle.sz_state.specs.Held.{IsReadFault, ReadHas};
ghost use Rattle.sz_state.specs.Layout.{HasLayout, IsLayout, area_place, space_of};

use sha2::{Digest, Sha256};
use std::alloc::Global;
use sz_base::Failed;
use sz_disk::Disk;
use sz_state::{Layout, StateFault, layout};

// How many bytes are read at a time.
const PIECE: usize = 65536;

/// The SHA-256 of so many bytes at the front of an area.
pub(crate) fn hash_area<D: Disk>(
    alloc: Global,
    disk: &mut D,
    area: u8,
    size: u64,
) -> Result<[u8; 32], StateFault>
    requires layout { HasLayout (D.seen disk.old).size }
    requires within { size ≤ space_of (D.seen disk.old).size }
    ensures ok { IfOk result (λ digest. ReadHas (D.seen disk.new).reads
        (λ bytes. sha256 (part bytes (area_place (length bytes) area) size) ≡ digest)) }
    ensures refused { IfErr result IsReadFault }
    ensures quiet { IsQuiet (D.seen disk.old) (D.seen disk.new) }
    ensures cause { HasCause (D.seen disk.old).faults (D.seen disk.new).faults (state_failed result) }
{
    let Some(layout) = layout(disk.size()) else {
        return Err(StateFault::OutOfMemory);
    };
    let Ok(mut piece) = vec![in alloc; 0u8; PIECE] else {
        return Err(StateFault::OutOfMemory);
    };
    match hash_from(disk, place_of(&layout, area), size, piece.as_mut_slice()) {
        Ok(digest) => Ok(digest),
        Err(Failed) => Err(StateFault::Failed),
    }
}

// The place of an area.
fn place_of(layout: &Layout, area: u8) -> u64
    ensures { (size : ℕ) → IsLayout size layout.now → result ≡ area_place size area }
{
    let [first, second] = layout.areas;
    if area == 0 { first } else { second }
}

// The SHA-256 of so many bytes from a place on, read by pieces of this length.
fn hash_from<D: Disk>(
    disk: &mut D,
    at: u64,
    size: u64,
    piece: &mut [u8],
) -> Result<[u8; 32], Failed>
    requires inside { at + size ≤ (D.seen disk.old).size }
    requires some { 1 ≤ length piece.old }
    ensures ok { IfOk result (λ digest. ReadHas (D.seen disk.new).reads
        (λ bytes. sha256 (part bytes at size) ≡ digest)) }
    ensures quiet { IsQuiet (D.seen disk.old) (D.seen disk.new) }
    ensures cause { HasCause (D.seen disk.old).faults (D.seen disk.new).faults (is_err result) }
{
    let mut hasher = Sha256::new();
    let mut done = 0;
    while done < size {
        let count = (size - done).min(piece.len() as u64) as usize;
        let next = &mut piece[..count];
        disk.read(at + done, next)?;
        hasher.update(&*next);
        done += count as u64;
    }
    Ok(hasher.finalize())
}
