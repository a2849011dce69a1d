//! What a crash leaves of the unsynced bytes of a disk in memory, by a choice.
ghost use Rattle.std.specs.Prelude.{◌≡◌, ◌+◌, ◌<◌, ◌≤◌, ℕ, false, ◌||◌, ◌&&◌, nat_le, nat_lt, [], ◌∷◌, length, IfOk, OnOk, OnErr};
ghost use Rattle.std.proofs.Common.{get_or};
ghost use Rattle.sz_disk.specs.Event.{undone, written_over};
ghost use Rattle.sz_disk.specs.Medium.{EachFits};
ghost use Rattle.sz_disk.specs.Choice.{picked_byte, IsFirstFound, IsPicked, AreCovered};

use crate::event::{Event, undo};
use std::alloc::{AllocError, Global};

// Up to how many writes the next unsynced byte is searched for in all of them.
const SEARCHED_WRITES: usize = 16;

/// Leaves of each byte that one of these writes covers what a choice picks.
pub fn pick(alloc: Global, bytes: &mut [u8], pending: &[Event], choice: u64)
    requires { EachFits (length bytes.old) pending.now }
    ensures { IsPicked choice pending.now (written_over pending.now) bytes.old bytes.new }
{
    match choice {
        0 => undo(bytes, pending),
        1 => {}
        _ => pick_each(alloc, bytes, pending, choice),
    }
}

// The same, byte by byte: over a copy of the bytes of the last sync, or by search where there are few writes
// or no memory for the copy.
fn pick_each(alloc: Global, bytes: &mut [u8], pending: &[Event], choice: u64)
    requires { EachFits (length bytes.old) pending.now }
    ensures { IsPicked choice pending.now (written_over pending.now) bytes.old bytes.new }
{
    let few = pending.len() <= SEARCHED_WRITES;
    if few || pick_over_copy(alloc, bytes, pending, choice).is_err() {
        pick_by_search(bytes, pending, choice);
    }
}

// The same over a copy of the bytes of the last sync. A refusal changes nothing.
fn pick_over_copy(
    alloc: Global,
    bytes: &mut [u8],
    pending: &[Event],
    choice: u64,
) -> Result<(), AllocError>
    requires { EachFits (length bytes.old) pending.now }
    ensures ok { OnOk result
        (IsPicked choice pending.now (written_over pending.now) bytes.old bytes.new) }
    ensures err { OnErr result (bytes.new ≡ bytes.old) }
{
    let old = synced_bytes(alloc, bytes, pending)?;
    let covered = covered_places(alloc, bytes.len(), pending)?;
    let mut rank = 0;
    for place in 0..bytes.len() {
        if covered[place] {
            bytes[place] = picked_byte(choice, rank, old[place], bytes[place]);
            rank += 1;
        }
    }
    Ok(())
}

// The bytes of the last sync.
fn synced_bytes(alloc: Global, bytes: &[u8], pending: &[Event]) -> Result<Vec<u8>, AllocError>
    requires { EachFits (length bytes.now) pending.now }
    ensures long { IfOk result (λ old. length old.items ≡ length bytes.now) }
    ensures bytes { IfOk result (λ old. old.items ≡ undone pending.now bytes.now) }
{
    let mut old = bytes.to_vec(alloc)?;
    undo(&mut old, pending);
    Ok(old)
}

// For each place below `size`, whether one of these writes covers it.
fn covered_places(alloc: Global, size: usize, pending: &[Event]) -> Result<Vec<bool>, AllocError>
    requires { EachFits size pending.now }
    ensures { IfOk result (λ covered. AreCovered size pending.now covered.items) }
{
    let mut covered = vec![in alloc; false; size]?;
    for event in pending {
        if let Event::Wrote { at, old } = event {
            mark(&mut covered, *at, *at + old.len());
        }
    }
    Ok(covered)
}

// Marks the places of `at..end`.
fn mark(marks: &mut [bool], at: usize, end: usize)
    requires ordered { at ≤ end }
    requires within { end ≤ length marks.old }
    ensures { (k : ℕ) → get_or marks.new k false ≡ (get_or marks.old k false || (nat_le at k && nat_lt k end)) }
{
    for place in at..end {
        marks[place] = true;
    }
}

// The same by search, which takes no memory.
fn pick_by_search(bytes: &mut [u8], pending: &[Event], choice: u64)
    ensures { IsPicked choice pending.now (written_over pending.now) bytes.old bytes.new }
{
    let mut from = 0;
    let mut rank = 0;
    while let Some((place, old)) = next_covered(pending, from, bytes.len()) {
        bytes[place] = picked_byte(choice, rank, old, bytes[place]);
        rank += 1;
        from = place + 1;
    }
}

// The first place of `from..end` that one of these writes covers, and the byte that stood there before them.
fn next_covered(pending: &[Event], from: usize, end: usize) -> Option<(usize, u8)>
    ensures { IsFirstFound pending.now from end result }
{
    let mut first = end;
    let mut found = None;
    for event in pending {
        if let Some((place, old)) = covered_place(event, from, first) {
            first = place;
            found = Some((place, old));
        }
    }
    found
}

// The first place of `from..end` that an event covers, and the byte that stood there before it.
fn covered_place(event: &Event, from: usize, end: usize) -> Option<(usize, u8)>
    ensures { IsFirstFound (event.now ∷ []) from end result }
{
    let Event::Wrote { at, old } = event else {
        return None;
    };
    let place = from.max(*at);
    if place >= end {
        return None;
    }
    let byte = old.as_slice().get(place - *at)?;
    Some((place, *byte))
}

// The byte that is left of the unsynced byte of this rank.
fn picked_byte(choice: u64, rank: usize, old: u8, new: u8) -> u8
    ensures { result ≡ picked_byte choice rank old new }
{
    match choice {
        0 => old,
        1 => new,
        _ => match choice % 3 * ((rank as u64 % 3 + 1) % 3) % 3 {
            0 => old,
            1 => new,
            _ => ((choice % 256 + rank as u64 % 256) % 256) as u8,
        },
    }
}
