//! The record of a disk in memory: its writes and syncs, and how writes are undone.
ghost use Rattle.std.specs.Prelude.{◌≡◌, ◌+◌, ◌≤◌, length};
ghost use Rattle.sz_disk.specs.Image.{patched};
ghost use Rattle.sz_disk.specs.Event.{unsynced, undone, undone_by};
ghost use Rattle.sz_disk.specs.Medium.{end_of, EachFits};

use sz_base::Bytes;

/// What the record of a disk in memory keeps of one call that changed it.
#[derive(Drop)]
pub enum Event {
    /// A write at a place, with the bytes that it wrote over.
    Wrote { at: usize, old: Bytes },
    /// A sync that succeeded.
    Synced,
}

/// The writes since the last sync.
pub fn since_sync(events: &[Event]) -> &[Event]
    ensures { result.now ≡ unsynced events.now }
{
    let mut start = 0;
    for (i, event) in events.iter().enumerate() {
        if let Event::Synced = event {
            start = i + 1;
        }
    }
    &events[start..]
}

/// Puts back what these events wrote over, from the last to the first.
pub fn undo(bytes: &mut [u8], events: &[Event])
    requires { EachFits (length bytes.old) events.now }
    ensures { bytes.new ≡ undone events.now bytes.old }
{
    for i in (0..events.len()).rev() {
        undo_one(bytes, &events[i]);
    }
}

// Puts back what one event wrote over.
fn undo_one(bytes: &mut [u8], event: &Event)
    requires { end_of event.now ≤ length bytes.old }
    ensures { bytes.new ≡ undone_by event.now bytes.old }
{
    if let Event::Wrote { at, old } = event {
        patch(bytes, *at, old.as_slice());
    }
}

/// Writes these bytes from a place on.
pub fn patch(bytes: &mut [u8], at: usize, new: &[u8])
    requires { at + length new.now ≤ length bytes.old }
    ensures { bytes.new ≡ patched at new.now bytes.old }
{
    bytes[at..at + new.len()].copy_from_slice(new);
}
