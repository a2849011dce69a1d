//! What the states of a cell say between two calls of it. Each function does nothing: its contract is the law.
//! A proof may also cite the lemma of `proofs/Elsewhere.antt` that proves it.
ghost use Rattle.std.specs.Prelude.{List, ℕ};
ghost use Rattle.sz_disk.specs.Disk.{TornIn};
ghost use Rattle.sz_cell.specs.Cell.{Kept, Pending, IsReady, IsCleared, IsFilled, IsElsewhere};

use sz_disk::Disk;

/// Writes outside the region, synced or not, leave a ready cell ready with its value.
pub fn stays_ready<D: Disk>()
    ensures { (before after : D) (kept : Kept) (payload : List ℕ) (from n : ℕ)
        → IsReady (D.seen before) kept payload
        → IsElsewhere kept.at kept.capacity from n
        → TornIn from n (D.seen before) (D.seen after)
        → IsReady (D.seen after) kept payload }
{}

/// They leave a cleared cell cleared, with its value.
pub fn stays_cleared<D: Disk>()
    ensures { (before after : D) (kept : Kept) (payload : List ℕ) (from n : ℕ)
        → IsCleared (D.seen before) kept payload
        → IsElsewhere kept.at kept.capacity from n
        → TornIn from n (D.seen before) (D.seen after)
        → IsCleared (D.seen after) kept payload }
{}

/// They leave a filled cell filled, with its value and the next one.
pub fn stays_filled<D: Disk>()
    ensures { (before after : D) (pending : Pending) (payload next : List ℕ) (from n : ℕ)
        → IsFilled (D.seen before) pending payload next
        → IsElsewhere pending.kept.at pending.kept.capacity from n
        → TornIn from n (D.seen before) (D.seen after)
        → IsFilled (D.seen after) pending payload next }
{}
