//! The states of a cell, and the calls that replace its value.
ghost use Rattle.std.specs.Prelude.{◌≡◌, ◌↔◌, List, [], ◌∷◌, ℕ, ◌+◌, ◌^◌, ◌<◌, ◌≤◌, length, IfOk, OnOk, is_err, Err};
ghost use Rattle.sz_spec.specs.Cause.{HasCause};
ghost use Rattle.sz_disk.specs.Disk.{IsQuiet};
ghost use Rattle.sz_cell.specs.Cell.{Kept, Pending, next_of, spare_place, IsReady, IsCleared, IsFilled, WhereReadsTold};
ghost use Rattle.sz_cell.specs.Fault.{clear_failed};
ghost use Rattle.sz_cell.specs.Slot.{region_size, open_gate, spelled};
ghost use Rattle.sz_cell.specs.Transition.{ClearRan, FillRan, Replaced};
ghost use Rattle.sz_cell.specs.Write.{ClosesGate, Writes};

use crate::ClearFault;
use crate::header::OPEN;
use crate::slot::{close_gate, write_behind, write_gate};
use crate::standing::Standing;
use std::marker::Model;
use sz_base::Failed;
use sz_disk::Disk;

/// A cell with a value.
#[derive(Debug, Drop)]
pub struct Ready {
    standing: Standing,
}

impl Model for Ready {
    ghost use Rattle.sz_cell.specs.Cell.{Kept};

    ghost Value = { Kept };

    ghost view = { λ r. r.standing };
}

/// A cell with a value, whose other slot is closed.
#[derive(Debug, Drop)]
pub struct Cleared {
    standing: Standing,
}

impl Model for Cleared {
    ghost use Rattle.std.specs.Prelude.{◌+◌, ◌^◌, ◌<◌};
    ghost use Rattle.sz_cell.specs.Cell.{Kept};

    ghost Value = { Kept };

    ghost view = { λ c. c.standing };

    ghost invariant = { λ c. c.standing.sequence + 1 < 2 ^ 64 };
}

/// A cell with a value, whose other slot holds the next one behind its closed gate.
#[derive(Debug, Drop)]
pub struct Filled {
    standing: Standing,
    size: u32,
}

impl Model for Filled {
    ghost use Rattle.std.specs.Prelude.{◌+◌, ◌^◌, ◌<◌, ◌≤◌};
    ghost use Rattle.sz_cell.specs.Cell.{Pending};

    ghost Value = { Pending };

    ghost view = { λ f. record { kept = f.standing; size = f.size } };

    ghost invariant = { λ f. (f.standing.sequence + 1 < 2 ^ 64) × (f.size ≤ f.standing.capacity) };
}

impl Ready {
    /// The cell whose value stands here.
    pub(crate) fn at(standing: Standing) -> Ready
        ensures { result ≡ standing }
    {
        Ready { standing }
    }

    /// How many bytes a payload may have.
    pub fn capacity(&self) -> u32
        ensures { result ≡ self.now.capacity }
    {
        self.standing.capacity()
    }

    /// How many bytes the payload has.
    pub fn length(&self) -> u32
        ensures { result ≡ self.now.size }
    {
        self.standing.size()
    }

    /// Replaces the value: clear, fill and publish in one. A crash at any moment leaves the value from before or
    /// the new one; after success it leaves the new one, and everything on the disk is synced. At `Exhausted`,
    /// where the value has the last sequence, nothing was written.
    pub fn replace<D: Disk>(self, disk: &mut D, payload: &[u8]) -> Result<Ready, ClearFault>
        requires within { self.at + region_size self.capacity ≤ (D.seen disk.old).size }
        requires fits { length payload.now ≤ self.capacity }
        ensures same { IfOk result (λ ready. ready ≡ next_of (record { kept = self; size = length payload.now })) }
        ensures replaced { (before : List ℕ) → IsReady (D.seen disk.old) self before
            → Replaced (D.seen disk.old) (D.seen disk.new) (record { kept = self; size = length payload.now })
            before payload.now result }
        ensures exhausted { (sequence : ℕ) → (result ≡ Err (ClearFault.Exhausted sequence)) ↔
            ((sequence ≡ self.sequence) × (self.sequence + 1 ≡ 2 ^ 64)) }
        ensures untouched { (sequence : ℕ) → result ≡ Err (ClearFault.Exhausted sequence) → disk.new ≡ disk.old }
        ensures wrote { Writes (spare_place self) (open_gate ∷ spelled (self.sequence + 1) payload.now)
            (D.seen disk.old) (D.seen disk.new) result }
        ensures cause { HasCause (D.seen disk.old).faults (D.seen disk.new).faults (clear_failed result) }
    {
        let cleared = self.clear(disk)?;
        let filled = cleared.fill(disk, payload)?;
        let ready = filled.publish(disk)?;
        Ok(ready)
    }

    /// Closes the other slot, so that it can be filled. At `Exhausted`, where the value has the last sequence,
    /// nothing was written.
    pub fn clear<D: Disk>(self, disk: &mut D) -> Result<Cleared, ClearFault>
        requires within { self.at + region_size self.capacity ≤ (D.seen disk.old).size }
        ensures same { IfOk result (λ cleared. cleared ≡ self) }
        ensures ran { (payload : List ℕ) → IsReady (D.seen disk.old) self payload
            → ClearRan (D.seen disk.old) (D.seen disk.new) self payload result }
        ensures exhausted { (sequence : ℕ) → (result ≡ Err (ClearFault.Exhausted sequence)) ↔
            ((sequence ≡ self.sequence) × (self.sequence + 1 ≡ 2 ^ 64)) }
        ensures untouched { (sequence : ℕ) → result ≡ Err (ClearFault.Exhausted sequence) → disk.new ≡ disk.old }
        ensures closes { ClosesGate (spare_place self) (D.seen disk.old) (D.seen disk.new) result }
        ensures cause { HasCause (D.seen disk.old).faults (D.seen disk.new).faults (clear_failed result) }
    {
        let Ready { standing } = self;
        let sequence = standing.sequence();
        if sequence == u64::MAX {
            return Err(ClearFault::Exhausted { sequence });
        }
        close_gate(disk, standing.spare_place())?;
        Ok(Cleared { standing })
    }
}

impl Cleared {
    /// Writes the next value into the closed slot, behind its gate.
    pub fn fill<D: Disk>(self, disk: &mut D, payload: &[u8]) -> Result<Filled, Failed>
        requires within { self.at + region_size self.capacity ≤ (D.seen disk.old).size }
        requires fits { length payload.now ≤ self.capacity }
        ensures same { IfOk result (λ filled. filled ≡ record { kept = self; size = length payload.now }) }
        ensures ran { (before : List ℕ) → IsCleared (D.seen disk.old) self before
            → FillRan (D.seen disk.old) (D.seen disk.new) (record { kept = self; size = length payload.now })
            before payload.now result }
        ensures wrote { Writes (spare_place self + 1) (spelled (self.sequence + 1) payload.now)
            (D.seen disk.old) (D.seen disk.new) result }
        ensures cause { HasCause (D.seen disk.old).faults (D.seen disk.new).faults (is_err result) }
    {
        let Cleared { standing } = self;
        let size = standing.size_of(payload);
        let sequence = standing.sequence() + 1;
        write_behind(disk, standing.spare_place(), sequence, payload)?;
        Ok(Filled { standing, size })
    }
}

impl Filled {
    /// Opens the gate of the slot that was filled: its value is the cell's from then on.
    pub fn publish<D: Disk>(self, disk: &mut D) -> Result<Ready, Failed>
        requires within { self.kept.at + region_size self.kept.capacity ≤ (D.seen disk.old).size }
        ensures same { IfOk result (λ ready. ready ≡ next_of self) }
        ensures ran { (before after : List ℕ) → IsFilled (D.seen disk.old) self before after
            → Replaced (D.seen disk.old) (D.seen disk.new) self before after result }
        ensures wrote { Writes (spare_place self.kept) (open_gate ∷ []) (D.seen disk.old) (D.seen disk.new) result }
        ensures cause { HasCause (D.seen disk.old).faults (D.seen disk.new).faults (is_err result) }
    {
        let Filled { standing, size } = self;
        write_gate(disk, standing.spare_place(), OPEN)?;
        Ok(Ready {
            standing: standing.next(size),
        })
    }
}

/// Reads the value of a cell. After a refusal `into` may hold any bytes.
pub fn read<D: Disk>(ready: &Ready, disk: &mut D, into: &mut [u8]) -> Result<(), Failed>
    requires within { ready.now.at + region_size ready.now.capacity ≤ (D.seen disk.old).size }
    requires length { length into.old ≡ ready.now.size }
    ensures payload { (payload : List ℕ) → IsReady (D.seen disk.old) ready.now payload
        → OnOk result (WhereReadsTold (D.seen disk.old).reads (into.new ≡ payload)) }
    ensures ready { (payload : List ℕ) → IsReady (D.seen disk.old) ready.now payload
        → IsReady (D.seen disk.new) ready.now payload }
    ensures quiet { IsQuiet (D.seen disk.old) (D.seen disk.new) }
    ensures cause { HasCause (D.seen disk.old).faults (D.seen disk.new).faults (is_err result) }
{
    let place = ready.standing.payload_place();
    disk.read(place, into)
}
