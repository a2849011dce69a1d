//! What stands before a slot's payload, and which slot has the cell's value by it.
ghost use Rattle.std.specs.Prelude.{◌≡◌, ◌++◌, [], ◌∷◌, ◌==◌, nat_le, if◌then◌else◌, Ok, Err};
ghost use Rattle.std.specs.Int.{w32, w64, to_be_bytes};
ghost use Rattle.sz_cell.specs.Header.{Judges};
ghost use Rattle.sz_cell.specs.Slot.{slot_of, open_gate};

use crate::AttachFault;

/// The gate of an open slot. Any other byte is a closed gate.
pub(crate) const OPEN: u8 = 0xA5;

/// The gate that closes a slot.
pub(crate) const CLOSED: u8 = 0;

/// How many bytes of a slot stand before its payload.
pub(crate) const HEADER: usize = 16;

/// What stands before a slot's payload.
#[derive(Clone, Copy)]
pub(crate) struct Header {
    pub(crate) slot: u8,
    pub(crate) gate: u8,
    pub(crate) sequence: u64,
    pub(crate) size: u32,
}

impl Header {
    /// Reads the bytes at the front of this slot.
    pub(crate) fn read(slot: u8, bytes: &[u8; HEADER]) -> Header
        ensures slot { result.slot ≡ slot }
        ensures gate { result.gate ≡ (slot_of bytes.now).gate }
        ensures sequence { result.sequence ≡ (slot_of bytes.now).sequence }
        ensures size { result.size ≡ (slot_of bytes.now).size }
    {
        let [gate, a, b, c, d, e, f, g, h, i, j, k, l, _, _, _] = *bytes;
        Header {
            slot,
            gate,
            sequence: u64::from_be_bytes([a, b, c, d, e, f, g, h]),
            size: u32::from_be_bytes([i, j, k, l]),
        }
    }

    /// The bytes between the gate and the payload.
    pub(crate) fn spell(sequence: u64, size: u32) -> [u8; HEADER - 1]
        ensures { result ≡ to_be_bytes w64 sequence ++ to_be_bytes w32 size ++ (0 ∷ 0 ∷ 0 ∷ []) }
    {
        let mut bytes = [0; HEADER - 1];
        bytes[..8].copy_from_slice(&sequence.to_be_bytes());
        bytes[8..12].copy_from_slice(&size.to_be_bytes());
        bytes
    }

    /// The gate is open.
    pub(crate) fn is_open(self) -> bool
        ensures { result ≡ (self.gate == open_gate) }
    {
        self.gate == OPEN
    }

    // The header of a slot that is open alone.
    fn whole(self, capacity: u32) -> Result<Header, AttachFault>
        ensures { result ≡ (if nat_le self.size capacity
            then Ok self else Err (AttachFault.Damaged self.slot self.sequence self.size)) }
    {
        if self.size <= capacity {
            Ok(self)
        } else {
            Err(self.damage())
        }
    }

    fn damage(self) -> AttachFault
        ensures { result ≡ AttachFault.Damaged self.slot self.sequence self.size }
    {
        AttachFault::Damaged {
            slot: self.slot,
            sequence: self.sequence,
            length: self.size,
        }
    }
}

/// Which slot has the value, by the headers of slot 0 and slot 1.
pub(crate) fn judge(capacity: u32, first: Header, second: Header) -> Result<Header, AttachFault>
    requires first { first.slot ≡ 0 }
    requires second { second.slot ≡ 1 }
    ensures { Judges capacity first second result }
{
    match (first.is_open(), second.is_open()) {
        (false, false) => Err(AttachFault::NotFormatted),
        (true, false) => first.whole(capacity),
        (false, true) => second.whole(capacity),
        (true, true) => judge_open(capacity, first, second),
    }
}

fn judge_open(capacity: u32, first: Header, second: Header) -> Result<Header, AttachFault>
    requires first { first.slot ≡ 0 }
    requires second { second.slot ≡ 1 }
    requires first_gate { first.gate ≡ open_gate }
    requires second_gate { second.gate ≡ open_gate }
    ensures { Judges capacity first second result }
{
    if first.size > capacity || first.sequence == second.sequence {
        Err(first.damage())
    } else if second.size > capacity {
        Err(second.damage())
    } else if second.sequence < first.sequence {
        Ok(first)
    } else {
        Ok(second)
    }
}
