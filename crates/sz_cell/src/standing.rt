//! What the states of a cell share: where its value stands.
ghost use Rattle.std.specs.Prelude.{◌≡◌, ℕ, ◌+◌, ◌-◌, ◌*◌, ◌^◌, ◌<◌, ◌≤◌, length};
ghost use Rattle.sz_cell.specs.Cell.{Kept, next_of, spare_place, formatted};
ghost use Rattle.sz_cell.specs.Slot.{place, header_size, slot_size, region_size};

use crate::Region;
use crate::header::{HEADER, Header};
use std::marker::Model;

/// The sequence of a new cell.
pub(crate) const FIRST: u64 = 1;

/// A region, and the slot, the sequence and the length of the value that stands in it.
#[derive(Debug, Drop)]
pub(crate) struct Standing {
    region: Region,
    slot: u8,
    sequence: u64,
    size: u32,
}

impl Model for Standing {
    ghost use Rattle.std.specs.Prelude.{ℕ, ◌+◌, ◌*◌, ◌^◌, ◌<◌, ◌≤◌};
    ghost use Rattle.sz_cell.specs.Cell.{Kept};
    ghost use Rattle.sz_cell.specs.Slot.{region_size};

    ghost Value = { Kept };

    ghost view = { λ s. record {
      at = s.region.at;
      capacity = s.region.capacity;
      slot = s.slot;
      sequence = s.sequence;
      size = s.size;
    } };

    ghost invariant = { λ s.
        (s.slot < 2) × (s.region.at + region_size s.region.capacity < 2 ^ 64) × (s.size ≤ s.region.capacity) };
}

impl Standing {
    /// The value of a new cell.
    pub(crate) fn first(region: Region, size: u32) -> Standing
        requires word { region.at + region_size region.capacity < 2 ^ 64 }
        requires fits { size ≤ region.capacity }
        ensures { result ≡ formatted region.at region.capacity size }
    {
        Standing {
            region,
            slot: 0,
            sequence: FIRST,
            size,
        }
    }

    /// The value that this header tells of.
    pub(crate) fn found(region: Region, header: Header) -> Standing
        requires word { region.at + region_size region.capacity < 2 ^ 64 }
        requires slot { header.slot < 2 }
        requires fits { header.size ≤ region.capacity }
        ensures { result ≡ record {
          at = region.at;
          capacity = region.capacity;
          slot = header.slot;
          sequence = header.sequence;
          size = header.size;
        } }
    {
        Standing {
            region,
            slot: header.slot,
            sequence: header.sequence,
            size: header.size,
        }
    }

    /// The value of this length that follows, in the other slot.
    pub(crate) fn next(self, size: u32) -> Standing
        requires last { self.sequence + 1 < 2 ^ 64 }
        requires fits { size ≤ self.capacity }
        ensures { result ≡ next_of (record { kept = self; size = size }) }
    {
        Standing {
            region: self.region,
            slot: 1 - self.slot,
            sequence: self.sequence + 1,
            size,
        }
    }

    /// How many bytes a payload may have.
    pub(crate) fn capacity(&self) -> u32
        ensures { result ≡ self.now.capacity }
    {
        self.region.capacity
    }

    /// How many bytes the payload has.
    pub(crate) fn size(&self) -> u32
        ensures { result ≡ self.now.size }
    {
        self.size
    }

    /// The sequence of the value.
    pub(crate) fn sequence(&self) -> u64
        ensures { result ≡ self.now.sequence }
    {
        self.sequence
    }

    /// The length of a payload that fits.
    pub(crate) fn size_of(&self, payload: &[u8]) -> u32
        requires { length payload.now ≤ self.now.capacity }
        ensures same { result ≡ length payload.now }
        ensures short { length payload.now < 2 ^ 32 }
    {
        self.region.size_of(payload)
    }

    /// Where the payload begins.
    pub(crate) fn payload_place(&self) -> u64
        ensures place { result ≡ place self.now.at self.now.capacity self.now.slot + header_size }
        ensures inside { result + self.now.size ≤ self.now.at + region_size self.now.capacity }
        ensures slot { self.now.slot < 2 }
    {
        self.region.place(self.slot) + HEADER as u64
    }

    /// Where the other slot begins.
    pub(crate) fn spare_place(&self) -> u64
        ensures place { result ≡ spare_place self.now }
        ensures inside { spare_place self.now + slot_size self.now.capacity
            ≤ self.now.at + region_size self.now.capacity }
    {
        self.region.place(1 - self.slot)
    }
}
