//! Where a cell lies on a disk.
ghost use Rattle.std.specs.Prelude.{◌≡◌, ◌+◌, ◌*◌, ◌^◌, ◌<◌, ◌≤◌, length};
ghost use Rattle.sz_cell.specs.Slot.{place, region_size};

use crate::header::HEADER;

/// Where a cell lies on a disk: `2 * (16 + capacity)` bytes from `at` on.
#[derive(Clone, Copy, Debug, PartialEq, Eq)]
pub struct Region {
    /// The place of the first byte.
    pub at: u64,
    /// How many bytes a payload may have.
    pub capacity: u32,
}

impl Region {
    /// Where a slot begins, 0 or 1.
    pub(crate) fn place(self, slot: u8) -> u64
        requires { self.at + region_size self.capacity < 2 ^ 64 }
        ensures { result ≡ place self.at self.capacity slot }
    {
        if slot == 0 {
            self.at
        } else {
            self.at + (HEADER as u64 + u64::from(self.capacity))
        }
    }

    /// The length of a payload that fits.
    pub(crate) fn size_of(self, payload: &[u8]) -> u32
        requires { length payload.now ≤ self.capacity }
        ensures same { result ≡ length payload.now }
        ensures short { length payload.now < 2 ^ 32 }
    {
        payload.len() as u32
    }
}
