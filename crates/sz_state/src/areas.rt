//! Where a device's record and its images lie on a disk.

ghost use Rattle.std.specs.Prelude.{◌≡◌};
ghost use Rattle.sz_state.specs.Layout.{area_place, space_of};

use sz_cell::Region;
use sz_disk::Disk;

// a slot's header (sz_cell)
const SLOT_HEADER: u64 = 16;

/// A slot of the cell has this part of the disk.
pub(crate) const SLOTS: u64 = 64;

/// Where a device's record and its images lie on a disk of one size.
#[derive(Clone, Copy, Debug, PartialEq, Eq)]
pub struct Layout {
    /// The region of the cell that has the record.
    pub cell: Region,
    /// The places of the two image areas.
    pub areas: [u64; 2],
    /// The number of bytes of each area.
    pub space: u64,
}

impl Layout {
    ghost use Rattle.sz_state.specs.Layout.{HasLayout, IsLayout};

    /// The layout of a disk whose size has one.
    pub(crate) fn of_disk<D: Disk>(disk: &D) -> Layout
        requires { HasLayout (D.seen disk.now).size }
        ensures { IsLayout (D.seen disk.now).size result }
    {
        Layout::of_size(disk.size())
    }

    /// The layout of a disk of this size.
    pub(crate) fn of_size(size: u64) -> Layout
        requires { HasLayout size }
        ensures { IsLayout size result }
    {
        Layout {
            cell: Region {
                at: 0,
                capacity: (size / SLOTS - SLOT_HEADER) as u32,
            },
            areas: [area_place(size, 0), area_place(size, 1)],
            space: space_of(size),
        }
    }
}

/// The number of bytes of each image area on a disk of this size.
pub(crate) fn space_of(size: u64) -> u64
    ensures { result ≡ space_of size }
{
    size / 4
}

/// The place of an image area on a disk of this size.
pub(crate) fn area_place(size: u64, area: u8) -> u64
    ensures { result ≡ area_place size area }
{
    if area == 0 { size / 4 } else { size / 2 }
}
