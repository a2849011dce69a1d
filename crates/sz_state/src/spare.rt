//! The area that a device's image does not use.

ghost use Rattle.std.specs.Prelude.{◌≡◌};
ghost use Rattle.sz_state.specs.Layout.{HasLayout};
ghost use Rattle.sz_state.specs.Step.{other_area};

use crate::{Held, Staging};
use sz_disk::Disk;

/// The room over the area that the device's image does not use, area 0 where it has none. Takes no memory.
pub fn staging<'d, D: Disk>(held: &Held, disk: &'d mut D) -> Staging<'d, D>
    requires { HasLayout (D.seen disk.old).size }
    ensures same_disk { result.disk.ghost_name ≡ disk.entry.ghost_name }
    ensures now { result.disk.now ≡ disk.old }
    ensures area { result.area ≡ other_area held.now.device.image }
    ensures used { result.used ≡ 0 }
{
    let area = match &held.device.image {
        Some(image) if image.area == 0 => 1,
        _ => 0,
    };
    Staging {
        disk,
        area,
        used: 0,
    }
}
