//! Which sizes of a disk have a layout.

ghost use Rattle.std.specs.Prelude.{◌↔◌, IfSome, IsSome, IsTrue};
ghost use Rattle.sz_state.specs.Layout.{HasLayout, IsLayout};

use crate::Layout;
use crate::areas::SLOTS;

const LEAST_SIZE: u64 = 1 << 20;

const GREATEST_SIZE: u64 = 1 << 36;

/// The layout of a disk of this size, or `None` exactly where the size has none: it is a multiple of 64, from 1 MiB to
/// 64 GiB.
pub fn layout(size: u64) -> Option<Layout>
    ensures some { IfSome result (IsLayout size) }
    ensures has { IsSome result ↔ HasLayout size }
{
    if has_layout(size) {
        Some(Layout::of_size(size))
    } else {
        None
    }
}

fn has_layout(size: u64) -> bool
    ensures { IsTrue result ↔ HasLayout size }
{
    size % SLOTS == 0 && LEAST_SIZE <= size && size <= GREATEST_SIZE
}
