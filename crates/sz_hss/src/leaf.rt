//! Which leaf of a tree a leaf number of a key uses.

ghost use Rattle.std.specs.Prelude.{◌≡◌, ◌/◌, ◌%◌, ◌^◌, ◌<◌, IsTrue};
ghost use Rattle.sz_lms_tree.specs.Tree.{is_height};

/// The leaf of its tree, which has this height, that leaf number `n` uses above levels of so many heights together.
pub(crate) fn leaf_at(height: u8, heights: u32, n: u64) -> u32
    requires height { IsTrue (is_height height) }
    requires heights { heights < 64 }
    ensures leaf { result ≡ n / 2 ^ heights % 2 ^ height }
    ensures exists { result < 2 ^ height }
{
    ((n >> heights) % (1 << height)) as u32
}
