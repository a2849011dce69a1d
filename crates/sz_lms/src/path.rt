//! The way up a tree, from a leaf to the root (RFC 8554 section 5.4.2).

ghost use Rattle.std.specs.Prelude.{◌≡◌, ◌*◌, ◌/◌, ◌%◌, ◌==◌, if◌then◌else◌, length};
ghost use Rattle.sz_lms.specs.Bits.{values_of};
ghost use Rattle.sz_lms.specs.Lms.{climb, inner_node};

use crate::hash::inner_node;

// The node above node `r`, which is the left child where its number is even.
fn parent(id: &[u8; 16], r: u32, node: &[u8; 32], sibling: &[u8]) -> [u8; 32]
    ensures { result ≡ (if r % 2 == 0 then inner_node id.now (r / 2) node.now sibling.now
        else inner_node id.now (r / 2) sibling.now node.now) }
{
    if r % 2 == 0 {
        inner_node(id, r / 2, node, sibling)
    } else {
        inner_node(id, r / 2, sibling, node)
    }
}

/// The root above node `r`, with the siblings on the way up (RFC 8554 section 5.4.2, algorithm 6a).
pub(crate) fn climb(id: &[u8; 16], r: u32, node: [u8; 32], height: u32, path: &[u8]) -> [u8; 32]
    requires { length path.now ≡ 32 * height }
    ensures { result ≡ climb id.now r node (values_of height path.now) }
{
    let mut r = r;
    let mut node = node;
    for i in 0..height {
        let at = 32 * i as usize;
        node = parent(id, r, &node, &path[at..at + 32]);
        r /= 2;
    }
    node
}
