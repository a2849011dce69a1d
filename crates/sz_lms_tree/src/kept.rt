//! The nodes of a tree, computed once and kept.

ghost use Rattle.std.specs.Prelude.{◌≡◌, ℕ, [], ◌+◌, ◌-◌, ◌*◌, ◌^◌, ◌<◌, ◌≤◌, IsTrue, IfOk, OnOk};
ghost use Rattle.sz_lms.specs.Lms.{inner_node};
ghost use Rattle.sz_lms_tree.specs.Kept.{AreLeaves, IsKept, KeepsFrom, place_of};
ghost use Rattle.sz_lms_tree.specs.Places.{IsNodeAt};
ghost use Rattle.sz_lms_tree.specs.Tree.{is_height, is_width, node_of};
ghost use Rattle.sz_lms_tree.specs.View.{tree_secret};

use crate::nodes::leaf;
use crate::secrets::Secret;
use std::alloc::Global;
use sz_base::OutOfMemory;
use sz_lms::inner_node;

/// The place of node `r` among the kept nodes, which stand from the last leaf down to the root.
pub(crate) fn node_place(secret: &Secret, r: u32) -> usize
    requires height { IsTrue (is_height secret.now.height) }
    requires exists { r < 2 * 2 ^ secret.now.height }
    ensures { result ≡ place_of (tree_secret secret.now) r }
{
    (2 * secret.leaf_count() - 1 - r) as usize
}

// Hashes two children into node `r`.
fn hashed_children(id: &[u8; 16], r: u32, left: &[u8; 32], right: &[u8; 32]) -> [u8; 32]
    ensures { result ≡ inner_node id.now r left.now right.now }
{
    inner_node(id, r, left, right)
}

// Node `r`, which is no leaf, over its two children among the kept nodes.
fn parent(nodes: &[[u8; 32]], secret: &Secret, r: u32) -> [u8; 32]
    requires height { IsTrue (is_height secret.now.height) }
    requires inner { r < 2 ^ secret.now.height }
    requires positive { 0 < r }
    requires kept { KeepsFrom (r + 1) (tree_secret secret.now) nodes.now }
    ensures { (n : ℕ) → IsNodeAt secret.now.height n r → result ≡ node_of (tree_secret secret.now) n r }
{
    let left = &nodes[node_place(secret, 2 * r)];
    let right = &nodes[node_place(secret, 2 * r + 1)];
    hashed_children(&secret.id, r, left, right)
}

/// Puts the leaves from one on and before another last, the last one first.
pub(crate) fn push_leaves(
    nodes: &mut Vec<[u8; 32]>,
    secret: &Secret,
    from: u32,
    end: u32,
) -> Result<(), OutOfMemory>
    requires height { IsTrue (is_height secret.now.height) }
    requires width { IsTrue (is_width secret.now.width) }
    requires empty { nodes.old.items ≡ [] }
    requires ordered { from ≤ end }
    requires within { end ≤ 2 ^ secret.now.height }
    ensures { OnOk result (AreLeaves (tree_secret secret.now) from (end - from) nodes.new.items) }
{
    for q in (from..end).rev() {
        nodes.push(leaf(secret, q))?;
    }
    Ok(())
}

/// Puts the nodes above the leaves last, down to the root, which is node 1.
pub(crate) fn push_inner(nodes: &mut Vec<[u8; 32]>, secret: &Secret) -> Result<(), OutOfMemory>
    requires height { IsTrue (is_height secret.now.height) }
    requires leaves { AreLeaves (tree_secret secret.now) 0 (2 ^ secret.now.height) nodes.old.items }
    ensures { OnOk result (KeepsFrom 1 (tree_secret secret.now) nodes.new.items) }
{
    for r in (1..secret.leaf_count()).rev() {
        nodes.push(parent(nodes.as_slice(), secret, r))?;
    }
    Ok(())
}

/// All nodes of the secret's tree, from the last leaf down to the root.
pub(crate) fn kept_nodes(alloc: Global, secret: &Secret) -> Result<Vec<[u8; 32]>, OutOfMemory>
    requires height { IsTrue (is_height secret.now.height) }
    requires width { IsTrue (is_width secret.now.width) }
    ensures { IfOk result (λ nodes. IsKept (tree_secret secret.now) nodes.items) }
{
    let mut nodes = Vec::with_capacity(alloc, 2 * secret.leaf_count() as usize - 1)?;
    push_leaves(&mut nodes, secret, 0, secret.leaf_count())?;
    push_inner(&mut nodes, secret)?;
    Ok(nodes)
}
