//! Leaves and roots, computed from the secret (RFC 8554 sections 4.3 and 5.3).

ghost use Rattle.std.specs.Prelude.{◌≡◌, ◌+◌, ◌-◌, ◌^◌, ◌<◌, IsTrue};
ghost use Rattle.sz_lms_tree.specs.Places.{IsNodeAt};
ghost use Rattle.sz_lms_tree.specs.Tree.{is_height, is_width, one_time_key, leaf_of, node_of, root_of};
ghost use Rattle.sz_lms_tree.specs.View.{tree_secret};

use crate::secrets::{Secret, chain_value};
use sha2::Digest;
use sz_lms::{inner_node, key_hasher, leaf_node};

// The one-time public key of leaf `q` (RFC 8554 section 4.3).
fn one_time_key(secret: &Secret, q: u32) -> [u8; 32]
    requires { IsTrue (is_width secret.now.width) }
    ensures { result ≡ one_time_key (tree_secret secret.now) q }
{
    let kind = secret.one_time_type();
    let steps = kind.last_digit();
    let mut hasher = key_hasher(&secret.id, q);
    for i in 0..kind.chains() {
        hasher.update(chain_value(secret, q, i, steps));
    }
    hasher.finalize()
}

/// The value of leaf `q` of the secret's tree, 32 bytes; leaves count from 0 (RFC 8554 section 5.3). Takes no
/// memory.
#[tactic(auto, unfolding(crate::specs::Tree::leaf_of))]
pub fn leaf(secret: &Secret, q: u32) -> [u8; 32]
    requires height { IsTrue (is_height secret.now.height) }
    requires width { IsTrue (is_width secret.now.width) }
    requires is_leaf { q < 2 ^ secret.now.height }
    ensures { result ≡ leaf_of (tree_secret secret.now) q }
{
    leaf_node(
        &secret.id,
        secret.leaf_count() + q,
        &one_time_key(secret, q),
    )
}

// Node `r`, which has so many more levels below it.
#[tactic(auto, unfolding(crate::specs::Tree::node_of))]
fn node(secret: &Secret, below: u8, r: u32) -> [u8; 32]
    requires height { IsTrue (is_height secret.now.height) }
    requires width { IsTrue (is_width secret.now.width) }
    requires place { IsNodeAt secret.now.height below r }
    ensures { result ≡ node_of (tree_secret secret.now) below r }
{
    if below == 0 {
        return leaf(secret, r - secret.leaf_count());
    }
    let left = node(secret, below - 1, 2 * r);
    let right = node(secret, below - 1, 2 * r + 1);
    inner_node(&secret.id, r, &left, &right)
}

/// The root of the secret's tree, node 1, 32 bytes (RFC 8554 section 5.3). All leaves are computed for it. Takes
/// no memory: on the way down, one node waits on each level.
pub fn root(secret: &Secret) -> [u8; 32]
    requires height { IsTrue (is_height secret.now.height) }
    requires width { IsTrue (is_width secret.now.width) }
    ensures { result ≡ root_of (tree_secret secret.now) }
{
    node(secret, secret.height, 1)
}
