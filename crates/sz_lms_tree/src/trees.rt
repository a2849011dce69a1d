//! A tree with its nodes kept, which signs.

ghost use Rattle.std.specs.Prelude.{◌≡◌, ◌↔◌, ◌^◌, ◌<◌, IsTrue, IfOk};
ghost use Rattle.sz_lms.specs.Lms.{LmsOk};
ghost use Rattle.sz_lms_tree.specs.Kept.{IsKept};
ghost use Rattle.sz_lms_tree.specs.Tree.{IsAllowed, child_of, is_height, is_width, public_of, root_of, signature_of};
ghost use Rattle.sz_lms_tree.specs.View.{tree_secret};

use crate::gate::Gate;
use crate::halves::nodes_by_halves;
use crate::kept::{kept_nodes, node_place};
use crate::public::public_key;
use crate::secrets::{Secret, child};
use crate::signing::leaf_signature;
use std::alloc::Global;
use std::marker::Model;
use std::thread::Threads;
use sz_base::{Bytes, OutOfMemory};

/// A tree with all its nodes in memory, 32 bytes each. Contracts see it as what its secret stands for.
#[derive(Drop)]
pub struct Tree {
    secret: Secret,
    nodes: Vec<[u8; 32]>,
}

impl Model for Tree {
    ghost use Rattle.sz_lms_tree.specs.Tree.{TreeSecret};
    ghost use Rattle.sz_lms_tree.specs.Kept.{IsKept};
    ghost use Rattle.sz_lms_tree.specs.View.{tree_secret};

    ghost Value = { TreeSecret };

    ghost view = { λ tree. tree_secret tree.secret };

    ghost invariant = { λ tree. IsKept (tree_secret tree.secret) tree.nodes.items };
}

impl Tree {
    /// The secret's tree, with all nodes computed and kept. Takes 32 bytes of memory for each node: 64 for each
    /// leaf, less 32.
    pub fn build(alloc: Global, secret: &Secret) -> Result<Tree, OutOfMemory>
        requires height { IsTrue (is_height secret.now.height) }
        requires width { IsTrue (is_width secret.now.width) }
        ensures { IfOk result (λ tree. tree ≡ tree_secret secret.now) }
    {
        let nodes = kept_nodes(alloc, secret)?;
        Ok(Tree {
            secret: *secret,
            nodes,
        })
    }

    /// The same tree, with its leaves computed in halves, down to subtrees of 32 leaves and to as many jobs as
    /// `most_jobs` gives. Each half enters the gate as it begins. While it is computed it takes the memory of the
    /// leaves once more.
    pub fn build_halves<R: Threads + Sync, G: Gate + Sync>(
        rt: &R,
        gate: &G,
        alloc: Global,
        secret: &Secret,
    ) -> Result<Tree, OutOfMemory>
        requires height { IsTrue (is_height secret.now.height) }
        requires width { IsTrue (is_width secret.now.width) }
        ensures { IfOk result (λ tree. tree ≡ tree_secret secret.now) }
    {
        let nodes = nodes_by_halves(rt, gate, alloc, secret)?;
        Ok(Tree {
            secret: *secret,
            nodes,
        })
    }

    /// All nodes, 32 bytes each, from the last leaf down to the root: the same for each tree of the same secret.
    pub fn nodes(&self) -> &[[u8; 32]]
        ensures { IsKept self.now result.now }
    {
        self.nodes.as_slice()
    }

    /// The tree is the secret's.
    pub fn is_of(&self, secret: &Secret) -> bool
        ensures { IsTrue result ↔ (self.now ≡ tree_secret secret.now) }
    {
        self.secret == *secret
    }

    /// The tree's height: it has 2 to the height leaves.
    pub fn height(&self) -> u8
        ensures value { result ≡ self.now.height }
        ensures allowed { IsAllowed self.now }
    {
        self.secret.height
    }

    /// The secret of the tree that hangs below leaf `q`, which counts from 0. The height and the width are taken as
    /// they are.
    pub fn child(&self, q: u32, height: u8, width: u8) -> Secret
        ensures { tree_secret result ≡ child_of self.now q height width }
    {
        child(&self.secret, q, height, width)
    }

    /// The tree's public key, 56 bytes (RFC 8554 section 5.3).
    pub fn public(&self) -> [u8; 56]
        ensures { result ≡ public_of self.now }
    {
        public_key(&self.secret, &self.root())
    }

    /// The tree's root, node 1, 32 bytes, as it was kept.
    pub fn root(&self) -> [u8; 32]
        ensures { result ≡ root_of self.now }
    {
        self.nodes[node_place(&self.secret, 1)]
    }

    /// What leaf `q`, which counts from 0, signs the message with (RFC 8554 section 5.4): the same bytes for the
    /// same secret, `q` and message. Each leaf is to sign one message only; the tree does not keep count.
    pub fn sign_leaf(&self, alloc: Global, q: u32, message: &[u8]) -> Result<Bytes, OutOfMemory>
        requires { q < 2 ^ self.now.height }
        ensures exact { IfOk result (λ signature. signature ≡ signature_of self.now q message.now) }
        ensures verifies { IfOk result (λ signature. LmsOk (public_of self.now) message.now signature) }
    {
        let signature = leaf_signature(alloc, &self.secret, self.nodes.as_slice(), q, message)?;
        Ok(Bytes::from_vec(signature))
    }
}
