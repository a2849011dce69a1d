//! Leaf numbers that were handed out.

ghost use Rattle.std.specs.Prelude.{◌≡◌, ◌+◌, ◌^◌, ◌<◌, ◌≤◌};
ghost use Rattle.sz_hss.specs.Leaf.{leaf_count};
ghost use Rattle.sz_signer.specs.Leaves.{one_spent};

use std::marker::Model;
use sz_hss::Key;

/// Leaf numbers of a key that were handed out and not spent yet: one after another, each for one message. They stand
/// for that key, and the key has them all. They cannot be dropped: they are signed with, or given up by `drop_rest`.
/// They have no `Debug`, as a key has none.
pub struct Leaves {
    key: Key,
    first: u64,
    left: u64,
}

impl Model for Leaves {
    ghost use Rattle.std.specs.Prelude.{◌+◌, ◌^◌, ◌<◌, ◌≤◌};
    ghost use Rattle.sz_hss.specs.Leaf.{leaf_count};
    ghost use Rattle.sz_signer.specs.Leaves.{Reserved};

    ghost Value = { Reserved };

    ghost view = { λ leaves. record { key = leaves.key; first = leaves.first; left = leaves.left } };

    ghost invariant = { λ leaves.
        (leaves.first + leaves.left ≤ leaf_count leaves.key) × (leaves.first + leaves.left < 2 ^ 64) };
}

impl Leaves {
    /// So many leaf numbers of the key, from one on.
    pub(crate) fn of(key: Key, first: u64, left: u64) -> Leaves
        requires within { first + left ≤ leaf_count key }
        requires room { first + left < 2 ^ 64 }
        ensures { result ≡ record { key = key; first = first; left = left } }
    {
        Leaves { key, first, left }
    }

    /// The next one.
    pub fn first(&self) -> u64
        ensures { result ≡ self.now.first }
    {
        self.first
    }

    /// How many are left.
    pub fn left(&self) -> u64
        ensures { result ≡ self.now.left }
    {
        self.left
    }

    /// The identifier I of their key's top tree.
    pub fn id(&self) -> [u8; 16]
        ensures { result ≡ self.now.key.top.id }
    {
        self.key.id()
    }

    /// Spends the next one.
    pub(crate) fn spend(&mut self) -> u64
        requires { 1 ≤ self.old.left }
        ensures first { result ≡ self.old.first }
        ensures within { result < leaf_count self.old.key }
        ensures spent { self.new ≡ one_spent self.old }
    {
        let first = self.first;
        self.first = first + 1;
        self.left -= 1;
        first
    }

    /// Gives up those that are left: no message will be signed with them.
    pub fn drop_rest(self) {
        let Leaves {
            key: _key,
            first: _,
            left: _,
        } = self;
    }
}
