//! What a key is made from.

ghost use Rattle.std.specs.Prelude.{◌≡◌};
ghost use Rattle.sz_hss.specs.Key.{IsKey, key_of, levels_of};
ghost use Rattle.sz_hss.specs.Leaf.{leaf_count};
ghost use Rattle.sz_hss.specs.View.{shapes_of};
ghost use Rattle.sz_lms_tree.specs.Tree.{IsAllowed};
ghost use Rattle.sz_lms_tree.specs.View.{tree_secret};

use crate::level::{Level, Levels, leaves_of};
use std::marker::Model;
use sz_lms_tree::Secret;

/// What a key of one to three levels of trees is made from: its levels, SEED and I. Contracts see it as an `HssKey`. It
/// has no `Debug`, so that it is never printed.
#[derive(Drop)]
pub struct Key {
    levels: Levels,
    seed: [u8; 32],
    id: [u8; 16],
}

impl Model for Key {
    ghost use Rattle.sz_hss.specs.Key.{HssKey, IsKey, key_of};

    ghost Value = { HssKey };

    ghost view = { λ key. key_of key.levels key.seed key.id };

    ghost invariant = { λ key. IsKey (key_of key.levels key.seed key.id) };
}

impl Key {
    /// The key of these levels that is made from SEED and I.
    pub fn of(levels: Levels, seed: [u8; 32], id: [u8; 16]) -> Key
        ensures { result ≡ key_of levels seed id }
    {
        Key { levels, seed, id }
    }

    /// The same key once more.
    pub fn copy(&self) -> Key
        ensures { result ≡ self.now }
    {
        Key {
            levels: self.levels.copy(),
            seed: self.seed,
            id: self.id,
        }
    }

    /// The secret of the top tree.
    pub fn top(&self) -> Secret
        ensures secret { tree_secret result ≡ self.now.top }
        ensures allowed { IsAllowed self.now.top }
    {
        let top = self.levels.as_slice()[0];
        Secret {
            seed: self.seed,
            id: self.id,
            height: top.height,
            width: top.width,
        }
    }

    /// The identifier I of the top tree.
    pub fn id(&self) -> [u8; 16]
        ensures { result ≡ self.now.top.id }
    {
        self.id
    }

    /// The levels, from the top.
    pub fn levels(&self) -> &[Level]
        ensures shapes { shapes_of result.now ≡ levels_of self.now }
        ensures is_key { IsKey self.now }
    {
        self.levels.as_slice()
    }

    /// The levels below the top, from the top.
    pub fn below(&self) -> &[Level]
        ensures shapes { shapes_of result.now ≡ self.now.below }
        ensures is_key { IsKey self.now }
    {
        &self.levels.as_slice()[1..]
    }

    /// How many leaf numbers the key has: 2 to the sum of the heights of its levels.
    pub fn leaf_count(&self) -> u64
        ensures count { result ≡ leaf_count self.now }
        ensures is_key { IsKey self.now }
    {
        leaves_of(self.levels())
    }
}
