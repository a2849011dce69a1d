//! What a tree is made from, and all that is made from it below a leaf.

ghost use Rattle.std.specs.Prelude.{◌≡◌, ◌-◌, ◌^◌, IsTrue};
ghost use Rattle.sz_lms.specs.View.{facts_of, tree_height};
ghost use Rattle.sz_lms_tree.specs.Tree.{is_height, is_width, ots_of, ots_code, tree_code, secret_value, randomizer_of, child_of, chain_value};
ghost use Rattle.sz_lms_tree.specs.View.{tree_secret};

use sz_lms::{LmsType, OtsType, hashed, run_chain};

/// What a whole tree is made from. It has no `Debug`, so that it is never printed.
#[derive(Clone, Copy, PartialEq, Eq)]
pub struct Secret {
    /// SEED of RFC 8554 appendix A, 32 random bytes.
    pub seed: [u8; 32],
    /// The tree's identifier I.
    pub id: [u8; 16],
    /// The tree has 2 to the height leaves: 5, 10 or 15.
    pub height: u8,
    /// The bits of a digit, w of RFC 8554 section 4: 1, 2, 4 or 8.
    pub width: u8,
}

// The indices of what is made from a secret beside the chains, whose own numbers stay below 265.
const RANDOMIZER: u16 = 0xFFFD;

const CHILD_SEED: u16 = 0xFFFE;

const CHILD_ID: u16 = 0xFFFF;

impl Secret {
    /// The type of the tree's one-time signatures.
    pub(crate) fn one_time_type(&self) -> OtsType
        requires { IsTrue (is_width self.now.width) }
        ensures { facts_of result ≡ ots_of self.now.width }
    {
        match self.width {
            1 => OtsType::W1,
            2 => OtsType::W2,
            4 => OtsType::W4,
            _ => OtsType::W8,
        }
    }

    /// The code of that type.
    pub(crate) fn one_time_code(&self) -> u32
        requires { IsTrue (is_width self.now.width) }
        ensures { result ≡ ots_code self.now.width }
    {
        self.one_time_type().code()
    }

    /// How many leaves the tree has.
    pub(crate) fn leaf_count(&self) -> u32
        requires { IsTrue (is_height self.now.height) }
        ensures { result ≡ 2 ^ self.now.height }
    {
        1 << self.height
    }

    /// The type of the tree.
    pub(crate) fn tree_type(&self) -> LmsType
        requires { IsTrue (is_height self.now.height) }
        ensures { tree_height result ≡ self.now.height }
    {
        match self.height {
            5 => LmsType::H5,
            10 => LmsType::H10,
            _ => LmsType::H15,
        }
    }

    /// The code of that type.
    pub(crate) fn tree_code(&self) -> u32
        requires { IsTrue (is_height self.now.height) }
        ensures { result ≡ tree_code self.now.height }
    {
        self.tree_type().code()
    }
}

// What the secret gives for leaf `q` at an index.
fn secret_value(secret: &Secret, q: u32, index: u16) -> [u8; 32]
    ensures { result ≡ secret_value (tree_secret secret.now) q index }
{
    let mut rest = [0xff; 33];
    rest[1..].copy_from_slice(&secret.seed);
    hashed(&secret.id, q, index, &rest)
}

/// The randomizer C of what leaf `q` signs.
pub(crate) fn randomizer(secret: &Secret, q: u32) -> [u8; 32]
    ensures { result ≡ randomizer_of (tree_secret secret.now) q }
{
    secret_value(secret, q, RANDOMIZER)
}

/// Chain `i` of leaf `q` after so many steps from its start.
#[tactic(auto, unfolding(crate::specs::Tree::chain_value))]
pub(crate) fn chain_value(secret: &Secret, q: u32, i: u16, steps: u8) -> [u8; 32]
    ensures { result ≡ chain_value (tree_secret secret.now) q i steps }
{
    run_chain(&secret.id, q, i, 0, steps, &secret_value(secret, q, i))
}

/// The secret of the tree that hangs below leaf `q`, which counts from 0. The height and the width are taken as
/// they are: a tree is made of the answer only where they are among those of `Secret`. Takes no memory.
pub fn child(secret: &Secret, q: u32, height: u8, width: u8) -> Secret
    ensures { tree_secret result ≡ child_of (tree_secret secret.now) q height width }
{
    let mut id = [0; 16];
    id.copy_from_slice(&secret_value(secret, q, CHILD_ID)[..16]);
    Secret {
        seed: secret_value(secret, q, CHILD_SEED),
        id,
        height,
        width,
    }
}
