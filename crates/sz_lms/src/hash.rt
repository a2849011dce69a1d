//! The hashes of the standard, each over I, a number, a tag and the rest (RFC 8554 section 7.1).

ghost use Rattle.std.specs.Prelude.{◌≡◌, ◌++◌};
ghost use Rattle.std.specs.Int.{w16, w32, to_be_bytes};
ghost use Rattle.sha2.specs.Hashers.{Holds256};
ghost use Rattle.sz_lms.specs.Ots.{D_PBLC, hashed, message_head};
ghost use Rattle.sz_lms.specs.Lms.{leaf_node, inner_node};

use sha2::{Digest, Sha256};

const PUBLIC_KEY_TAG: u16 = 0x8080;

const MESSAGE_TAG: u16 = 0x8181;

const LEAF_TAG: u16 = 0x8282;

const INNER_TAG: u16 = 0x8383;

// A hasher of I, a number in four bytes and a tag in two, which each hash begins with.
fn tagged_hasher(id: &[u8; 16], number: u32, tag: u16) -> Sha256
    ensures { Holds256 result (id.now ++ to_be_bytes w32 number ++ to_be_bytes w16 tag) }
{
    let mut hasher = Sha256::new();
    hasher.update(id.as_slice());
    hasher.update(number.to_be_bytes());
    hasher.update(tag.to_be_bytes());
    hasher
}

/// The hash of I, a number in four bytes, a tag in two, and the rest.
pub fn hashed(id: &[u8; 16], number: u32, tag: u16, rest: &[u8]) -> [u8; 32]
    ensures { result ≡ hashed id.now number tag rest.now }
{
    let mut hasher = tagged_hasher(id, number, tag);
    hasher.update(rest);
    hasher.finalize()
}

/// A hasher of what is hashed before the ends of the chains of leaf `q` to get its one-time public key (RFC 8554
/// section 4.3). It takes the ends one after another.
pub fn key_hasher(id: &[u8; 16], q: u32) -> Sha256
    ensures { Holds256 result (id.now ++ to_be_bytes w32 q ++ to_be_bytes w16 D_PBLC) }
{
    tagged_hasher(id, q, PUBLIC_KEY_TAG)
}

/// A hasher of what is hashed before the message to get Q (RFC 8554 section 4.5). It takes the message in
/// pieces.
pub(crate) fn message_hasher(id: &[u8; 16], q: u32, randomizer: &[u8]) -> Sha256
    ensures { Holds256 result (message_head id.now q randomizer.now) }
{
    let mut hasher = tagged_hasher(id, q, MESSAGE_TAG);
    hasher.update(randomizer);
    hasher
}

/// The leaf at node number `r`, over a one-time public key (RFC 8554 section 5.3).
pub fn leaf_node(id: &[u8; 16], r: u32, key: &[u8]) -> [u8; 32]
    ensures { result ≡ leaf_node id.now r key.now }
{
    hashed(id, r, LEAF_TAG, key)
}

/// Node number `r`, over its left and its right child (RFC 8554 section 5.3).
pub fn inner_node(id: &[u8; 16], r: u32, left: &[u8], right: &[u8]) -> [u8; 32]
    ensures { result ≡ inner_node id.now r left.now right.now }
{
    let mut hasher = tagged_hasher(id, r, INNER_TAG);
    hasher.update(left);
    hasher.update(right);
    hasher.finalize()
}
