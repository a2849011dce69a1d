//! One level of a signature (RFC 8554 section 5.4.2).

ghost use Rattle.std.specs.Prelude.{◌≡◌, ◌+◌, ◌*◌, ◌^◌, ◌<◌, ◌≤◌, ◌==◌, ℕ, List, [], ◌∷◌, length, drop, take, OnOk, IfOk};
ghost use Rattle.sha2.specs.Hashers.{Holds256};
ghost use Rattle.sz_lms.specs.Bits.{u32_at};
ghost use Rattle.sz_lms.specs.Parts.{IsLevel, front_rules, next_rules, signed_head};
ghost use Rattle.sz_lms.specs.Rules.{Length, first_failing, lms_length, next_bytes, next_key, ots_length, root_of_digest, root_rules, signature_rules, signed_digest};
ghost use Rattle.sz_lms.specs.View.{broken_rule, types_of};

use crate::HssFault;
use crate::bytes::{array_at, u32_at};
use crate::hash::{leaf_node, message_hasher};
use crate::ots::{key_of_digest, message_digest};
use crate::path::climb;
use crate::types::KeyTypes;
use sha2::Sha256;

/// The length of an LMS public key.
pub(crate) const KEY_LENGTH: usize = 56;

// Where the root stands in an LMS public key.
const ROOT_PLACE: usize = 24;

/// One level of a signature: an LMS public key, and bytes that begin with an LMS signature whose lengths,
/// types and leaf number are in order under that key.
#[derive(Clone, Copy)]
pub(crate) struct Level<'a> {
    pub(crate) key: &'a [u8],
    pub(crate) bytes: &'a [u8],
    pub(crate) types: KeyTypes,
    ghost in_order: { IsLevel key.now bytes.now types },
}

// The rules on the LMS signature at the front of the bytes, under a key of these types.
#[tactic(auto, unfolding(crate::specs::Rules::first_failing))]
fn check_front(key: &[u8], types: KeyTypes, bytes: &[u8]) -> Result<(), HssFault>
    requires { length key.now ≡ KEY_LENGTH }
    ensures rules { broken_rule result ≡ first_failing (signature_rules key.now (types_of types) bytes.now) }
    ensures whole { OnOk result (lms_length (types_of types) ≤ length bytes.now) }
    ensures is_leaf { OnOk result (u32_at bytes.now 0 < 2 ^ (types_of types).height) }
{
    if bytes.len() < 8 {
        return Err(HssFault::Length);
    }
    if u32_at(bytes, 4) != u32_at(key, 4) {
        return Err(HssFault::Scheme);
    }
    let tree_type_place = 4 + types.one_time_length();
    if bytes.len() < tree_type_place + 4 {
        return Err(HssFault::Length);
    }
    if u32_at(bytes, tree_type_place) != u32_at(key, 0) {
        return Err(HssFault::Scheme);
    }
    if bytes.len() < types.signature_length() {
        return Err(HssFault::Length);
    }
    if u32_at(bytes, 0) >= types.tree.leaves() {
        return Err(HssFault::LeafNumber);
    }
    Ok(())
}

impl<'a> Level<'a> {
    /// Tests the rules on the LMS signature at the front of the bytes.
    pub(crate) fn read(key: &'a [u8], bytes: &'a [u8]) -> Result<Level<'a>, HssFault>
        requires { length key.now ≡ KEY_LENGTH }
        ensures rules { broken_rule result ≡ first_failing (front_rules key.now bytes.now) }
        ensures key { IfOk result (λ level. level.key.now ≡ key.now) }
        ensures bytes { IfOk result (λ level. level.bytes.now ≡ bytes.now) }
    {
        let Some(types) = KeyTypes::read(key) else {
            return Err(HssFault::Scheme);
        };
        check_front(key, types, bytes)?;
        Ok(Level { key, bytes, types })
    }

    /// The level below, whose key and bytes stand behind this level's signature.
    pub(crate) fn next(&self) -> Result<Level<'a>, HssFault>
        ensures rules { broken_rule result ≡ first_failing (next_rules (types_of self.now.types) self.now.bytes.now) }
        ensures key { IfOk result (λ level. level.key.now ≡ next_key (types_of self.now.types) self.now.bytes.now) }
        ensures bytes { IfOk result (λ level.
            level.bytes.now ≡ next_bytes (types_of self.now.types) self.now.bytes.now) }
    {
        let key_place = self.types.signature_length();
        if self.bytes.len() < key_place + KEY_LENGTH {
            return Err(HssFault::Length);
        }
        let key = &self.bytes[key_place..key_place + KEY_LENGTH];
        Level::read(key, &self.bytes[key_place + KEY_LENGTH..])
    }

    /// Nothing may stand behind the signature.
    pub(crate) fn check_end(&self) -> Result<(), HssFault>
        ensures { broken_rule result
            ≡ first_failing ((length self.now.bytes.now == lms_length (types_of self.now.types), Length) ∷ []) }
    {
        if self.bytes.len() == self.types.signature_length() {
            Ok(())
        } else {
            Err(HssFault::Length)
        }
    }

    /// A hasher of what is hashed before the signed message. It takes the message in pieces.
    pub(crate) fn message_hasher(&self) -> Sha256
        ensures { Holds256 result (signed_head self.now.key.now self.now.bytes.now) }
    {
        message_hasher(&self.id(), self.leaf_number(), self.randomizer())
    }

    /// The one-time signature and the path have to lead from Q to the key's root.
    pub(crate) fn check_digest(&self, digest: &[u8; 32]) -> Result<(), HssFault>
        ensures { (message : List ℕ) → digest.now ≡ signed_digest self.now.key.now self.now.bytes.now message
            → broken_rule result ≡ first_failing (root_rules self.now.key.now message self.now.bytes.now) }
    {
        if self.root(digest).as_slice() == &self.key[ROOT_PLACE..] {
            Ok(())
        } else {
            Err(HssFault::Root)
        }
    }

    /// The signature has to be one of the message.
    pub(crate) fn check_message(&self, message: &[u8]) -> Result<(), HssFault>
        ensures { broken_rule result
            ≡ first_failing (root_rules self.now.key.now message.now self.now.bytes.now) }
    {
        let digest = message_digest(&self.id(), self.leaf_number(), self.randomizer(), message);
        self.check_digest(&digest)
    }

    // The root that the one-time signature and the path lead to from Q.
    fn root(&self, digest: &[u8; 32]) -> [u8; 32]
        ensures { result ≡ root_of_digest self.now.key.now (types_of self.now.types) digest.now self.now.bytes.now }
    {
        let id = self.id();
        let q = self.leaf_number();
        let node = self.types.tree.leaves() + q;
        let key = key_of_digest(self.types.one_time, &id, q, digest, self.values());
        let leaf = leaf_node(&id, node, &key);
        climb(&id, node, leaf, self.types.tree.height(), self.path())
    }

    // I of the key.
    fn id(&self) -> [u8; 16]
        ensures { result ≡ take 16 (drop 8 self.now.key.now) }
    {
        array_at(self.key, 8)
    }

    // q, the number of the leaf.
    fn leaf_number(&self) -> u32
        ensures value { result ≡ u32_at self.now.bytes.now 0 }
        ensures is_leaf { result < 2 ^ (types_of self.now.types).height }
    {
        u32_at(self.bytes, 0)
    }

    // C of the one-time signature.
    fn randomizer(&self) -> &'a [u8]
        ensures { result.now ≡ take 32 (drop 4 (drop 4 self.now.bytes.now)) }
    {
        &self.bytes[8..40]
    }

    // The values of the one-time signature, one a chain.
    fn values(&self) -> &'a [u8]
        ensures { let chains = (types_of self.now.types).ots.chains in
            result.now ≡ take (32 * chains) (drop 36 (drop 4 self.now.bytes.now)) }
    {
        &self.bytes[40..40 + 32 * usize::from(self.types.one_time.chains())]
    }

    // The siblings on the way up, one a level of the tree.
    fn path(&self) -> &'a [u8]
        ensures { let type = types_of self.now.types in
            result.now ≡ take (32 * type.height) (drop (8 + ots_length type.ots) self.now.bytes.now) }
    {
        let place = 8 + self.types.one_time_length();
        &self.bytes[place..place + 32 * self.types.tree.height() as usize]
    }
}
