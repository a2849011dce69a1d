//! Laws of keys. Each is a theorem, which the function of its name carries; a call does nothing.

ghost use Rattle.std.specs.Prelude.{◌≡◌, ◌<◌, ℕ, List, Contains, None, Result};
ghost use Rattle.sz_base.specs.Reading.{GivesUnlessMemory, ReadsValue};
ghost use Rattle.sz_base.specs.declared.fault.BaseFault.{BaseFault};
ghost use Rattle.sz_hss.specs.Key.{AreLevels, HssKey, IsKey, Shape};
ghost use Rattle.sz_hss.specs.LevelsText.{IsLevelsText, levels_text};
ghost use Rattle.sz_hss.specs.Signature.{hss_public_of, hss_signature_of};
ghost use Rattle.sz_hss.specs.Stored.{StoredKey, IsStoredKey};
ghost use Rattle.sz_hss.specs.StoredFault.{first_wrong, stored_tests};
ghost use Rattle.sz_hss.specs.Used.{AreSound, AreWithin, IsSameLeaf, Release, Use, tree_count, used};
ghost use Rattle.sz_lms.specs.Hss.{HssOk};

/// What a key signs with any leaf number verifies under its public key (RFC 8554 section 6.3).
pub fn signatures_verify()
    ensures { (key : HssKey) (n : ℕ) (message : List ℕ) → IsKey key
        → HssOk (hss_public_of key) message (hss_signature_of key n message) }
{}

/// Where no leaf number signs twice, no leaf of any tree on any level signs two byte strings: an upper leaf signs the
/// public key of its one child again and again, which is one. Where the key has all of the leaf numbers, each tree is
/// one of those that it has on its level, and the top one is one.
pub fn leaves_sign_once()
    ensures trees { (key : HssKey) (releases : List Release) (u : Use) → AreWithin key releases
        → Contains (used key releases) u → u.tree < tree_count key u.level }
    ensures once { (key : HssKey) (releases : List Release) (u other : Use) → AreSound releases
        → Contains (used key releases) u → Contains (used key releases) other → IsSameLeaf u other
        → u.signed ≡ other.signed }
{}

/// The stored form of a key has no wrong byte, so that a reader refuses exactly what is no stored key.
pub fn stored_keys_have_no_wrong_byte()
    ensures { (stored : StoredKey) (bytes : List ℕ) → IsStoredKey stored bytes
        → first_wrong (stored_tests bytes) ≡ None }
{}

/// Levels that a key may have are read from their text, and a text has one reading.
pub fn levels_read_back()
    ensures again { (shapes : List Shape) (answer : Result (List Shape) BaseFault) → AreLevels shapes
        → ReadsValue (IsLevelsText (levels_text shapes)) answer → GivesUnlessMemory answer shapes }
    ensures one_reading { (text : List ℕ) (a b : List Shape) → IsLevelsText text a → IsLevelsText text b → a ≡ b }
{}
