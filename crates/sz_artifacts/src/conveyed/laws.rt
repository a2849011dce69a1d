//! Laws of conveyed information.

ghost use Rattle.std.specs.Prelude.{◌≡◌, ◌↔◌, List, ℕ, Some, None};
ghost use Rattle.serde_json.specs.Data.{Data};
ghost use Rattle.sz_base.specs.Encoding.{IsColonHex};
ghost use Rattle.sz_base.specs.Host.{in_brackets, IsHost, IsIpv6Text};
ghost use Rattle.sz_artifacts.specs.Address.{host_of, IsAddress};
ghost use Rattle.sz_artifacts.specs.Conveyed.{conveyed_fault, IsConveyed};
ghost use Rattle.sz_artifacts.specs.Hash.{hash_of_text};
ghost use Rattle.sz_artifacts.specs.declared.conveyed.Conveyed.{Conveyed};

/// An address names a host: each host names itself, an IPv6 text names the host of its brackets, and no text
/// names another.
pub fn addresses_are_hosts()
    ensures host { (text : List ℕ) → IsHost text → host_of text ≡ Some text }
    ensures ipv6 { (text : List ℕ) → IsIpv6Text text → host_of text ≡ Some (in_brackets text) }
    ensures no_other { (text host : List ℕ) → host_of text ≡ Some host → IsAddress text host }
{}

/// The text of a hash is that of 32 pairs, and of no other bytes than theirs.
pub fn hashes_are_pairs()
    ensures { (text bytes : List ℕ) → (hash_of_text text ≡ Some bytes) ↔ IsColonHex text bytes }
{}

/// A value is read as conveyed information exactly where none of its members is at fault, and then as one alone.
pub fn faultless_values_are_information()
    ensures exactly { (value : Data) → (conveyed_fault value ≡ None)
        ↔ ((conveyed : Conveyed) × IsConveyed value conveyed) }
    ensures one_reading { (value : Data) (conveyed other : Conveyed) → IsConveyed value conveyed
        → IsConveyed value other → conveyed ≡ other }
{}
