//! Laws that tie the first failing rule to what the standard calls a signature. Each is a theorem, which the
//! function of its name carries; a call does nothing.

ghost use Rattle.std.specs.Prelude.{◌≡◌, ◌↔◌, ◌+◌, ◌≤◌, ℕ, List, length, take};
ghost use Rattle.sz_lms.specs.Bits.{AreBytes, u32_at};
ghost use Rattle.sz_lms.specs.Ots.{ots_type, ots_key};
ghost use Rattle.sz_lms.specs.Lms.{LmsOk};
ghost use Rattle.sz_lms.specs.Hss.{HssOk, hss_public_length, longest_signature};
ghost use Rattle.sz_lms.specs.Rules.{first_failing, ots_rules, ots_key_at, lms_first, hss_first};
ghost use Rattle.sz_lms.specs.Spelled.{IsOtsSignature};

use crate::hss::{HSS_PUBLIC_LENGTH, LONGEST_SIGNATURE};

/// A one-time signature breaks no rule exactly where it is spelled as one of a known type, which its first
/// four bytes name, and the key that it then leads to is that of the parts that it is spelled of (RFC 8554
/// sections 4.5 and 4.6).
pub fn ots_rules_decide_spelling()
    ensures spelled { (signature : List ℕ) →
        ((first_failing (ots_rules signature) ≡ None) ↔ IsOtsSignature signature) }
    ensures type_named { (signature : List ℕ) (form : IsOtsSignature signature) →
        ots_type (u32_at signature 0) ≡ Some form.type }
    ensures key { (id signature message : List ℕ) (q : ℕ) (form : IsOtsSignature signature) →
        ots_key_at id q form.type signature message ≡ ots_key id q form.type form.randomizer form.values message }
{}

/// An LMS signature breaks no rule exactly where it is one of the message under the public key (RFC 8554
/// section 5.4.2). The signature is of bytes, so that its leaf number has one spelling.
pub fn lms_rules_decide_ok()
    ensures { (public message signature : List ℕ) → AreBytes signature →
        ((lms_first public message signature ≡ None) ↔ LmsOk public message signature) }
{}

/// An HSS signature breaks no rule exactly where it is one of the message under the public key (RFC 8554
/// section 6.3). The signature is of bytes, so that its leaf numbers have one spelling.
pub fn hss_rules_decide_ok()
    ensures { (public message signature : List ℕ) → AreBytes signature →
        ((hss_first public message signature ≡ None) ↔ HssOk public message signature) }
{}

/// No key and no signature of the standard is longer than the longest, and what stands past one byte more than that has
/// no part in the first rule that is broken. So a verdict on fronts that are one byte longer is that on the whole.
pub fn longest_bound_verdicts()
    ensures constants { (HSS_PUBLIC_LENGTH ≡ hss_public_length) × (LONGEST_SIGNATURE ≡ longest_signature) }
    ensures longest { (public message signature : List ℕ) → HssOk public message signature →
        (length public ≡ hss_public_length) × (length signature ≤ longest_signature) }
    ensures public { (public message signature : List ℕ) →
        hss_first (take (hss_public_length + 1) public) message signature ≡ hss_first public message signature }
    ensures signature { (public message signature : List ℕ) →
        hss_first public message (take (longest_signature + 1) signature) ≡ hss_first public message signature }
    ensures ok { (public message signature : List ℕ) →
        HssOk (take (hss_public_length + 1) public) message (take (longest_signature + 1) signature)
        ↔ HssOk public message signature }
{}
