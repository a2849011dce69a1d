//! Signatures under the keys of places.

ghost use Rattle.std.specs.Prelude.{◌≡◌, ◌↔◌, ◌<◌, ◌≤◌, ◌++◌, ℕ, true, List, length, IsTrue, IfSome};
ghost use Rattle.sz_cms.specs.View.{covered_bytes};
ghost use Rattle.sz_lms.specs.Check.{Checks};
ghost use Rattle.sz_lms.specs.Hss.{HssOk};
ghost use Rattle.sz_chain.specs.Sets.{AreAt, AreFirst, At, has};
ghost use Rattle.sz_chain.specs.declared.place.Place.{Place};

use crate::{Place, PlaceSet, Places};
use sz_cms::Covered;
use sz_lms::HssCheck;

/// Of the places that are wanted, those under whose keys the signature is one of what it covers (RFC 8554 section 6.3).
/// Each key is tried once at most.
pub fn select_verifying(
    places: &Places<'_>,
    wanted: PlaceSet,
    covered: &Covered<'_>,
    signature: &[u8],
) -> PlaceSet
    ensures { AreAt places.now.items (λ at place. (has wanted at ≡ true)
        × HssOk place.cert.key.now (covered_bytes covered.now) signature.now) result }
{
    verifying(places.as_slice(), wanted, covered, signature)
}

/// Of the wanted ones of these places, those under whose keys the signature is one of what it covers. Each key is tried
/// once at most.
pub(crate) fn verifying(
    places: &[Place<'_>],
    wanted: PlaceSet,
    covered: &Covered<'_>,
    signature: &[u8],
) -> PlaceSet
    requires { length places.now ≤ 64 }
    ensures { AreAt places.now (λ at place. (has wanted at ≡ true)
        × HssOk place.cert.key.now (covered_bytes covered.now) signature.now) result }
{
    let mut verified = PlaceSet::empty();
    for at in 0..places.len() {
        if wanted.has(at) {
            let valid = verifies_once(places, wanted, verified, at, covered, signature);
            if valid {
                verified = verified.with(at);
            }
        }
    }
    verified
}

// Whether the signature is one of what it covers, under the key of this place. Of the places before it, the set tells
// which are wanted and verify.
fn verifies_once(
    places: &[Place<'_>],
    wanted: PlaceSet,
    verified: PlaceSet,
    at: usize,
    covered: &Covered<'_>,
    signature: &[u8],
) -> bool
    requires few { length places.now ≤ 64 }
    requires within { at < length places.now }
    requires told { AreFirst at places.now (λ at place. (has wanted at ≡ true)
        × HssOk place.cert.key.now (covered_bytes covered.now) signature.now) verified }
    ensures { (place : Place) → At places.now at place
        → (IsTrue result ↔ HssOk place.cert.key.now (covered_bytes covered.now) signature.now) }
{
    let key = places[at].cert.key;
    match earlier(places, wanted, at, key) {
        Some(other) => verified.has(other),
        None => verifies(key, covered, signature),
    }
}

// An earlier one of these places with the same key.
fn earlier(places: &[Place<'_>], wanted: PlaceSet, at: usize, key: &[u8]) -> Option<usize>
    requires few { length places.now ≤ 64 }
    requires within { at ≤ length places.now }
    ensures { IfSome result (λ other. (other < at) × (has wanted other ≡ true)
        × ((place : Place) × At places.now other place × (place.cert.key.now ≡ key.now))) }
{
    for other in 0..at {
        if wanted.has(other) && places[other].cert.key == key {
            return Some(other);
        }
    }
    None
}

// Whether the signature is one of what it covers, under this key (RFC 8554 section 6.3).
fn verifies(key: &[u8], covered: &Covered<'_>, signature: &[u8]) -> bool
    ensures { IsTrue result ↔ HssOk key.now (covered_bytes covered.now) signature.now }
{
    let Ok(mut check) = HssCheck::begin(key, signature) else {
        return false;
    };
    update_covered(&mut check, covered);
    check.finish().is_ok()
}

// Takes what is covered.
fn update_covered(check: &mut HssCheck<'_>, covered: &Covered<'_>)
    ensures { (public signature message : List ℕ) → Checks check.old public signature message
        → Checks check.new public signature (message ++ covered_bytes covered.now) }
{
    match covered.first {
        None => check.update(covered.rest),
        Some(first) => {
            check.update(&[first]);
            check.update(covered.rest);
        }
    }
}
