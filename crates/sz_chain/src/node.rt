//! The nodes of a search: what it has to know of each certificate.

ghost use Rattle.std.specs.Prelude.{◌≡◌, ◌↔◌, ◌≤◌, ◌<◌, ℕ, ℤ, true, List, length, if◌then◌else◌, Option, None, Some, IsTrue};
ghost use Rattle.sz_chain.specs.Chain.{counts, MaySign};
ghost use Rattle.sz_chain.specs.Links.{AreInOne, AreLinks};
ghost use Rattle.sz_chain.specs.Lists.{AreLists, AreRead, ClearAt};
ghost use Rattle.sz_chain.specs.Sets.{has};
ghost use Rattle.sz_chain.specs.Ways.{AreNodes, AreSteps};
ghost use Rattle.sz_chain.specs.declared.set.PlaceSet.{PlaceSet};
ghost use Rattle.sz_x509.specs.View.{view};

use crate::links::Links;
use crate::lists::{CurrentList, clears};
use crate::usage::may_sign;
use crate::{MOST_PLACES, Place, PlaceSet};
use arrayvec::ArrayVec;
use sz_base::Seconds;

/// What the search has to know of a certificate.
#[derive(Clone, Copy, Debug, Default)]
pub(crate) struct Node {
    /// The places that issued it.
    pub(crate) issuers: PlaceSet,
    /// Its path length.
    pub(crate) limit: Option<u32>,
    /// It counts against the path lengths above it.
    pub(crate) is_counted: bool,
    /// It is a trust anchor.
    pub(crate) is_anchor: bool,
    /// A chain may begin at it.
    pub(crate) is_start: bool,
}

/// The nodes, place by place.
pub(crate) type Nodes = ArrayVec<Node, MOST_PLACES>;

/// The nodes of the certificates, over these issuers of each.
pub(crate) fn nodes_of(
    places: &[Place<'_>],
    steps: &[PlaceSet],
    signers: PlaceSet,
    when: Seconds,
) -> Nodes
    requires few { length places.now ≤ 64 }
    requires as_many { length steps.now ≡ length places.now }
    ensures { (crls : Option (List (List ℕ))) → AreSteps crls when.0 places.now steps.now
        → AreNodes crls when.0 signers places.now result.items }
{
    let mut nodes = ArrayVec::new();
    for (at, place) in places.iter().enumerate() {
        nodes.push(node_of(place, steps[at], signers.has(at), when));
    }
    nodes
}

// The node of a certificate, over these issuers.
#[tactic(auto, unfolding(sz_x509::specs::View::view))]
fn node_of(place: &Place<'_>, issuers: PlaceSet, is_signer: bool, when: Seconds) -> Node
    ensures issuers { result.issuers ≡ issuers }
    ensures limit { result.limit
        ≡ (if place.now.is_anchor then None else (view place.now.cert).restrictions.path_len) }
    ensures counted { result.is_counted ≡ counts (view place.now.cert) }
    ensures is_anchor { result.is_anchor ≡ place.now.is_anchor }
    ensures starts { IsTrue result.is_start ↔ (IsTrue is_signer × MaySign when.0 (view place.now.cert)) }
{
    Node {
        issuers,
        limit: limit_of(place),
        is_counted: place.cert.subject != place.cert.issuer,
        is_anchor: place.is_anchor,
        is_start: is_signer && may_sign(&place.cert, when),
    }
}

// The path length of a certificate; an anchor has none.
#[tactic(auto, unfolding(sz_x509::specs::View::view))]
fn limit_of(place: &Place<'_>) -> Option<u32>
    ensures { result ≡ (if place.now.is_anchor then None else (view place.now.cert).restrictions.path_len) }
{
    if place.is_anchor {
        None
    } else {
        place.cert.path_len
    }
}

/// The issuers of each certificate that clear it.
pub(crate) fn cleared_links(
    places: &[Place<'_>],
    links: &[PlaceSet],
    lists: &[CurrentList<'_>],
) -> Links
    requires few { length places.now ≤ 64 }
    requires as_many { length links.now ≡ length places.now }
    requires read { AreRead lists.now }
    ensures { (when : ℤ) (crls : List (List ℕ)) (wanted : PlaceSet) → AreLinks when places.now links.now
        → AreInOne links.now wanted → AreLists when crls places.now wanted lists.now
        → AreSteps (Some crls) when places.now result.items }
{
    let mut cleared = ArrayVec::new();
    for (at, place) in places.iter().enumerate() {
        cleared.push(clearing(places.len(), links[at], lists, place.cert.serial));
    }
    cleared
}

// Those of the issuers that clear the serial number.
fn clearing(count: usize, issuers: PlaceSet, lists: &[CurrentList<'_>], serial: &[u8]) -> PlaceSet
    requires few { count ≤ 64 }
    requires read { AreRead lists.now }
    ensures { (place : ℕ) → (has result place ≡ true)
        ↔ ((place < count) × (has issuers place ≡ true) × ClearAt lists.now place serial.now) }
{
    let mut cleared = PlaceSet::empty();
    for place in 0..count {
        if issuers.has(place) && clears(lists, place, serial) {
            cleared = cleared.with(place);
        }
    }
    cleared
}
