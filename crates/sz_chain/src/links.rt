//! Which of the certificates at places issued which, from the anchors down.

ghost use Rattle.std.specs.Prelude.{◌≡◌, ◌↔◌, ◌≤◌, length, true, false, IsTrue};
ghost use Rattle.sz_chain.specs.Links.{AreEmpty, AreInOne, AreLinks, AreMore, HasPlace, IsLink, NamesIssuer};
ghost use Rattle.sz_chain.specs.Sets.{AreAt, has};

use crate::search::MOST_CHAINED;
use crate::test_of::{places_where, places_within};
use crate::usage::{is_authority, is_valid_at};
use crate::verify::verifying;
use crate::{MOST_PLACES, Place, PlaceSet, Test};
use arrayvec::ArrayVec;
use sz_base::Seconds;
use sz_cms::Covered;

/// The places of the issuers of each certificate, place by place.
pub(crate) type Links = ArrayVec<PlaceSet, MOST_PLACES>;

/// The certificates that issued each of these and from which links lead up to an anchor, path lengths and revocation
/// lists aside. Each round looks for what those issued that the round before reached, the first for what the anchors
/// did: so a signature is verified only under keys of certificates to which an anchor leads down, which have the
/// issuer's name and may issue at the time, once under each key in a round. A certificate that is not valid at the time
/// is not looked at.
pub(crate) fn links_of(places: &[Place<'_>], when: Seconds) -> Links
    requires { length places.now ≤ 64 }
    ensures { AreLinks when.0 places.now result.items }
{
    let mut links = no_links(places.len());
    let mut reached = places_where(places, &IsAnchor {});
    let mut fresh = reached;
    for _round in 0..MOST_CHAINED {
        links = more_links(places, links.as_slice(), fresh, when);
        fresh = linked_beyond(links.as_slice(), reached);
        reached = reached.or(fresh);
    }
    links
}

// The test for an anchor.
#[derive(Drop)]
struct IsAnchor {}

impl Test for IsAnchor {
    ghost use Rattle.std.specs.Prelude.{◌≡◌, true};

    ghost holds = { λ test place. place.is_anchor ≡ true };

    fn passes(&self, place: &Place<'_>) -> bool {
        place.is_anchor
    }
}

// So many empty sets.
fn no_links(count: usize) -> Links
    requires { count ≤ 64 }
    ensures { AreEmpty count result.items }
{
    let mut links = ArrayVec::new();
    for _place in 0..count {
        links.push(PlaceSet::empty());
    }
    links
}

// The sets with those issuers too that are in this one.
fn more_links(places: &[Place<'_>], links: &[PlaceSet], fresh: PlaceSet, when: Seconds) -> Links
    requires few { length places.now ≤ 64 }
    requires as_many { length links.now ≡ length places.now }
    ensures { AreMore when.0 places.now fresh links.now result.items }
{
    let mut more = ArrayVec::new();
    for (at, place) in places.iter().enumerate() {
        more.push(links[at].or(issuers_of(places, place, fresh, when)));
    }
    more
}

// Those of these places that issued the certificate, if it is valid at the time.
fn issuers_of(places: &[Place<'_>], cert: &Place<'_>, fresh: PlaceSet, when: Seconds) -> PlaceSet
    requires { length places.now ≤ 64 }
    ensures { AreAt places.now (λ above issuer. IsLink when.0 cert.now issuer × (has fresh above ≡ true)) result }
{
    if cert.is_anchor || !is_valid_at(&cert.cert, when) {
        return PlaceSet::empty();
    }
    let named = places_within(places, fresh, &NamedBy { cert: *cert, when });
    let covered = Covered {
        first: None,
        rest: cert.cert.tbs,
    };
    verifying(places, named, &covered, cert.cert.signature)
}

// The test for the issuer that the certificate names.
#[derive(Drop)]
struct NamedBy<'a> {
    cert: Place<'a>,
    when: Seconds,
}

impl Test for NamedBy<'_> {
    ghost use Rattle.sz_chain.specs.Links.{NamesIssuer};

    ghost holds = { λ test issuer. NamesIssuer test.when.0 test.cert issuer };

    fn passes(&self, issuer: &Place<'_>) -> bool {
        names_issuer(&self.cert, issuer, self.when)
    }
}

/// The places that are in one of the sets.
pub(crate) fn in_one(links: &[PlaceSet]) -> PlaceSet
    requires { length links.now ≤ 64 }
    ensures { AreInOne links.now result }
{
    let mut all = PlaceSet::empty();
    for issuers in links {
        all = all.or(*issuers);
    }
    all
}

// The places with an issuer that are not in the set.
fn linked_beyond(links: &[PlaceSet], reached: PlaceSet) -> PlaceSet
    requires { length links.now ≤ 64 }
    ensures { AreAt links.now (λ at issuers. HasPlace issuers × (has reached at ≡ false)) result }
{
    let mut linked = PlaceSet::empty();
    for (at, issuers) in links.iter().enumerate() {
        if !issuers.is_empty() && !reached.has(at) {
            linked = linked.with(at);
        }
    }
    linked
}

// Whether the certificate names this issuer, which is an anchor or may issue certificates at the time.
#[tactic(auto, unfolding(sz_x509::specs::View::view))]
fn names_issuer(cert: &Place<'_>, issuer: &Place<'_>, when: Seconds) -> bool
    ensures { IsTrue result ↔ NamesIssuer when.0 cert.now issuer.now }
{
    cert.cert.issuer == issuer.cert.subject
        && (issuer.is_anchor || is_authority(&issuer.cert, when))
}
