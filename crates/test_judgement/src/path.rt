//! A bag that is full, sets of places, and searches over strings that are no certificates.

use std::test::Fail;
use sz_base::Seconds;
use sz_chain::{
    Bag, BagFull, CrlBag, MOST_CERTS, MOST_PLACES, NoChain, Place, PlaceSet, Places, Test,
    find_chain, places_of, select, select_verifying,
};
use sz_cms::Covered;

#[test]
fn a_full_bag_stays(rt: HostRuntime) {
    let mut bag = Bag::create();
    for _ in 0..MOST_CERTS {
        assert!(rt; bag.add(b"no certificate") == Ok(()));
    }
    assert!(rt; bag.add(b"one too many") == Err(BagFull));
    assert!(rt; bag.as_slice().len() == 32);
}

struct Anchors;

impl Test for Anchors {
    ghost use Rattle.std.specs.Prelude.{IsTrue};

    ghost holds = { λ test place. IsTrue place.is_anchor };

    fn passes(&self, place: &Place<'_>) -> bool {
        place.is_anchor
    }
}

// As many places as there can be, of which these are anchors.
fn places_with(anchors: &[usize]) -> Places<'static> {
    let mut places = Places::from([Place::default(); MOST_PLACES]);
    for (at, place) in places.iter_mut().enumerate() {
        place.is_anchor = anchors.contains(&at);
    }
    places
}

// A chain of one certificate leads up to an anchor where the anchor is in the set.
fn has(set: PlaceSet, place: usize) -> bool {
    find_chain(&places_with(&[place]), set, None, Seconds(0)).is_ok()
}

#[test]
fn sets_of_places(rt: HostRuntime) {
    let set = select(&places_with(&[0, 63]), &Anchors);
    let both = set.or(select(&places_with(&[5]), &Anchors));
    for (place, is_in) in [(0, true), (1, false), (5, true), (62, false), (63, true)] {
        assert!(rt; has(both, place) == is_in);
    }
    assert!(rt; PlaceSet::empty().is_empty());
    assert!(rt; !set.is_empty());
}

#[test]
fn no_certificate_is_at_no_place(rt: HostRuntime) -> Result<(), Fail> {
    let mut bag = Bag::create();
    bag.add(b"no certificate")?;
    let places = places_of(&Bag::create(), &bag);
    assert!(rt; places.is_empty());
    let all = select(&places, &Anchors);
    assert!(rt; all.is_empty());
    let covered = Covered {
        first: None,
        rest: b"message",
    };
    assert!(rt; select_verifying(&places, all, &covered, b"signature").is_empty());
    for crls in [None, Some(&CrlBag::create())] {
        assert!(rt; find_chain(&places, all, crls, Seconds(0)) == Err(NoChain::Path));
    }
    Ok(())
}
