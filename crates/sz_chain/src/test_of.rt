//! The places whose certificates pass a test.

ghost use Rattle.std.specs.Prelude.{◌≡◌, ◌↔◌, ◌≤◌, length, true, IsTrue};
ghost use Rattle.sz_chain.specs.Sets.{AreAt, has};
ghost use Rattle.sz_chain.specs.declared.place.Place.{Place};

use crate::{Place, PlaceSet, Places};

/// A test of a place.
pub trait Test {
    ghost holds: { Self → Place → Type 0 };

    /// Whether the place passes it.
    fn passes(&self, place: &Place<'_>) -> bool
        ensures { IsTrue result ↔ holds self.now place.now };
}

/// The places that pass the test.
pub fn select<T: Test>(places: &Places<'_>, test: &T) -> PlaceSet
    ensures { AreAt places.now.items (λ _ place. T.holds test.now place) result }
{
    places_where(places.as_slice(), test)
}

/// Of these places, those of the set that pass the test.
pub(crate) fn places_within<T: Test>(places: &[Place<'_>], wanted: PlaceSet, test: &T) -> PlaceSet
    requires { length places.now ≤ 64 }
    ensures { AreAt places.now (λ at place. T.holds test.now place × (has wanted at ≡ true)) result }
{
    let mut passed = PlaceSet::empty();
    for (at, place) in places.iter().enumerate() {
        if wanted.has(at) && test.passes(place) {
            passed = passed.with(at);
        }
    }
    passed
}

/// Of these places, those that pass the test.
pub(crate) fn places_where<T: Test>(places: &[Place<'_>], test: &T) -> PlaceSet
    requires { length places.now ≤ 64 }
    ensures { AreAt places.now (λ _ place. T.holds test.now place) result }
{
    let mut passed = PlaceSet::empty();
    for (at, place) in places.iter().enumerate() {
        if test.passes(place) {
            passed = passed.with(at);
        }
    }
    passed
}
