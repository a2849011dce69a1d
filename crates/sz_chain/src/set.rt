//! Sets of places.

ghost use Rattle.std.specs.Prelude.{◌≡◌, ◌<◌, ◌==◌, ◌||◌, ℕ, true, false, MatchBool};
ghost use Rattle.sz_chain.specs.Sets.{has};

/// A set of places below 64.
#[derive(Clone, Copy, Debug, Default)]
pub struct PlaceSet {
    /// Bit k is set where place k is in the set.
    pub bits: u64,
}

impl PlaceSet {
    /// The empty set.
    pub fn empty() -> Self
        ensures { (place : ℕ) → has result place ≡ false }
    {
        PlaceSet { bits: 0 }
    }

    /// Whether the place is in the set.
    pub(crate) fn has(self, place: usize) -> bool
        requires { place < 64 }
        ensures { result ≡ has self place }
    {
        (self.bits >> place) & 1 == 1
    }

    /// The set with this place too.
    pub(crate) fn with(self, place: usize) -> Self
        requires { place < 64 }
        ensures { (other : ℕ) → has result other ≡ (other == place || has self other) }
    {
        PlaceSet {
            bits: self.bits | (1 << place),
        }
    }

    /// The places of both sets.
    pub fn or(self, others: PlaceSet) -> Self
        ensures { (place : ℕ) → has result place ≡ (has self place || has others place) }
    {
        PlaceSet {
            bits: self.bits | others.bits,
        }
    }

    /// Whether no place is in the set.
    pub fn is_empty(self) -> bool
        ensures { MatchBool result ((place : ℕ) → has self place ≡ false) ((place : ℕ) × (has self place ≡ true)) }
    {
        self.bits == 0
    }
}
