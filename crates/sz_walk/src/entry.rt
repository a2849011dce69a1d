//! What is left to visit.

ghost use Rattle.std.specs.Prelude.{◌≡◌};
ghost use Rattle.sz_walk.specs.Visits.{entry_at};

use sz_base::Target;
use sz_source::Item;

/// An item that is left to visit.
#[derive(Debug, Drop)]
pub(crate) struct Entry {
    /// The number of its source, from 0.
    pub(crate) source: u16,
    /// How many redirects led to it.
    pub(crate) depth: u8,
    pub(crate) item: Item,
}

impl Entry {
    /// A server that this source led to.
    pub(crate) fn at(source: u16, depth: u8, target: Target) -> Self
        ensures { result ≡ entry_at source depth target }
    {
        Entry {
            source,
            depth,
            item: Item::At(target),
        }
    }
}
