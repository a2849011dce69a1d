//! What is left of a list behind the elements that were taken off its front.
ghost use Rattle.std.specs.Prelude.{◌≡◌, ◌↔◌, ◌-◌, ◌≤◌, [], min, length, take, drop, IsTrue};

use std::marker::Model;
use sz_base::Items;

/// A list off whose front elements are taken. Contracts see it as the elements that are left.
#[derive(Debug, Drop)]
pub(crate) struct Rest<T> {
    items: Vec<T>,
    taken: usize,
}

impl<T> Model for Rest<T> {
    ghost use Rattle.std.specs.Prelude.{◌≤◌, List, length, drop};

    ghost Value = { List T };

    ghost view = { λ rest. drop rest.taken rest.items.items };

    ghost invariant = { λ rest. rest.taken ≤ length rest.items.items };
}

impl<T> Rest<T> {
    /// All of the list is left. Takes no memory.
    pub(crate) fn of(items: Items<T>) -> Self
        ensures { result ≡ items }
    {
        Rest {
            items: items.into_vec(),
            taken: 0,
        }
    }

    /// What is left.
    pub(crate) fn as_slice(&self) -> &[T]
        ensures { result.now ≡ self.now }
    {
        &self.items.as_slice()[self.taken..]
    }

    /// Takes so many elements off the front.
    pub(crate) fn skip(&mut self, count: usize)
        requires { count ≤ length self.old }
        ensures { self.new ≡ drop count self.old }
    {
        self.taken += count;
    }
}

/// Nothing is left behind so many elements.
pub(crate) fn is_over<T>(items: &[T], taken: usize) -> bool
    requires { taken ≤ length items.now }
    ensures { IsTrue result ↔ (drop taken items.now ≡ []) }
{
    taken == items.len()
}

/// Copies the bytes from this place on into the front of `into`, as many as there are and it takes.
pub(crate) fn copy_from(bytes: &[u8], at: u64, into: &mut [u8]) -> usize
    ensures count { result ≡ min (length into.old) (length bytes.now - at) }
    ensures copied { take result into.new ≡ take result (drop at bytes.now) }
{
    let Some(rest) = bytes.get(at as usize..) else {
        return 0;
    };
    let count = rest.len().min(into.len());
    into[..count].copy_from_slice(&rest[..count]);
    count
}
