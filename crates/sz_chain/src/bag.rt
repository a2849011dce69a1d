//! Bags of certificates and of revocation lists, each as its bytes.

ghost use Rattle.std.specs.Prelude.{◌≡◌, ◌<◌, ◌≤◌, [], ◌∷◌, ◌++◌, List, ℕ, length, map, OnOk, OnErr};
ghost use Rattle.sz_chain.specs.Bags.{most_bag_certs, most_bag_crls};

use arrayvec::ArrayVec;
use std::marker::Model;

/// The most certificates of a bag.
pub const MOST_CERTS: usize = 32;
/// The most revocation lists of a bag.
pub const MOST_CRLS: usize = 16;

/// At most `MOST` strings of bytes. Contracts see it as the list of them.
#[derive(Debug, Drop)]
pub struct Slices<'a, const MOST: usize> {
    each: ArrayVec<&'a [u8], MOST>,
}

/// Certificates, each as its bytes.
pub type Bag<'a> = Slices<'a, MOST_CERTS>;

/// Revocation lists, each as its bytes.
pub type CrlBag<'a> = Slices<'a, MOST_CRLS>;

/// The bag holds as many as it can.
#[derive(Clone, Copy, Debug, PartialEq, Eq)]
pub struct BagFull;

impl<'a, const MOST: usize> Model for Slices<'a, MOST> {
    ghost Value = { List (List ℕ) };

    ghost view = { λ bag. map (λ one. one.now) bag.each.items };
}

impl<'a, const MOST: usize> Slices<'a, MOST> {
    /// A bag of none.
    pub fn create() -> Self
        ensures { result ≡ [] }
    {
        Slices {
            each: ArrayVec::new(),
        }
    }

    /// Puts one last. It is refused exactly where the bag is full, which leaves the bag as it was.
    pub fn add(&mut self, bytes: &'a [u8]) -> Result<(), BagFull>
        ensures room { OnOk result (length self.old < MOST) }
        ensures ok { OnOk result (self.new ≡ self.old ++ bytes.entry.now ∷ []) }
        ensures full { OnErr result (length self.old ≡ MOST) }
        ensures unchanged { OnErr result (self.new ≡ self.old) }
    {
        match self.each.try_push(bytes) {
            Ok(()) => Ok(()),
            Err(_) => Err(BagFull),
        }
    }

    /// Each, in the order in which they were put in.
    pub fn as_slice(&self) -> &[&'a [u8]]
        ensures each { map (λ one. one.now) result.now ≡ self.now }
        ensures few { length result.now ≤ MOST }
    {
        self.each.as_slice()
    }
}

/// A bag has room for 32 certificates, and one of revocation lists for 16. This is a law: a call does nothing.
pub fn bags_have_room()
    ensures certs { MOST_CERTS ≡ most_bag_certs }
    ensures crls { MOST_CRLS ≡ most_bag_crls }
{}
