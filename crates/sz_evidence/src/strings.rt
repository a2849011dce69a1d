//! Certificates and revocation lists, put into bags by their slices.

ghost use Rattle.std.specs.Prelude.{◌≡◌, ◌+◌, ◌≤◌, [], ◌∷◌, ◌++◌, length, map};
ghost use Rattle.std.specs.Option.{option_copied};
ghost use Rattle.sz_cms.specs.View.{signed_of};
ghost use Rattle.sz_evidence.specs.Authorised.{asked, certs_where, crls_where};
ghost use Rattle.sz_evidence.specs.View.{owner_of};
ghost use Rattle.sz_chain.specs.Bags.{most_bag_certs};

use sz_base::Bytes;
use sz_chain::{Bag, CrlBag, Slices};
use sz_cms::Signed;

/// The certificates of the conveyed information and of the owner certificate.
pub(crate) fn certs_of<'a>(signed: &Signed<'a>, owner: &Option<Signed<'a>>) -> Bag<'a>
    ensures { result ≡ (signed_of signed.entry.now).certs ++ certs_where (owner_of owner.entry.now) }
{
    let mut bag = Bag::create();
    add_all(&mut bag, signed.certs.as_slice());
    if let Some(owner) = owner {
        add_all(&mut bag, owner.certs.as_slice());
    }
    bag
}

/// The revocation lists of the conveyed information and of the owner certificate.
pub(crate) fn crls_of<'a>(signed: &Signed<'a>, owner: &Option<Signed<'a>>) -> CrlBag<'a>
    ensures { result ≡ (signed_of signed.entry.now).crls ++ crls_where (owner_of owner.entry.now) }
{
    let mut bag = CrlBag::create();
    add_all(&mut bag, signed.crls.as_slice());
    if let Some(owner) = owner {
        add_all(&mut bag, owner.crls.as_slice());
    }
    bag
}

/// A bag of these.
pub(crate) fn all_of<'a>(each: &[&'a [u8]]) -> Bag<'a>
    requires { length each.now ≤ most_bag_certs }
    ensures { result ≡ map (λ one. one.now) each.entry.now }
{
    let mut bag = Bag::create();
    add_all(&mut bag, each);
    bag
}

/// A bag of these.
pub(crate) fn anchors_of<'a>(each: &'a [Bytes]) -> Bag<'a>
    requires { length each.now ≤ most_bag_certs }
    ensures { result ≡ each.entry.now }
{
    let mut bag = Bag::create();
    for one in each {
        bag.add(one.as_slice()).unwrap();
    }
    bag
}

/// A bag of this one.
pub(crate) fn bag_of<'a>(one: &'a [u8]) -> Bag<'a>
    ensures { result ≡ one.entry.now ∷ [] }
{
    let mut bag = Bag::create();
    bag.add(one).unwrap();
    bag
}

/// The revocation lists, where they are asked.
pub(crate) fn if_asked<'b, 'a>(asks: bool, crls: &'b CrlBag<'a>) -> Option<&'b CrlBag<'a>>
    ensures { option_copied result ≡ asked asks crls.entry.now }
{
    if asks { Some(crls) } else { None }
}

// puts these last
fn add_all<'a, const MOST: usize>(bag: &mut Slices<'a, MOST>, each: &[&'a [u8]])
    requires { length bag.old + length each.now ≤ MOST }
    ensures { bag.new ≡ bag.old ++ map (λ one. one.now) each.entry.now }
{
    for one in each {
        bag.add(one).unwrap();
    }
}
