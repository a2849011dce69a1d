//! The certificates that read, each at a place.

ghost use Rattle.std.specs.Prelude.{◌≡◌, ◌≤◌, ◌+◌, ◌++◌, List, length};
ghost use Rattle.arrayvec.specs.ArrayVec.{array_vec_len};
ghost use Rattle.sz_chain.specs.Places.{AreOf, ArePlaces};
ghost use Rattle.sz_chain.specs.declared.place.Place.{Place};

use crate::Bag;
use arrayvec::ArrayVec;
use sz_base::Seconds;
use sz_x509::Cert;

/// The most places: those of a bag and of the anchors.
pub const MOST_PLACES: usize = 64;

/// A certificate, and whether it is a trust anchor.
#[derive(Clone, Copy, Debug)]
pub struct Place<'a> {
    /// The certificate.
    pub cert: Cert<'a>,
    /// It is a trust anchor.
    pub is_anchor: bool,
}

/// The certificates that read, each at a place.
pub type Places<'a> = ArrayVec<Place<'a>, MOST_PLACES>;

impl Default for Place<'_> {
    fn default() -> Self {
        let cert = Cert {
            whole: &[],
            tbs: &[],
            serial: &[],
            issuer: &[],
            not_before: Seconds(0),
            not_after: Seconds(0),
            subject: &[],
            key: &[],
            ca: false,
            path_len: None,
            usage: None,
            key_id: None,
            signature: &[],
        };
        Place {
            cert,
            is_anchor: false,
        }
    }
}

/// The certificates of the anchors and of the bag that read, each read once.
pub fn places_of<'a>(anchors: &Bag<'a>, bag: &Bag<'a>) -> Places<'a>
    ensures { ArePlaces anchors.now bag.now result.items }
{
    let mut places = ArrayVec::new();
    add_readable(&mut places, anchors, true);
    add_readable(&mut places, bag, false);
    places
}

// Puts the certificates that read last.
fn add_readable<'a>(places: &mut Places<'a>, certs: &Bag<'a>, is_anchor: bool)
    requires { array_vec_len places.old ≤ 32 }
    ensures { (added : List Place) × (places.new.items ≡ places.old.items ++ added)
        × AreOf is_anchor certs.now added × (length added ≤ 32) }
{
    for bytes in certs.as_slice() {
        if let Ok(cert) = Cert::read(*bytes) {
            places.push(Place { cert, is_anchor });
        }
    }
}
