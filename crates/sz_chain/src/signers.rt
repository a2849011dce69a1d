//! The signers whose digest fits, and the certificates that fit them.

ghost use Rattle.std.specs.Prelude.{◌≡◌, ◌↔◌, map, Some, IsTrue};
ghost use Rattle.std.specs.Option.{option_copied};
ghost use Rattle.sz_chain.specs.Candidates.{AreFitting, FitsOne, VerifiesOne};
ghost use Rattle.sz_chain.specs.Signers.{FitsIdentifier, Verifies};
ghost use Rattle.sz_cms.specs.View.{names_of, signed_of, signer_of};
ghost use Rattle.sz_chain.specs.Sets.{AreAt};
ghost use Rattle.sz_x509.specs.View.{view};

use crate::{Place, PlaceSet, Places, Test, select, select_verifying};
use arrayvec::ArrayVec;
use sz_cms::{Identifier, MOST_SIGNERS, Signed, Signer};
use sz_x509::Cert;

/// The signers whose digest is that of the content.
pub(crate) fn fitting_signers<'a>(
    signed: &Signed<'a>,
    content: &[u8],
) -> ArrayVec<Signer<'a>, MOST_SIGNERS>
    ensures { AreFitting (signed_of signed.entry.now) content.entry.now (map signer_of result.items) }
{
    let mut fitting = ArrayVec::new();
    for signer in signed.signers.as_slice() {
        if signer.digest_fits(signed.kind, content) {
            fitting.push(*signer);
        }
    }
    fitting
}

/// The places whose certificates fit one of the signers.
pub(crate) fn fitting_places(places: &Places<'_>, signers: &[Signer<'_>]) -> PlaceSet
    ensures { AreAt places.now.items (λ _. FitsOne (map signer_of signers.now)) result }
{
    let mut fitting = PlaceSet::empty();
    for signer in signers {
        fitting = fitting.or(select(places, &FitsSigner { signer: *signer }));
    }
    fitting
}

/// The places whose certificates fit one of the signers and verify its signature. A signature is verified once at most
/// under each key.
pub(crate) fn verified_places(
    places: &Places<'_>,
    signers: &[Signer<'_>],
    content: &[u8],
) -> PlaceSet
    ensures { AreAt places.now.items (λ _. VerifiesOne (map signer_of signers.now) content.now) result }
{
    let mut verified = PlaceSet::empty();
    for signer in signers {
        verified = verified.or(verified_by(places, signer, content));
    }
    verified
}

// The places whose certificates fit the signer and verify its signature.
fn verified_by(places: &Places<'_>, signer: &Signer<'_>, content: &[u8]) -> PlaceSet
    ensures { AreAt places.now.items (λ _ place. FitsIdentifier (names_of signer.now.identifier) (view place.cert)
        × Verifies (signer_of signer.now) content.now (view place.cert)) result }
{
    let fitting = select(places, &FitsSigner { signer: *signer });
    select_verifying(places, fitting, &signer.covered(content), signer.signature)
}

// The test for a certificate that fits the signer.
#[derive(Drop)]
struct FitsSigner<'a> {
    signer: Signer<'a>,
}

impl Test for FitsSigner<'_> {
    ghost use Rattle.sz_chain.specs.Signers.{FitsIdentifier};
    ghost use Rattle.sz_cms.specs.View.{names_of};
    ghost use Rattle.sz_x509.specs.View.{view};

    ghost holds = { λ test place. FitsIdentifier (names_of test.signer.identifier) (view place.cert) };

    fn passes(&self, place: &Place<'_>) -> bool {
        fits(&self.signer.identifier, &place.cert)
    }
}

// Whether the certificate is the one that the identifier tells of.
#[tactic(auto, unfolding(sz_x509::specs::View::view))]
fn fits(identifier: &Identifier<'_>, cert: &Cert<'_>) -> bool
    ensures { IsTrue result ↔ FitsIdentifier (names_of identifier.now) (view cert.now) }
{
    match *identifier {
        Identifier::IssuerSerial { issuer, serial } => {
            cert.issuer == issuer && cert.serial == serial
        }
        Identifier::KeyId(octets) => has_key_id(cert.key_id, octets),
    }
}

// Whether the key identifier is there and is this one.
fn has_key_id(key_id: Option<&[u8]>, octets: &[u8]) -> bool
    ensures { IsTrue result ↔ (option_copied key_id.entry ≡ Some octets.now) }
{
    match key_id {
        None => false,
        Some(told) => told == octets,
    }
}
