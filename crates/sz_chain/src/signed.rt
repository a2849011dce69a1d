//! Whether a message is signed under a chain of certificates.

ghost use Rattle.std.specs.Prelude.{◌≡◌, ◌<◌, ℕ, List, length, map, None, Some, IfErr, IfOk, IsErrAnd, IsOkAnd, MatchOption, MatchResult};
ghost use Rattle.std.specs.Option.{option_copied};
ghost use Rattle.sz_chain.specs.Candidates.{AreFitting};
ghost use Rattle.sz_chain.specs.SignedBy.{HasSigner, IsUnsignedFor, SignedBy};
ghost use Rattle.sz_chain.specs.declared.fault.ChainFault.{ChainFault};
ghost use Rattle.sz_chain.specs.declared.fault.ChainFault.TheVariants as refusal;
ghost use Rattle.sz_cms.specs.Message as message;
ghost use Rattle.sz_cms.specs.View.{signed_of, signer_of};
ghost use Rattle.sz_chain.specs.Places.{ArePlaces};

use crate::signers::{fitting_places, fitting_signers, verified_places};
use crate::{Bag, ChainFault, CrlBag, NoChain, Places, Why, find_chain, places_of};
use sz_base::Seconds;
use sz_cms::{Signed, Signer};

/// The content of a message that one of its signers signed to whom a chain of at most eight certificates of the bag
/// leads down from one of the anchors, at the time, and with these revocation lists where there are any; and else what
/// is missing. A certificate or a list that does not read counts for nothing. Takes no memory.
pub fn signed_by<'a>(
    signed: &Signed<'a>,
    bag: &Bag<'a>,
    anchors: &Bag<'a>,
    crls: Option<&CrlBag<'a>>,
    when: Seconds,
) -> Result<&'a [u8], ChainFault>
    ensures ok { IfOk result (λ content. SignedBy (signed_of signed.entry.now) bag.entry.now anchors.entry.now
        (option_copied crls.entry) when.0 content.now) }
    ensures only { (content : List ℕ) → SignedBy (signed_of signed.entry.now) bag.entry.now anchors.entry.now
        (option_copied crls.entry) when.0 content → IsOkAnd result (λ found. found.now ≡ content) }
    ensures fault { IfErr result (λ fault. IsUnsignedFor (signed_of signed.entry.now) bag.entry.now anchors.entry.now
        (option_copied crls.entry) when.0 fault) }
    ensures only_fault { (fault : ChainFault)
        → IsUnsignedFor (signed_of signed.entry.now) bag.entry.now anchors.entry.now
        (option_copied crls.entry) when.0 fault → IsErrAnd result (λ found. found ≡ fault) }
{
    let Some(content) = content_of(signed) else {
        return Err(ChainFault::NoSigner);
    };
    let signers = fitting_signers(signed, content);
    if signers.is_empty() {
        return Err(ChainFault::BadDigest);
    }
    let places = places_of(anchors, bag);
    match check_chain(signers.as_slice(), content, &places, crls, when) {
        Ok(()) => Ok(content),
        Err(why) => Err(ChainFault::NoChain { why }),
    }
}

// The content, where there is a signer too.
fn content_of<'a>(signed: &Signed<'a>) -> Option<&'a [u8]>
    ensures { MatchOption result (HasSigner (signed_of signed.entry.now) → ⊥)
        (λ content. HasSigner (signed_of signed.entry.now)
        × ((signed_of signed.entry.now).content ≡ Some content.now)) }
{
    if signed.signers.is_empty() {
        return None;
    }
    signed.content
}

// Whether a chain leads to one of the signers, whose digests fit.
fn check_chain(
    signers: &[Signer<'_>],
    content: &[u8],
    places: &Places<'_>,
    crls: Option<&CrlBag<'_>>,
    when: Seconds,
) -> Result<(), Why>
    requires { 0 < length signers.now }
    ensures { (signed : message.Signed) (bag anchors : List (List ℕ))
        → signed.content ≡ Some content.now
        → AreFitting signed content.now (map signer_of signers.now)
        → ArePlaces anchors bag places.now.items
        → MatchResult result
        (λ _. SignedBy signed bag anchors (option_copied crls.entry) when.0 content.now)
        (λ why. IsUnsignedFor signed bag anchors (option_copied crls.entry) when.0 (refusal.NoChain why)) }
{
    if fitting_places(places, signers).is_empty() {
        return Err(Why::NoCandidate);
    }
    let verified = verified_places(places, signers, content);
    if verified.is_empty() {
        return Err(Why::Signature);
    }
    match find_chain(places, verified, crls, when) {
        Ok(()) => Ok(()),
        Err(NoChain::Path) => Err(Why::Path),
        Err(NoChain::Revoked) => Err(Why::Revoked),
    }
}
