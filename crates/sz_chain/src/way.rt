//! Whether a chain exists, and why not.

ghost use Rattle.std.specs.Prelude.{◌≡◌, ◌↔◌, ◌≤◌, ℕ, List, length, IsTrue, IfErr, IsOk, Option};
ghost use Rattle.std.specs.Option.{option_copied};
ghost use Rattle.sz_chain.specs.Links.{AreLinks};
ghost use Rattle.sz_chain.specs.Ways.{AreSteps, IsChained, IsUnchained};

use crate::links::{in_one, links_of};
use crate::lists::current_lists;
use crate::node::{cleared_links, nodes_of};
use crate::search::has_way;
use crate::{CrlBag, Place, PlaceSet, Places};
use sz_base::Seconds;

/// Why no chain leads up to an anchor.
#[derive(Clone, Copy, Debug, PartialEq, Eq)]
pub enum NoChain {
    /// None does, whatever the revocation lists say.
    Path,
    /// Chains do, and the revocation lists clear none of them.
    Revoked,
}

/// Whether a chain of at most eight certificates leads from one of the signers up to an anchor, at the time and with
/// these revocation lists where there are any; and why none does.
pub fn find_chain(
    places: &Places<'_>,
    signers: PlaceSet,
    crls: Option<&CrlBag<'_>>,
    when: Seconds,
) -> Result<(), NoChain>
    ensures ok { IsOk result ↔ IsChained (option_copied crls.entry) when.0 signers places.now.items }
    ensures fault { IfErr result (IsUnchained (option_copied crls.entry) when.0 signers places.now.items) }
{
    let places = places.as_slice();
    let links = links_of(places, when);
    if !is_chained(places, links.as_slice(), signers, None, when) {
        return Err(NoChain::Path);
    }
    if !is_chained(places, links.as_slice(), signers, crls, when) {
        return Err(NoChain::Revoked);
    }
    Ok(())
}

// Whether a chain leads up to an anchor, over these links and with these revocation lists.
fn is_chained(
    places: &[Place<'_>],
    links: &[PlaceSet],
    signers: PlaceSet,
    crls: Option<&CrlBag<'_>>,
    when: Seconds,
) -> bool
    requires few { length places.now ≤ 64 }
    requires linked { AreLinks when.0 places.now links.now }
    ensures { IsTrue result ↔ IsChained (option_copied crls.entry) when.0 signers places.now }
{
    match crls {
        None => is_stepped(places, links, signers, when),
        Some(crls) => {
            let lists = current_lists(crls, places, in_one(links), when);
            let cleared = cleared_links(places, links, lists.as_slice());
            is_stepped(places, cleared.as_slice(), signers, when)
        }
    }
}

// Whether a chain leads up to an anchor over these issuers.
fn is_stepped(places: &[Place<'_>], steps: &[PlaceSet], signers: PlaceSet, when: Seconds) -> bool
    requires few { length places.now ≤ 64 }
    requires as_many { length steps.now ≡ length places.now }
    ensures { (crls : Option (List (List ℕ))) → AreSteps crls when.0 places.now steps.now
        → (IsTrue result ↔ IsChained crls when.0 signers places.now) }
{
    let nodes = nodes_of(places, steps, signers, when);
    has_way(nodes.as_slice())
}
