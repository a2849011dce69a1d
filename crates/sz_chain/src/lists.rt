//! Revocation lists that read, each with the issuers that it is current for.

ghost use Rattle.std.specs.Prelude.{◌≡◌, ◌↔◌, ◌<◌, ◌≤◌, ◌≤ℤ◌, true, length, IsTrue};
ghost use Rattle.sz_chain.specs.Cleared.{IsCurrent, IsNotOver};
ghost use Rattle.sz_chain.specs.Issuer.{crl_sign, MayUse};
ghost use Rattle.sz_chain.specs.Lists.{AreLists, AreRead, ClearAt};
ghost use Rattle.sz_chain.specs.Places.{issuer_at};
ghost use Rattle.sz_chain.specs.Sets.{AreAt, has};
ghost use Rattle.sz_x509.specs.CrlView.{list_view};

use crate::test_of::places_within;
use crate::usage::{CRL_SIGN, is_not_over, may_use};
use crate::verify::verifying;
use crate::{CrlBag, MOST_CRLS, Place, PlaceSet, Test};
use arrayvec::ArrayVec;
use sz_base::Seconds;
use sz_cms::Covered;
use sz_x509::Crl;

/// A revocation list, and the places for which it is current.
#[derive(Clone, Copy, Debug)]
pub(crate) struct CurrentList<'a> {
    pub(crate) list: Crl<'a>,
    pub(crate) issuers: PlaceSet,
}

/// Revocation lists, each with the places for which it is current.
pub(crate) type CurrentLists<'a> = ArrayVec<CurrentList<'a>, MOST_CRLS>;

impl Default for CurrentList<'_> {
    fn default() -> Self {
        let list = Crl {
            whole: &[],
            tbs: &[],
            issuer: &[],
            this_update: Seconds(0),
            next_update: None,
            entries: &[],
            signature: &[],
        };
        CurrentList {
            list,
            issuers: PlaceSet::empty(),
        }
    }
}

/// The lists that read, each read once, and verified once under each key of a wanted issuer that has its name.
pub(crate) fn current_lists<'a>(
    crls: &CrlBag<'a>,
    places: &[Place<'_>],
    wanted: PlaceSet,
    when: Seconds,
) -> CurrentLists<'a>
    requires { length places.now ≤ 64 }
    ensures { AreLists when.0 crls.now places.now wanted result.items }
{
    let mut lists = ArrayVec::new();
    for bytes in crls.as_slice() {
        if let Ok(list) = Crl::read(*bytes) {
            let issuers = list_issuers(places, wanted, &list, when);
            lists.push(CurrentList { list, issuers });
        }
    }
    lists
}

// The wanted places for which the list is current.
fn list_issuers(places: &[Place<'_>], wanted: PlaceSet, list: &Crl<'_>, when: Seconds) -> PlaceSet
    requires { length places.now ≤ 64 }
    ensures { AreAt places.now
        (λ at place. IsCurrent when.0 (issuer_at place) (list_view list.now) × (has wanted at ≡ true)) result }
{
    if !is_current_at(list, when) {
        return PlaceSet::empty();
    }
    let named = places_within(places, wanted, &IssuesList { list: *list });
    let covered = Covered {
        first: None,
        rest: list.tbs,
    };
    verifying(places, named, &covered, list.signature)
}

// Whether the list has been issued and the next one is not due.
#[tactic(auto, unfolding(sz_x509::specs::CrlView::list_view))]
fn is_current_at(list: &Crl<'_>, when: Seconds) -> bool
    ensures { IsTrue result ↔ (((list_view list.now).this_update ≤ℤ when.0)
        × IsNotOver when.0 (list_view list.now).next_update) }
{
    list.this_update.0 <= when.0 && is_not_over(when, list.next_update)
}

// The test for an issuer that the list names and that may issue lists.
#[derive(Drop)]
struct IssuesList<'a> {
    list: Crl<'a>,
}

impl Test for IssuesList<'_> {
    ghost use Rattle.std.specs.Prelude.{◌≡◌};
    ghost use Rattle.sz_chain.specs.Issuer.{crl_sign, MayUse};
    ghost use Rattle.sz_chain.specs.Places.{issuer_at};

    ghost holds = { λ test place. (test.list.issuer.now ≡ (issuer_at place).name)
        × MayUse crl_sign (issuer_at place).usage };

    fn passes(&self, place: &Place<'_>) -> bool {
        issues_list(&self.list, place)
    }
}

// Whether the place is an issuer that the list names and that may issue lists.
#[tactic(auto, unfolding(sz_x509::specs::View::view))]
fn issues_list(list: &Crl<'_>, place: &Place<'_>) -> bool
    ensures { IsTrue result ↔ ((list.now.issuer.now ≡ (issuer_at place.now).name)
        × MayUse crl_sign (issuer_at place.now).usage) }
{
    list.issuer == place.cert.subject && (place.is_anchor || may_use(CRL_SIGN, place.cert.usage))
}

/// Whether a list is current for the place, and none that is has the serial number.
pub(crate) fn clears(lists: &[CurrentList<'_>], place: usize, serial: &[u8]) -> bool
    requires below { place < 64 }
    requires read { AreRead lists.now }
    ensures { IsTrue result ↔ ClearAt lists.now place serial.now }
{
    let mut is_told = false;
    for told in lists {
        if told.issuers.has(place) {
            if told.list.lists(serial) {
                return false;
            }
            is_told = true;
        }
    }
    is_told
}
