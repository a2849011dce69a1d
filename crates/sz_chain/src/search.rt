//! The search for a way from a start to an anchor.

ghost use Rattle.std.specs.Prelude.{◌≡◌, ◌↔◌, ◌<◌, ◌≤◌, ◌+◌, ℕ, length, IsTrue, Some, IfSome};
ghost use Rattle.sz_chain.specs.Chain.{IsWithin};
ghost use Rattle.sz_chain.specs.Search.{AreFew, Climbs, HasAnchor, HasWay, IsLeast, IsOffered, IsRow, lesser};

use crate::MOST_PLACES;
use crate::node::Node;
use arrayvec::ArrayVec;

/// The most certificates of a chain, the anchor not counted.
pub const MOST_CHAINED: usize = 8;

// For each node the least number of issuers that count, on the ways to it over a number of issuers.
type Row = ArrayVec<Option<u8>, MOST_PLACES>;

/// Whether a way leads from a start to an anchor, over at most eight issuers.
pub(crate) fn has_way(nodes: &[Node]) -> bool
    requires { length nodes.now ≤ 64 }
    ensures { IsTrue result ↔ HasWay nodes.now }
{
    let mut row = first_row(nodes);
    for _issuers in 0..MOST_CHAINED {
        if has_anchor(nodes, row.as_slice()) {
            return true;
        }
        row = next_row(nodes, row.as_slice());
    }
    has_anchor(nodes, row.as_slice())
}

// What is reached over no issuer.
fn first_row(nodes: &[Node]) -> Row
    requires { length nodes.now ≤ 64 }
    ensures { IsRow nodes.now 0 result.items }
{
    let mut row = ArrayVec::new();
    for node in nodes {
        row.push(node.is_start.then_some(0));
    }
    row
}

// What is reached over one issuer more. A smaller number that count serves wherever a larger one does, so the least is
// all that has to be known.
fn next_row(nodes: &[Node], row: &[Option<u8>]) -> Row
    requires few { length nodes.now ≤ 64 }
    requires as_many { length row.now ≡ length nodes.now }
    requires counted { AreFew row.now }
    ensures { (n : ℕ) → IsRow nodes.now n row.now → IsRow nodes.now (n + 1) result.items }
{
    let mut next = ArrayVec::new();
    for (at, node) in nodes.iter().enumerate() {
        next.push(least_offer(nodes, row, at, node));
    }
    next
}

// The least number of issuers that count with which a node leads on to this one.
fn least_offer(nodes: &[Node], row: &[Option<u8>], at: usize, upper: &Node) -> Option<u8>
    requires few { at < 64 }
    requires as_many { length row.now ≡ length nodes.now }
    requires counted { AreFew row.now }
    ensures { IsLeast (IsOffered nodes.now row.now (length nodes.now) at upper.now) result }
{
    let mut least = None;
    for (below, lower) in nodes.iter().enumerate() {
        least = lesser(least, offer(lower, at, upper, row[below]));
    }
    least
}

// The number of issuers that count with which this node leads on to that one.
fn offer(lower: &Node, at: usize, upper: &Node, before: Option<u8>) -> Option<u8>
    requires few { at < 64 }
    requires counted { IfSome before (λ count. count < 255) }
    ensures { IsLeast (λ count. (told : ℕ) × (before ≡ Some told) × Climbs lower.now at upper.now told count) result }
{
    let before = before?;
    if !lower.issuers.has(at) || !is_within(upper.limit, before) {
        return None;
    }
    if upper.is_counted {
        Some(before + 1)
    } else {
        Some(before)
    }
}

// Whether so many certificates are within the path length.
fn is_within(limit: Option<u32>, count: u8) -> bool
    ensures { IsTrue result ↔ IsWithin limit count }
{
    match limit {
        None => true,
        Some(limit) => u32::from(count) <= limit,
    }
}

// The lesser number.
fn lesser(one: Option<u8>, other: Option<u8>) -> Option<u8>
    ensures { result ≡ lesser one other }
{
    match (one, other) {
        (Some(one), Some(other)) => Some(one.min(other)),
        (Some(one), None) => Some(one),
        (None, other) => other,
    }
}

// Whether an anchor is reached.
fn has_anchor(nodes: &[Node], row: &[Option<u8>]) -> bool
    requires { length row.now ≡ length nodes.now }
    ensures { IsTrue result ↔ HasAnchor nodes.now row.now (length nodes.now) }
{
    for (at, node) in nodes.iter().enumerate() {
        if node.is_anchor && row[at].is_some() {
            return true;
        }
    }
    false
}
