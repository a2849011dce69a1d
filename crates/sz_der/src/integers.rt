//! INTEGER: its octets, and its value where it is a number of 32 bits (X.690 section 8.3).

ghost use Rattle.std.specs.Prelude.{◌≡◌, ◌↔◌, ◌^◌, ◌<◌, ℕ, pos, length, slice_index, IsOk, IfOk, IfErr, IsTrue, IfNone, IfSome};
ghost use Rattle.sz_der.specs.Content.{IsContentFault};
ghost use Rattle.sz_der.specs.Der.{number_of};
ghost use Rattle.sz_der.specs.Integer.{IsInteger, integer_of};

use crate::item::number;
use crate::tag::INTEGER;
use crate::typed::{content_fault, content_of};
use crate::{DerFault, Item};

/// The octets of an INTEGER, the most significant first, in two's complement (X.690 section 8.3).
pub fn integer<'a>(item: &Item<'a>) -> Result<&'a [u8], DerFault>
    ensures exact { IsOk result ↔ ((item.now.tag ≡ INTEGER) × IsInteger item.now.content.now) }
    ensures value { IfOk result (λ octets. octets.now ≡ item.now.content.now) }
    ensures fault { IfErr result (IsContentFault item.now.after item.now.whole.now) }
{
    let octets = content_of(item, INTEGER)?;
    if is_integer(octets) {
        Ok(octets)
    } else {
        Err(content_fault(item))
    }
}

/// The value of an INTEGER, or `None` where it is below 0 or past the greatest `u32`.
pub fn integer_u32(item: &Item<'_>) -> Result<Option<u32>, DerFault>
    ensures exact { IsOk result ↔ ((item.now.tag ≡ INTEGER) × IsInteger item.now.content.now) }
    ensures value { IfOk result (λ value. IfSome value (λ n. integer_of item.now.content.now ≡ pos n)) }
    ensures none { IfOk result (λ value. IfNone value
        ((n : ℕ) → n < 2 ^ 32 → ¬ (integer_of item.now.content.now ≡ pos n))) }
    ensures fault { IfErr result (IsContentFault item.now.after item.now.whole.now) }
{
    let octets = integer(item)?;
    Ok(value_u32(octets))
}

// The number that the octets of an INTEGER write, where it is one of 32 bits.
fn value_u32(octets: &[u8]) -> Option<u32>
    requires { IsInteger octets.now }
    ensures some { IfSome result (λ n. integer_of octets.now ≡ pos n) }
    ensures none { IfNone result ((n : ℕ) → n < 2 ^ 32 → ¬ (integer_of octets.now ≡ pos n)) }
{
    if octets[0] >= 0x80 {
        return None;
    }
    let magnitude = magnitude_of(octets);
    if magnitude.len() > 4 {
        return None;
    }
    Some(number(magnitude) as u32)
}

// The octets without a leading zero, which write the same number where it is not below 0.
fn magnitude_of(octets: &[u8]) -> &[u8]
    requires { IsInteger octets.now }
    ensures number { number_of result.now ≡ number_of octets.now }
    ensures lead { 0 < length result.now → 0 < slice_index result.now 0 }
{
    match octets {
        [0, magnitude @ ..] => magnitude,
        _ => octets,
    }
}

// The octets are the content of an INTEGER.
fn is_integer(content: &[u8]) -> bool
    ensures { IsTrue result ↔ IsInteger content.now }
{
    match content {
        [] => false,
        [_] => true,
        [0, second, ..] => *second >= 0x80,
        [0xFF, second, ..] => *second < 0x80,
        _ => true,
    }
}
