//! Readers of types: each answers exactly where the item has the type's tag and a content of its form.

ghost use Rattle.std.specs.Prelude.{◌≡◌, ◌↔◌, ◌-◌, ◌<◌, List, ℕ, ◌∷◌, slice_index, IsOk, IfOk, IsOkAnd, Bool, IfErr, IsTrue, Ok};
ghost use Rattle.sz_der.specs.Content.{IsBits, IsBoolean, IsBitString, IsContentFault, HasNamedBits, HoldsBits};

use crate::tag::{BIT_STRING, BOOLEAN, OBJECT_IDENTIFIER, OCTET_STRING};
use crate::{DerFault, DerKind, Item};

/// The content of an item with this tag, whatever it is.
pub fn content_of<'a>(item: &Item<'a>, tag: u8) -> Result<&'a [u8], DerFault>
    ensures exact { IsOk result ↔ (item.now.tag ≡ tag) }
    ensures value { IfOk result (λ octets. octets.now ≡ item.now.content.now) }
    ensures fault { IfErr result (IsContentFault item.now.after item.now.whole.now) }
{
    if item.tag == tag {
        Ok(item.content)
    } else {
        Err(content_fault(item))
    }
}

/// The content of an OBJECT IDENTIFIER, whatever its octets are.
pub fn oid<'a>(item: &Item<'a>) -> Result<&'a [u8], DerFault>
    ensures exact { IsOk result ↔ (item.now.tag ≡ OBJECT_IDENTIFIER) }
    ensures value { IfOk result (λ octets. octets.now ≡ item.now.content.now) }
    ensures fault { IfErr result (IsContentFault item.now.after item.now.whole.now) }
{
    content_of(item, OBJECT_IDENTIFIER)
}

/// The octets of an OCTET STRING.
pub fn octet_string<'a>(item: &Item<'a>) -> Result<&'a [u8], DerFault>
    ensures exact { IsOk result ↔ (item.now.tag ≡ OCTET_STRING) }
    ensures value { IfOk result (λ octets. octets.now ≡ item.now.content.now) }
    ensures fault { IfErr result (IsContentFault item.now.after item.now.whole.now) }
{
    content_of(item, OCTET_STRING)
}

/// The octets of a BIT STRING that has no unused bits (X.690 section 8.6.2).
pub fn bit_string<'a>(item: &Item<'a>) -> Result<&'a [u8], DerFault>
    ensures found { IfOk result
        (λ octets. (item.now.tag ≡ BIT_STRING) × IsBitString octets.now item.now.content.now) }
    ensures only { (octets : List ℕ) → item.now.tag ≡ BIT_STRING → IsBitString octets item.now.content.now
        → IsOkAnd result (λ found. found.now ≡ octets) }
    ensures fault { IfErr result (IsContentFault item.now.after item.now.whole.now) }
{
    match item.content {
        [unused, octets @ ..] if item.tag == BIT_STRING && *unused == 0 => Ok(octets),
        _ => Err(content_fault(item)),
    }
}

/// The first 16 named bits of a BIT STRING (X.690 sections 8.6.2 and 11.2): bit k has the value 2^k. Bits that
/// are not there are clear, and further ones are passed over.
pub fn named_bits(item: &Item<'_>) -> Result<u16, DerFault>
    ensures found { IfOk result (λ number. (item.now.tag ≡ BIT_STRING)
        × HoldsBits item.now.content.now number) }
    ensures only { (unused : ℕ) (octets : List ℕ) → item.now.tag ≡ BIT_STRING → item.now.content.now ≡ unused ∷ octets
        → IsBits unused octets → IsOk result }
    ensures fault { IfErr result (IsContentFault item.now.after item.now.whole.now) }
{
    match item.content {
        [unused, octets @ ..] if item.tag == BIT_STRING && are_bits(*unused, octets) => Ok(
            first_bits(octets),
        ),
        _ => Err(content_fault(item)),
    }
}

// The octets with so many unused bits are the content of a BIT STRING.
fn are_bits(unused: u8, octets: &[u8]) -> bool
    ensures { IsTrue result ↔ IsBits unused octets.now }
{
    match octets.last() {
        None => unused == 0,
        Some(last) => unused <= 7 && *last % (1 << unused) == 0,
    }
}

// The first 16 bits of the octets, bit k with the value 2^k.
fn first_bits(octets: &[u8]) -> u16
    ensures { HasNamedBits octets.now result }
{
    u16::from_be_bytes([octet_at(octets, 0), octet_at(octets, 1)]).reverse_bits()
}

// The octet at the place, or 0 where there is none.
fn octet_at(octets: &[u8], place: usize) -> u8
    ensures { result ≡ slice_index octets.now place }
{
    if place < octets.len() {
        octets[place]
    } else {
        0
    }
}

/// The value of a BOOLEAN: one octet, 00 or FF (X.690 sections 8.2 and 11.1).
pub fn boolean(item: &Item<'_>) -> Result<bool, DerFault>
    ensures found { IfOk result (λ value. (item.now.tag ≡ BOOLEAN) × IsBoolean value item.now.content.now) }
    ensures only { (value : Bool) → item.now.tag ≡ BOOLEAN → IsBoolean value item.now.content.now
        → result ≡ Ok value }
    ensures fault { IfErr result (IsContentFault item.now.after item.now.whole.now) }
{
    if item.tag != BOOLEAN || item.content.len() != 1 {
        return Err(content_fault(item));
    }
    match item.content[0] {
        0x00 => Ok(false),
        0xFF => Ok(true),
        _ => Err(content_fault(item)),
    }
}

/// The item is not of the type that is read.
pub(crate) fn content_fault(item: &Item<'_>) -> DerFault
    ensures { IsContentFault item.now.after item.now.whole.now result }
{
    DerFault {
        kind: DerKind::Content,
        place: item.place(),
    }
}
