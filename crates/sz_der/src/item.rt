//! One item of the input, at a place.

ghost use Rattle.std.specs.Prelude.{◌≡◌, ◌≢◌, ◌+◌, ◌-◌, ◌%◌, ◌^◌, ◌<◌, ◌≤◌, ℕ, List, false, length, drop, slice_index, IfOk, IfErr, Some, None, IsOkAnd};
ghost use Rattle.sz_der.specs.Der.{StandsAt, number_of};
ghost use Rattle.sz_der.specs.Fault.{fault_of, fault_at, header_size, content_size, counted, size_octets, is_padded};
ghost use Rattle.sz_der.specs.Nested.{Extends};

use crate::{DerFault, DerKind};

/// One item of the input: a tag, a length and a content (X.690 section 8.1).
#[derive(Clone, Copy, Debug)]
pub struct Item<'a> {
    /// The tag, with its class and whether it is constructed.
    pub tag: u8,
    /// The content.
    pub content: &'a [u8],
    /// The item from its tag to its end.
    pub whole: &'a [u8],
    /// The place right after the item, counted from 0.
    pub after: usize,
}

impl Item<'_> {
    /// The place of the item's tag, or 0 where an item that was built by hand has that below 0.
    pub fn place(&self) -> usize
        ensures { result ≡ self.now.after - length self.now.whole.now }
    {
        self.after.saturating_sub(self.whole.len())
    }
}

/// One item at this place of the bytes, counted from 0. What the item holds is not looked into.
pub fn next(bytes: &[u8], place: usize) -> Result<Item<'_>, DerFault>
    // What is answered stands there, and what stands there is answered.
    ensures found { IfOk result (λ item. StandsAt bytes.now place item.tag item.content.now item.whole.now) }
    ensures extends { IfOk result (λ item. Extends bytes.now place item.content.now item.whole.now item.after) }
    ensures only { (tag : ℕ) (content whole : List ℕ) → StandsAt bytes.now place tag content whole
        → IsOkAnd result (λ item. (item.tag ≡ tag) × (item.content.now ≡ content) × (item.whole.now ≡ whole)) }
    // Else it is the first fault that applies there.
    ensures no_fault { IfOk result (λ item. fault_at bytes.now place ≡ None) }
    ensures fault { IfErr result (λ fault. fault_at bytes.now place ≡ Some fault.kind) }
    ensures fault_place { IfErr result (λ fault. fault.place ≡ place) }
{
    let rest = rest_from(bytes, place);
    match extent_of(rest) {
        Ok(extent) => {
            let whole = &rest[..extent.header + extent.content];
            Ok(Item {
                tag: whole[0],
                content: &whole[extent.header..],
                whole,
                after: place + whole.len(),
            })
        }
        Err(kind) => Err(DerFault { kind, place }),
    }
}

// The bytes from the place on.
fn rest_from(bytes: &[u8], place: usize) -> &[u8]
    ensures { result.now ≡ drop place bytes.now }
{
    bytes.get(place..).unwrap_or(&[])
}

// How far an item goes.
#[derive(Clone, Copy)]
struct Extent {
    /// How many bytes stand before the content.
    header: usize,
    /// The length of the content.
    content: usize,
}

// How far the item at the front of the bytes goes, which is not past their end.
#[tactic(auto, unfolding(crate::specs::Fault::fault_of))]
fn extent_of(bytes: &[u8]) -> Result<Extent, DerKind>
    ensures no_fault { IfOk result (λ extent. fault_of bytes.now ≡ None) }
    ensures header { IfOk result (λ extent. extent.header ≡ header_size bytes.now) }
    ensures content { IfOk result (λ extent. extent.content ≡ content_size bytes.now) }
    ensures within { IfOk result (λ extent. extent.header + extent.content ≤ length bytes.now) }
    ensures fault { IfErr result (λ kind. fault_of bytes.now ≡ Some kind) }
{
    let extent = match bytes {
        [] => return Err(DerKind::Short),
        [tag, ..] if tag % 32 == 31 => return Err(DerKind::HighTag),
        [_] => return Err(DerKind::Short),
        [_, 0x80, ..] => return Err(DerKind::Indefinite),
        [_, 0xFF, ..] => return Err(DerKind::LongForm),
        [_, size, ..] if *size < 0x80 => Extent {
            header: 2,
            content: usize::from(*size),
        },
        [_, first, ..] => long_form(bytes, usize::from(*first - 0x80))?,
    };
    if bytes.len() - extent.header < extent.content {
        return Err(DerKind::Short);
    }
    Ok(extent)
}

// How far the item at the front of the bytes says that it goes, in a length of so many octets after the
// first.
#[tactic(auto, unfolding(crate::specs::Fault::fault_of))]
fn long_form(bytes: &[u8], count: usize) -> Result<Extent, DerKind>
    requires two { 2 ≤ length bytes.now }
    requires tag { slice_index bytes.now 0 % 32 ≢ 31 }
    requires first { slice_index bytes.now 1 ≡ 128 + count }
    requires some { 0 < count }
    requires below { count < 127 }
    ensures header { IfOk result (λ extent. extent.header ≡ header_size bytes.now) }
    ensures content { IfOk result (λ extent. extent.content ≡ content_size bytes.now) }
    ensures within { IfOk result (λ extent. extent.header ≤ length bytes.now) }
    ensures few { IfOk result (λ extent. counted bytes.now ≤ 4) }
    ensures minimal { IfOk result (λ extent. is_padded (size_octets bytes.now) ≡ false) }
    ensures fault { IfErr result (λ kind. fault_of bytes.now ≡ Some kind) }
{
    let header = 2 + count;
    if bytes.len() < header {
        return Err(DerKind::Short);
    }
    let octets = &bytes[2..header];
    if is_padded(octets) {
        return Err(DerKind::LongForm);
    }
    if count > 4 {
        return Err(DerKind::Short);
    }
    Ok(Extent {
        header,
        content: number(octets),
    })
}

// Fewer octets, or the short form, would do for the number that the octets write.
fn is_padded(octets: &[u8]) -> bool
    requires { 0 < length octets.now }
    ensures { result ≡ is_padded octets.now }
{
    if octets[0] == 0 {
        return true;
    }
    octets.len() == 1 && octets[0] < 0x80
}

/// The number that the octets write, the most significant first.
pub(crate) fn number(octets: &[u8]) -> usize
    requires { length octets.now ≤ 4 }
    ensures value { result ≡ number_of octets.now }
    ensures bound { result < 256 ^ length octets.now }
{
    let mut number = 0;
    for octet in octets {
        number = number * 256 + usize::from(*octet);
    }
    number
}
