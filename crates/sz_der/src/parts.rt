//! The walk over the parts of a format, whose items have to stand in their order: each step takes what has to stand
//! next, or answers the fault of that, of a kind of the format's own.

ghost use Rattle.std.specs.Prelude.{◌≡◌, None, Some, IfOk, IfErr, OnOk};
ghost use Rattle.sz_der.specs.Der.{AreOctets};
ghost use Rattle.sz_der.specs.Spots.{after, at, content_at, inside, IsItemAt, is_next, no_end, no_integer, no_item, no_part, place_at, Spot, spot_of};

use crate::tag::INTEGER;
use crate::{DerReader, Item, integer};

/// The kinds of fault of a format.
pub trait PartKind: Copy {
    /// The kind of an item that breaks the encoding rules.
    ghost BROKEN: { Self };
    /// The kind of an item that breaks the encoding rules.
    const BROKEN: Self;
}

/// A fault of a format, and where it is: the place of the item's tag, counted from 0, or the end of what holds an item
/// that is missing.
#[derive(Clone, Copy, Debug, PartialEq, Eq)]
pub struct PartFault<K> {
    /// What is wrong.
    pub kind: K,
    /// The place of the item's tag.
    pub place: usize,
}

/// Takes the next item, whatever it is.
pub fn take_item<'a, K: PartKind>(reader: &mut DerReader<'a>) -> Result<Item<'a>, PartFault<K>>
    ensures ok { OnOk result (no_item K.BROKEN (spot_of reader.old) ≡ None) }
    ensures item { IfOk result (IsItemAt (spot_of reader.old)) }
    ensures next { OnOk result (spot_of reader.new ≡ after (spot_of reader.old)) }
    ensures fault { IfErr result (λ fault. no_item K.BROKEN (spot_of reader.old) ≡ Some (at fault)) }
{
    match reader.take_item() {
        Ok(item) => Ok(item),
        Err(fault) => Err(PartFault {
            kind: K::BROKEN,
            place: fault.place,
        }),
    }
}

/// Takes the next item, which has to have this tag; of another one the fault is of the kind `other`.
pub fn take_part<'a, K: PartKind>(
    reader: &mut DerReader<'a>,
    tag: u8,
    other: K,
) -> Result<Item<'a>, PartFault<K>>
    ensures ok { OnOk result (no_part K.BROKEN other tag (spot_of reader.old) ≡ None) }
    ensures item { IfOk result (IsItemAt (spot_of reader.old)) }
    ensures next { OnOk result (spot_of reader.new ≡ after (spot_of reader.old)) }
    ensures fault { IfErr result (λ fault. no_part K.BROKEN other tag (spot_of reader.old) ≡ Some (at fault)) }
{
    let item = take_item(reader)?;
    if item.tag == tag {
        Ok(item)
    } else {
        Err(part_fault(&item, other))
    }
}

/// Takes the next item as a part, and answers a reader of what it holds.
pub fn open_part<'a, K: PartKind>(
    reader: &mut DerReader<'a>,
    tag: u8,
    other: K,
) -> Result<DerReader<'a>, PartFault<K>>
    ensures ok { OnOk result (no_part K.BROKEN other tag (spot_of reader.old) ≡ None) }
    ensures inside { IfOk result (λ parts. spot_of parts ≡ inside (spot_of reader.old)) }
    ensures next { OnOk result (spot_of reader.new ≡ after (spot_of reader.old)) }
    ensures fault { IfErr result (λ fault. no_part K.BROKEN other tag (spot_of reader.old) ≡ Some (at fault)) }
{
    let item = take_part(reader, tag, other)?;
    Ok(parts_of(&item))
}

/// Takes an INTEGER, and answers its octets; of another item the fault is of the kind `other`.
pub fn take_integer<'a, K: PartKind>(
    reader: &mut DerReader<'a>,
    other: K,
) -> Result<&'a [u8], PartFault<K>>
    ensures ok { OnOk result (no_integer K.BROKEN other (spot_of reader.old) ≡ None) }
    ensures octets { IfOk result (λ octets. octets.now ≡ content_at (spot_of reader.old)) }
    ensures next { OnOk result (spot_of reader.new ≡ after (spot_of reader.old)) }
    ensures fault { IfErr result (λ fault. no_integer K.BROKEN other (spot_of reader.old) ≡ Some (at fault)) }
{
    let item = take_part(reader, INTEGER, other)?;
    match integer(&item) {
        Ok(octets) => Ok(octets),
        Err(_) => Err(part_fault(&item, K::BROKEN)),
    }
}

/// Nothing more is left; of a further item the fault is of the kind `other`.
pub fn expect_end<K: PartKind>(reader: &DerReader<'_>, other: K) -> Result<(), PartFault<K>>
    ensures ok { OnOk result (no_end K.BROKEN other (spot_of reader.now) ≡ None) }
    ensures fault { IfErr result (λ fault. no_end K.BROKEN other (spot_of reader.now) ≡ Some (at fault)) }
{
    if reader.is_at_end() {
        return Ok(());
    }
    let mut more = *reader;
    let item = take_item(&mut more)?;
    Err(part_fault(&item, other))
}

/// An item with this tag is next.
pub fn is_next(reader: &DerReader<'_>, tag: u8) -> bool
    ensures { result ≡ is_next tag (spot_of reader.now) }
{
    match reader.left.first() {
        Some(first) => *first == tag,
        None => false,
    }
}

/// A reader of what the item holds.
pub fn parts_of<'a>(item: &Item<'a>) -> DerReader<'a>
    ensures { (spot : Spot) → IsItemAt spot item.now → spot_of result ≡ inside spot }
{
    DerReader::inside(item)
}

/// The fault of this kind at the item.
pub fn part_fault<K: Copy>(item: &Item<'_>, kind: K) -> PartFault<K>
    ensures { (spot : Spot) → IsItemAt spot item.now → at result ≡ (kind, place_at spot) }
{
    PartFault {
        kind,
        place: item.place(),
    }
}

/// Bytes are octets, which proofs take from here.
pub fn octets_fit(bytes: &[u8])
    ensures { AreOctets bytes.now }
{
    let _bytes = bytes;
}
