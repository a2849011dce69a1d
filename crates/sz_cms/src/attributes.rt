//! The reader of signed attributes (RFC 5652 sections 5.3 and 11).

ghost use Rattle.std.specs.Prelude.{◌≡◌, ◌&&◌, None, Some, OnOk, IfErr, IfNone, IfOk, IfSome, ◌⊎◌, List, [], ◌∷◌, ◌++◌};
ghost use Rattle.std.specs.Option.{option_copied};
ghost use Rattle.sz_der.specs.declared.tag.TheConstants.{CONTEXT_CONSTRUCTED};
ghost use Rattle.sz_der.specs.Spots.{after, after_optional, at, content_at, IsItemAt, Spot, spot_of, spots_from};
ghost use Rattle.sz_cms.specs.Known.{AreKnown, IsWith};
ghost use Rattle.sz_cms.specs.MessageFault.{attribute_fault, attributes_fault, each_from, is_known, known_fault, one_fault, stands_among, values_fault};
ghost use Rattle.sz_cms.specs.Places.{attributes_at, known_at};
ghost use Rattle.sz_cms.specs.View.{attributes_of};

use crate::identifier::{CONTENT_TYPE, MESSAGE_DIGEST};
use crate::{InfoFault, InfoKind, SignedAttributes};
use sz_der::parts::{expect_end, is_next, open_part, part_fault, parts_of, take_item, take_part};
use sz_der::tag::{CONTEXT_CONSTRUCTED, OBJECT_IDENTIFIER, OCTET_STRING, SEQUENCE, SET};
use sz_der::{DerReader, Item};

/// Takes the field of signed attributes, where it is.
pub(crate) fn take_attributes<'a>(
    reader: &mut DerReader<'a>,
) -> Result<Option<SignedAttributes<'a>>, InfoFault>
    ensures ok { OnOk result (attributes_fault (spot_of reader.old) ≡ None) }
    ensures attributes { IfOk result (λ attributes. attributes_of attributes ≡ attributes_at (spot_of reader.old)) }
    ensures next { OnOk result (spot_of reader.new ≡ after_optional CONTEXT_CONSTRUCTED (spot_of reader.old)) }
    ensures fault { IfErr result (λ fault. attributes_fault (spot_of reader.old) ≡ Some (at fault)) }
{
    if !is_next(reader, CONTEXT_CONSTRUCTED) {
        return Ok(None);
    }
    let field = take_item(reader)?;
    let attributes = read_attributes(&field)?;
    Ok(Some(attributes))
}

// Reads the two attributes that have to stand in the field.
fn read_attributes<'a>(field: &Item<'a>) -> Result<SignedAttributes<'a>, InfoFault>
    ensures ok { OnOk result ((spot : Spot) → IsItemAt spot field.now → known_fault spot ≡ None) }
    ensures attributes { IfOk result (λ attributes. (spot : Spot) → IsItemAt spot field.now
        → attributes_of (Some attributes) ≡ Some (known_at spot)) }
    ensures fault { IfErr result (λ fault. (spot : Spot) → IsItemAt spot field.now
        → known_fault spot ≡ Some (at fault)) }
{
    let known = read_known(&parts_of(field))?;
    match known.both() {
        Some((content_type, digest)) => Ok(SignedAttributes {
            whole: field.whole,
            content_type,
            digest,
        }),
        None => Err(InfoFault {
            kind: InfoKind::Attribute,
            place: field.after,
        }),
    }
}

// Reads the values of the known attributes.
fn read_known<'a>(first: &DerReader<'a>) -> Result<KnownValues<'a>, InfoFault>
    ensures ok { OnOk result (each_from attribute_fault (spot_of first.now) ≡ None) }
    ensures known { IfOk result (AreKnown (spots_from (spot_of first.now))) }
    ensures fault { IfErr result (λ fault. each_from attribute_fault (spot_of first.now) ≡ Some (at fault)) }
{
    let mut each = *first;
    let mut known = KnownValues::none();
    while !each.is_at_end() {
        known = take_attribute(&mut each, known)?;
    }
    Ok(known)
}

// Takes one attribute. The value of a known type is kept, and none may have been before.
fn take_attribute<'a>(
    reader: &mut DerReader<'a>,
    known: KnownValues<'a>,
) -> Result<KnownValues<'a>, InfoFault>
    ensures ok { OnOk result ((earlier : List Spot) → AreKnown earlier known.entry
        → attribute_fault earlier (spot_of reader.old) ≡ None) }
    ensures known { IfOk result (λ more. (earlier : List Spot) → AreKnown earlier known.entry
        → AreKnown (earlier ++ spot_of reader.old ∷ []) more) }
    ensures next { OnOk result (spot_of reader.new ≡ after (spot_of reader.old)) }
    ensures fault { IfErr result (λ fault. (earlier : List Spot) → AreKnown earlier known.entry
        → attribute_fault earlier (spot_of reader.old) ≡ Some (at fault)) }
{
    let mut parts = open_part(reader, SEQUENCE, InfoKind::Shape)?;
    let identifier = take_part(&mut parts, OBJECT_IDENTIFIER, InfoKind::Shape)?;
    if known.has(identifier.content) {
        return Err(part_fault(&identifier, InfoKind::Attribute));
    }
    let values = open_part(&mut parts, SET, InfoKind::Shape)?;
    let more = known.with(identifier.content, &values)?;
    expect_end(&parts, InfoKind::Shape)?;
    Ok(more)
}

/// The values of the known attributes, as far as they were read.
#[derive(Clone, Copy)]
pub(crate) struct KnownValues<'a> {
    content_type: Option<&'a [u8]>,
    digest: Option<&'a [u8]>,
}

impl<'a> KnownValues<'a> {
    // None was read yet.
    fn none() -> Self
        ensures { AreKnown [] result }
    {
        KnownValues {
            content_type: None,
            digest: None,
        }
    }

    // The values of both types, where both were read.
    fn both(&self) -> Option<(&'a [u8], &'a [u8])>
        ensures some { IfSome result (λ both. (option_copied self.now.content_type ≡ Some both.0.now)
            × (option_copied self.now.digest ≡ Some both.1.now)) }
        ensures none { IfNone result ((option_copied self.now.content_type ≡ None)
            ⊎ (option_copied self.now.digest ≡ None)) }
    {
        match (self.content_type, self.digest) {
            (Some(content_type), Some(digest)) => Some((content_type, digest)),
            _ => None,
        }
    }

    // A value of this type was read already.
    fn has(&self, identifier: &[u8]) -> bool
        ensures { (earlier : List Spot) → AreKnown earlier self.now
            → result ≡ (is_known identifier.now && stands_among earlier identifier.now) }
    {
        if identifier == CONTENT_TYPE.as_slice() {
            return self.content_type.is_some();
        }
        if identifier == MESSAGE_DIGEST.as_slice() {
            return self.digest.is_some();
        }
        false
    }

    // With the value of an attribute of this type, where the type is known.
    fn with(self, identifier: &[u8], values: &DerReader<'a>) -> Result<Self, InfoFault>
        ensures ok { OnOk result (values_fault identifier.now (spot_of values.now) ≡ None) }
        ensures known { IfOk result (IsWith identifier.now (spot_of values.now) self.entry) }
        ensures fault { IfErr result (λ fault. values_fault identifier.now (spot_of values.now) ≡ Some (at fault)) }
    {
        if identifier == CONTENT_TYPE.as_slice() {
            let value = read_one(values, OBJECT_IDENTIFIER)?;
            return Ok(KnownValues {
                content_type: Some(value),
                digest: self.digest,
            });
        }
        if identifier == MESSAGE_DIGEST.as_slice() {
            let value = read_one(values, OCTET_STRING)?;
            return Ok(KnownValues {
                content_type: self.content_type,
                digest: Some(value),
            });
        }
        Ok(self)
    }
}

// Reads the one value that has to stand there, with this tag.
fn read_one<'a>(first: &DerReader<'a>, tag: u8) -> Result<&'a [u8], InfoFault>
    ensures ok { OnOk result (one_fault tag (spot_of first.now) ≡ None) }
    ensures content { IfOk result (λ octets. octets.now ≡ content_at (spot_of first.now)) }
    ensures fault { IfErr result (λ fault. one_fault tag (spot_of first.now) ≡ Some (at fault)) }
{
    if first.is_at_end() {
        return Err(InfoFault {
            kind: InfoKind::Attribute,
            place: first.place(),
        });
    }
    let mut values = *first;
    let value = take_part(&mut values, tag, InfoKind::Shape)?;
    expect_end(&values, InfoKind::Attribute)?;
    Ok(value.content)
}
