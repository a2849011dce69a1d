//! The types of content that are told apart.

ghost use Rattle.std.specs.Prelude.{◌≡◌};
ghost use Rattle.sz_cms.specs.Kind.{identifier_of, IsKindOf};

use crate::identifier::{CONVEYED_JSON, CONVEYED_XML, DATA, ENVELOPED_DATA, VOUCHER};

/// A type of content (RFC 5652 section 3).
#[derive(Clone, Copy, Debug)]
pub enum Kind<'a> {
    /// Octets without further meaning, id-data.
    Data,
    /// A voucher in JSON.
    Voucher,
    /// Conveyed information in JSON.
    ConveyedJson,
    /// Conveyed information in XML.
    ConveyedXml,
    /// Enveloped data, which is encrypted.
    Enveloped,
    /// Another type, by the octets of its object identifier.
    Other(&'a [u8]),
}

impl<'a> Kind<'a> {
    /// The type with this object identifier, given by its octets.
    pub fn of(identifier: &'a [u8]) -> Self
        ensures { IsKindOf result identifier.entry.now }
    {
        if identifier == DATA.as_slice() {
            Kind::Data
        } else if identifier == VOUCHER.as_slice() {
            Kind::Voucher
        } else if identifier == CONVEYED_JSON.as_slice() {
            Kind::ConveyedJson
        } else if identifier == CONVEYED_XML.as_slice() {
            Kind::ConveyedXml
        } else if identifier == ENVELOPED_DATA.as_slice() {
            Kind::Enveloped
        } else {
            Kind::Other(identifier)
        }
    }

    /// The octets of its object identifier.
    pub fn identifier(self) -> &'a [u8]
        ensures { result.now ≡ identifier_of self.entry }
    {
        match self {
            Kind::Data => &DATA,
            Kind::Voucher => &VOUCHER,
            Kind::ConveyedJson => &CONVEYED_JSON,
            Kind::ConveyedXml => &CONVEYED_XML,
            Kind::Enveloped => &ENVELOPED_DATA,
            Kind::Other(identifier) => identifier,
        }
    }
}
