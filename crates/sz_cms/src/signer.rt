//! A signer of a message: what its signature covers, and whether its digest is that of the content.

ghost use Rattle.std.specs.Prelude.{◌≡◌, ◌↔◌, drop, IsTrue};
ghost use Rattle.sz_cms.specs.Kind.{identifier_of};
ghost use Rattle.sz_cms.specs.Signature.{covered_of, DigestFits, NamesContent};
ghost use Rattle.sz_cms.specs.View.{attributes_of, covered_bytes, signer_of};

use crate::Kind;
use crate::identifier::DATA;
use sha2::{Digest, Sha256};
use sz_der::tag::SET;

/// What a signer is known by (RFC 5652 section 5.3).
#[derive(Clone, Copy, Debug)]
pub enum Identifier<'a> {
    /// Its certificate's issuer and serial number.
    IssuerSerial {
        /// The issuer's name, a whole item.
        issuer: &'a [u8],
        /// The octets of the serial number.
        serial: &'a [u8],
    },
    /// The octets of its certificate's key identifier.
    KeyId(&'a [u8]),
}

/// Signed attributes (RFC 5652 section 5.3).
#[derive(Clone, Copy, Debug)]
pub struct SignedAttributes<'a> {
    /// Their whole item as it stands in the message, under the tag of `[0]`.
    pub whole: &'a [u8],
    /// The octets of the object identifier that the content type has as its value.
    pub content_type: &'a [u8],
    /// The octets of the message digest.
    pub digest: &'a [u8],
}

/// A signer of a message (RFC 5652 section 5.3).
#[derive(Clone, Copy, Debug)]
pub struct Signer<'a> {
    /// What it is known by.
    pub identifier: Identifier<'a>,
    /// It signs by HSS/LMS over SHA-256. The digest of a signer by other algorithms never fits.
    pub by_hss: bool,
    /// The attributes that it signs in place of the content, where there are any.
    pub attributes: Option<SignedAttributes<'a>>,
    /// The octets of the signature.
    pub signature: &'a [u8],
}

impl Default for Signer<'_> {
    fn default() -> Self {
        Signer {
            identifier: Identifier::KeyId(&[]),
            by_hss: false,
            attributes: None,
            signature: &[],
        }
    }
}

/// The bytes that a signature covers.
#[derive(Clone, Copy, Debug)]
pub struct Covered<'c> {
    /// A byte that stands before the rest.
    pub first: Option<u8>,
    /// The rest.
    pub rest: &'c [u8],
}

impl Signer<'_> {
    /// What the signature covers (RFC 5652 section 5.4): the content, or where there are signed attributes these, under
    /// the tag of SET.
    pub fn covered<'c>(&'c self, content: &'c [u8]) -> Covered<'c>
        ensures { covered_bytes result ≡ covered_of (signer_of self.entry.now) content.entry.now }
    {
        match &self.attributes {
            None => Covered {
                first: None,
                rest: content,
            },
            Some(attributes) => Covered {
                first: Some(SET),
                rest: after_first(attributes.whole),
            },
        }
    }

    /// The signer names the content and its type (RFC 5652 sections 5.3 and 11): by the message digest and the content
    /// type that it signs, or without attributes where the type is id-data.
    pub fn digest_fits(&self, kind: Kind<'_>, content: &[u8]) -> bool
        ensures { IsTrue result ↔ DigestFits (signer_of self.now) (identifier_of kind.entry) content.now }
    {
        self.by_hss && names_content(&self.attributes, kind.identifier(), content)
    }
}

/// The bytes after the first.
pub(crate) fn after_first(bytes: &[u8]) -> &[u8]
    ensures { result.now ≡ drop 1 bytes.now }
{
    let rest = bytes.get(1..);
    rest.unwrap_or(&[])
}

// The attributes name the content and its type; without attributes the type is id-data.
fn names_content(attributes: &Option<SignedAttributes<'_>>, kind: &[u8], content: &[u8]) -> bool
    ensures { IsTrue result ↔ NamesContent (attributes_of attributes.now) kind.now content.now }
{
    match attributes {
        None => kind == DATA.as_slice(),
        Some(attributes) => {
            attributes.content_type == kind
                && attributes.digest == Sha256::digest(content).as_slice()
        }
    }
}
