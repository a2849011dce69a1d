//! The writers of messages: plain ones, signed ones of one signer, and certificates alone.

ghost use Rattle.std.specs.Prelude.{◌≡◌, ◌≢◌, ◌%◌, [], ◌∷◌, drop, map, Some, IfOk};
ghost use Rattle.std.specs.List.{concat};
ghost use Rattle.std.specs.Option.{option_copied};
ghost use Rattle.sz_der.specs.Der.{Der};
ghost use Rattle.sz_cms.specs.Kind.{identifier_of, IsWritten};
ghost use Rattle.sz_cms.specs.Message.{InfoOf, IsAlgorithm, IsAttribute, IsContent, IsContentInfo, IsIssuerSerial, Plain, SignedData};
ghost use Rattle.sz_cms.specs.Signature.{covered_of, DigestFits};
ghost use Rattle.sz_cms.specs.Spelled.{alone_of, AreWrittenAttributes, AreWrittenCerts, content_of, IsListsField, IsSignedByOne, IsWrittenMessage, IsWrittenSigned, IsWrittenSigner, signed_version};
ghost use Rattle.sz_cms.specs.Written.{AreAttributesOf, AreSequences, certs_signed, message_signed, NamesSigner, written_signer};

use crate::identifier::{CONTENT_TYPE, DATA, HSS_LMS, MESSAGE_DIGEST, SHA_256, SIGNED_DATA};
use crate::signer::after_first;
use crate::{Kind, MOST_CERTS, MOST_CRLS};
use sha2::{Digest, Sha256};
use std::alloc::Global;
use sz_base::{Bytes, Certs, OutOfMemory};
use sz_der::DerWriter;
use sz_der::tag::{CONTEXT_CONSTRUCTED, INTEGER, OBJECT_IDENTIFIER, OCTET_STRING, SEQUENCE, SET};

/// A message with this content, which is not signed (RFC 5652 section 4).
pub fn write_plain(alloc: Global, kind: Kind<'_>, content: &[u8]) -> Result<Bytes, OutOfMemory>
    requires { IsWritten kind }
    ensures { IfOk result (λ bytes. InfoOf bytes (Plain (identifier_of kind.entry) content.now)) }
{
    let octets = item(alloc, OCTET_STRING, content)?;
    content_info(alloc, kind.identifier(), octets.as_slice())
}

/// What a signer of this content signs (RFC 5652 section 5.4): the attributes that name its type and hold its digest,
/// under the tag of SET.
pub fn write_attributes(alloc: Global, kind: Kind<'_>, content: &[u8]) -> Result<Bytes, OutOfMemory>
    requires { IsWritten kind }
    ensures written { IfOk result (AreWrittenAttributes (identifier_of kind.entry) content.now) }
    ensures says { IfOk result (AreAttributesOf (identifier_of kind.entry) content.now) }
{
    let type_value = item(alloc, OBJECT_IDENTIFIER, kind.identifier())?;
    let content_type = attribute(alloc, &CONTENT_TYPE, type_value.as_slice())?;
    let digest_value = item(alloc, OCTET_STRING, &Sha256::digest(content))?;
    let digest = attribute(alloc, &MESSAGE_DIGEST, digest_value.as_slice())?;
    constructed(alloc, SET, &[content_type.as_slice(), digest.as_slice()])
}

/// A message of one signer, who is known by the issuer and the serial number of its certificate, with a signature of
/// these attributes (RFC 5652 section 5). The issuer is a whole item, and the serial number the octets of an INTEGER.
pub fn write_signed(
    alloc: Global,
    kind: Kind<'_>,
    content: &[u8],
    certs: &Certs,
    issuer: &[u8],
    serial: &[u8],
    attributes: &[u8],
    signature: &[u8],
) -> Result<Bytes, OutOfMemory>
    requires kind { IsWritten kind }
    requires certs { AreSequences MOST_CERTS certs.now }
    requires signer { NamesSigner issuer.now serial.now }
    requires attributes { AreAttributesOf (identifier_of kind) content.now attributes.now }
    ensures written { IfOk result (IsWrittenMessage (content_of (identifier_of kind.entry) content.now certs.now)
        issuer.now serial.now attributes.now signature.now) }
    ensures says { IfOk result (λ bytes. InfoOf bytes (SignedData (message_signed (identifier_of kind.entry)
        content.now certs.now (written_signer (identifier_of kind.entry) content.now issuer.now serial.now
        attributes.now signature.now)))) }
    // The signature is over what was signed, and the digest that was signed is that of the content.
    ensures covered { covered_of (written_signer (identifier_of kind.entry) content.now issuer.now serial.now
        attributes.now signature.now) content.now ≡ attributes.now }
    ensures fits { DigestFits (written_signer (identifier_of kind.entry) content.now issuer.now serial.now
        attributes.now signature.now) (identifier_of kind.entry) content.now }
{
    let signer = signer_info(alloc, issuer, serial, attributes, signature)?;
    let signed = signed_data(alloc, kind, content, certs, signer.as_slice())?;
    content_info(alloc, &SIGNED_DATA, signed.as_slice())
}

/// A message of certificates and revocation lists alone, which nobody signs (RFC 5652 section 5.2).
pub fn write_certs(alloc: Global, certs: &Certs, crls: &Certs) -> Result<Bytes, OutOfMemory>
    requires certs { AreSequences MOST_CERTS certs.now }
    requires crls { AreSequences MOST_CRLS crls.now }
    ensures written { IfOk result (AreWrittenCerts certs.now crls.now) }
    ensures says { IfOk result (λ bytes. InfoOf bytes (SignedData (certs_signed certs.now crls.now))) }
{
    let signed = certs_data(alloc, certs, crls)?;
    content_info(alloc, &SIGNED_DATA, signed.as_slice())
}

// ContentInfo (RFC 5652 section 3).
fn content_info(alloc: Global, kind: &[u8], inner: &[u8]) -> Result<Bytes, OutOfMemory>
    ensures { IfOk result (IsContentInfo kind.now inner.now) }
{
    let identifier = item(alloc, OBJECT_IDENTIFIER, kind)?;
    let field = item(alloc, CONTEXT_CONSTRUCTED, inner)?;
    constructed(alloc, SEQUENCE, &[identifier.as_slice(), field.as_slice()])
}

// SignedData (RFC 5652 section 5.1) with one signer.
fn signed_data(
    alloc: Global,
    kind: Kind<'_>,
    content: &[u8],
    certs: &Certs,
    signer: &[u8],
) -> Result<Bytes, OutOfMemory>
    requires { IsWritten kind }
    ensures { IfOk result (IsSignedByOne signer.now (content_of (identifier_of kind.entry) content.now certs.now)) }
{
    let version = version(alloc, version_of(kind))?;
    let digest_algorithm = algorithm(alloc, &SHA_256)?;
    let algorithms = item(alloc, SET, digest_algorithm.as_slice())?;
    let content = encapsulated(alloc, kind.identifier(), Some(content))?;
    let certs = choices(alloc, CONTEXT_CONSTRUCTED, certs)?;
    let signers = item(alloc, SET, signer)?;
    constructed(
        alloc,
        SEQUENCE,
        &[
            version.as_slice(),
            algorithms.as_slice(),
            content.as_slice(),
            certs.as_slice(),
            signers.as_slice(),
        ],
    )
}

// SignedData (RFC 5652 section 5.1) of certificates and revocation lists alone.
fn certs_data(alloc: Global, certs: &Certs, crls: &Certs) -> Result<Bytes, OutOfMemory>
    ensures { IfOk result (IsWrittenSigned [] [] (alone_of certs.now crls.now)) }
{
    let version = version(alloc, version_of(Kind::Data))?;
    let none = item(alloc, SET, &[])?;
    let content = encapsulated(alloc, &DATA, None)?;
    let certs = choices(alloc, CONTEXT_CONSTRUCTED, certs)?;
    let crls = lists(alloc, crls)?;
    constructed(
        alloc,
        SEQUENCE,
        &[
            version.as_slice(),
            none.as_slice(),
            content.as_slice(),
            certs.as_slice(),
            crls.as_slice(),
            none.as_slice(),
        ],
    )
}

// The version of signed data whose certificates and signers are of the plain forms (RFC 5652 section 5.1).
fn version_of(kind: Kind<'_>) -> u8
    requires { IsWritten kind }
    ensures { result ≡ signed_version (identifier_of kind.entry) }
{
    match kind {
        Kind::Data => 1,
        _ => 3,
    }
}

// EncapsulatedContentInfo (RFC 5652 section 5.2).
fn encapsulated(alloc: Global, kind: &[u8], content: Option<&[u8]>) -> Result<Bytes, OutOfMemory>
    ensures { IfOk result (IsContent kind.now (option_copied content.entry)) }
{
    let identifier = item(alloc, OBJECT_IDENTIFIER, kind)?;
    match content {
        None => item(alloc, SEQUENCE, identifier.as_slice()),
        Some(content) => {
            let octets = item(alloc, OCTET_STRING, content)?;
            let field = item(alloc, CONTEXT_CONSTRUCTED, octets.as_slice())?;
            constructed(alloc, SEQUENCE, &[identifier.as_slice(), field.as_slice()])
        }
    }
}

// The field of revocation lists, or nothing where there are none.
fn lists(alloc: Global, crls: &Certs) -> Result<Bytes, OutOfMemory>
    ensures { IfOk result (IsListsField crls.now) }
{
    if crls.is_empty() {
        return Ok(Bytes::create(alloc));
    }
    choices(alloc, CONTEXT_CONSTRUCTED + 1, crls)
}

// A field of whole items, one after another.
fn choices(alloc: Global, tag: u8, items: &Certs) -> Result<Bytes, OutOfMemory>
    requires { tag % 32 ≢ 31 }
    ensures { IfOk result (Der tag (concat items.now)) }
{
    let content = joined(alloc, items)?;
    item(alloc, tag, content.as_slice())
}

// The items, one after another.
fn joined(alloc: Global, items: &Certs) -> Result<Bytes, OutOfMemory>
    ensures { IfOk result (λ bytes. bytes ≡ concat items.now) }
{
    let mut bytes = Bytes::create(alloc);
    for item in items.as_slice() {
        bytes.append(item.as_slice())?;
    }
    Ok(bytes)
}

// SignerInfo (RFC 5652 section 5.3).
fn signer_info(
    alloc: Global,
    issuer: &[u8],
    serial: &[u8],
    attributes: &[u8],
    signature: &[u8],
) -> Result<Bytes, OutOfMemory>
    requires { NamesSigner issuer.now serial.now }
    ensures { IfOk result (IsWrittenSigner issuer.now serial.now attributes.now signature.now) }
{
    let version = version(alloc, 1)?;
    let identifier = issuer_serial(alloc, issuer, serial)?;
    let digest_algorithm = algorithm(alloc, &SHA_256)?;
    let field = attributes_field(alloc, attributes)?;
    let signature_algorithm = algorithm(alloc, &HSS_LMS)?;
    let octets = item(alloc, OCTET_STRING, signature)?;
    constructed(
        alloc,
        SEQUENCE,
        &[
            version.as_slice(),
            identifier.as_slice(),
            digest_algorithm.as_slice(),
            field.as_slice(),
            signature_algorithm.as_slice(),
            octets.as_slice(),
        ],
    )
}

// IssuerAndSerialNumber (RFC 5652 section 10.2.4).
fn issuer_serial(alloc: Global, issuer: &[u8], serial: &[u8]) -> Result<Bytes, OutOfMemory>
    requires { NamesSigner issuer.now serial.now }
    ensures { IfOk result (IsIssuerSerial issuer.now serial.now) }
{
    let number = item(alloc, INTEGER, serial)?;
    constructed(alloc, SEQUENCE, &[issuer, number.as_slice()])
}

// The attributes under the tag of `[0]`, as the field of a signer has them.
fn attributes_field(alloc: Global, attributes: &[u8]) -> Result<Bytes, OutOfMemory>
    ensures { IfOk result (λ bytes. bytes ≡ CONTEXT_CONSTRUCTED ∷ drop 1 attributes.now) }
{
    let mut field = Bytes::from_slice(alloc, &[CONTEXT_CONSTRUCTED])?;
    field.append(after_first(attributes))?;
    Ok(field)
}

// An attribute with these values (RFC 5652 section 5.3).
fn attribute(alloc: Global, kind: &[u8], values: &[u8]) -> Result<Bytes, OutOfMemory>
    ensures { IfOk result (IsAttribute (record { type = kind.now; values = values.now })) }
{
    let identifier = item(alloc, OBJECT_IDENTIFIER, kind)?;
    let set = item(alloc, SET, values)?;
    constructed(alloc, SEQUENCE, &[identifier.as_slice(), set.as_slice()])
}

// AlgorithmIdentifier without parameters (RFC 5280 section 4.1.1.2).
fn algorithm(alloc: Global, identifier: &[u8]) -> Result<Bytes, OutOfMemory>
    ensures { IfOk result (IsAlgorithm (record { identifier = identifier.now; parameters = [] })) }
{
    let whole = item(alloc, OBJECT_IDENTIFIER, identifier)?;
    item(alloc, SEQUENCE, whole.as_slice())
}

// CMSVersion (RFC 5652 section 10.2.5).
fn version(alloc: Global, number: u8) -> Result<Bytes, OutOfMemory>
    ensures { IfOk result (Der INTEGER (number ∷ [])) }
{
    item(alloc, INTEGER, &[number])
}

// One item of these parts, joined.
fn constructed(alloc: Global, tag: u8, parts: &[&[u8]]) -> Result<Bytes, OutOfMemory>
    requires { tag % 32 ≢ 31 }
    ensures { IfOk result (Der tag (concat (map (λ part. part.now) parts.now))) }
{
    let mut content = Bytes::create(alloc);
    for part in parts {
        content.append(part)?;
    }
    item(alloc, tag, content.as_slice())
}

// One item with this content.
fn item(alloc: Global, tag: u8, content: &[u8]) -> Result<Bytes, OutOfMemory>
    requires { tag % 32 ≢ 31 }
    ensures { IfOk result (Der tag content.now) }
{
    let mut writer = DerWriter::create(alloc)?;
    writer.item(tag, content)?;
    Ok(writer.finish())
}
