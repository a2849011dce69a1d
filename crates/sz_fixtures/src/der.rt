//! Items of DER and messages of the cryptographic message syntax, put together from any parts, right or wrong.

use std::alloc::Global;
use std::test::Fail;
use sz_base::Bytes;
use sz_cms::identifier::{HSS_LMS, SHA_256, SIGNED_DATA};

/// An item of this tag whose content are these parts, one after another, of at most 65,535 bytes together.
pub fn item(alloc: Global, tag: u8, parts: &[&[u8]]) -> Result<Bytes, Fail> {
    let content = joined(alloc, parts)?;
    let length = u16::try_from(content.len()).or(Err("too long an item"))?;
    let [high, low] = length.to_be_bytes();
    let mut bytes = match (high, low) {
        (0, 0..128) => Bytes::from_slice(alloc, &[tag, low])?,
        (0, _) => Bytes::from_slice(alloc, &[tag, 0x81, low])?,
        _ => Bytes::from_slice(alloc, &[tag, 0x82, high, low])?,
    };
    bytes.append(content.as_slice())?;
    Ok(bytes)
}

/// These parts, one after another.
pub fn joined(alloc: Global, parts: &[&[u8]]) -> Result<Bytes, Fail> {
    let mut whole = Bytes::create(alloc);
    for part in parts {
        whole.append(part)?;
    }
    Ok(whole)
}

/// AlgorithmIdentifier without parameters (RFC 5280 section 4.1.1.2).
pub fn algorithm(alloc: Global, identifier: &[u8]) -> Result<Bytes, Fail> {
    let identifier = item(alloc, 0x06, &[identifier])?;
    item(alloc, 0x30, &[identifier.as_slice()])
}

/// ContentInfo of a type that is not signed, with this content (RFC 5652 section 3).
pub fn plain(alloc: Global, kind: &[u8], content: &[u8]) -> Result<Bytes, Fail> {
    let octets = item(alloc, 0x04, &[content])?;
    let field = item(alloc, 0xA0, &[octets.as_slice()])?;
    let identifier = item(alloc, 0x06, &[kind])?;
    item(alloc, 0x30, &[identifier.as_slice(), field.as_slice()])
}

/// EncapsulatedContentInfo of a type, with this content where there is one (RFC 5652 section 5.2).
pub fn encapsulated(alloc: Global, kind: &[u8], content: Option<&[u8]>) -> Result<Bytes, Fail> {
    let identifier = item(alloc, 0x06, &[kind])?;
    let Some(content) = content else {
        return item(alloc, 0x30, &[identifier.as_slice()]);
    };
    let octets = item(alloc, 0x04, &[content])?;
    let field = item(alloc, 0xA0, &[octets.as_slice()])?;
    item(alloc, 0x30, &[identifier.as_slice(), field.as_slice()])
}

/// SignerInfo of a signer by HSS/LMS over SHA-256, who is known by the issuer's name, a whole item, and the octets of
/// the serial number. The attributes stand under the tag of SET, as they were signed (RFC 5652 section 5.3).
pub fn signer_info(
    alloc: Global,
    issuer: &[u8],
    serial: &[u8],
    attributes: &[u8],
    signature: &[u8],
) -> Result<Bytes, Fail> {
    let number = item(alloc, 0x02, &[serial])?;
    let known = item(alloc, 0x30, &[issuer, number.as_slice()])?;
    let digest = algorithm(alloc, &SHA_256)?;
    let untagged = attributes.get(1..).ok_or("no attributes")?;
    let by = algorithm(alloc, &HSS_LMS)?;
    let octets = item(alloc, 0x04, &[signature])?;
    let parts = [
        b"\x02\x01\x01",
        known.as_slice(),
        digest.as_slice(),
        b"\xA0",
        untagged,
        by.as_slice(),
        octets.as_slice(),
    ];
    item(alloc, 0x30, &parts)
}

/// ContentInfo of signed data with this EncapsulatedContentInfo, and the certificates, the revocation lists and the
/// signers, each one after another (RFC 5652 section 5.1).
pub fn signed_data(
    alloc: Global,
    content: &[u8],
    certs: &[u8],
    crls: &[u8],
    signers: &[u8],
) -> Result<Bytes, Fail> {
    let digest = algorithm(alloc, &SHA_256)?;
    let algorithms = item(alloc, 0x31, &[digest.as_slice()])?;
    let certs = item(alloc, 0xA0, &[certs])?;
    let crls = item(alloc, 0xA1, &[crls])?;
    let signers = item(alloc, 0x31, &[signers])?;
    let parts = [
        b"\x02\x01\x03",
        algorithms.as_slice(),
        content,
        certs.as_slice(),
        crls.as_slice(),
        signers.as_slice(),
    ];
    let signed = item(alloc, 0x30, &parts)?;
    let field = item(alloc, 0xA0, &[signed.as_slice()])?;
    let identifier = item(alloc, 0x06, &[&SIGNED_DATA])?;
    item(alloc, 0x30, &[identifier.as_slice(), field.as_slice()])
}
