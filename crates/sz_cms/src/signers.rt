//! The reader of a signer: its identifier, its two algorithms, and its signature.

ghost use Rattle.std.specs.Prelude.{◌≡◌, ◌&&◌, None, Some, OnOk, IfErr, IfOk};
ghost use Rattle.sz_der.specs.Spots.{after, after_optional, at, spot_of};
ghost use Rattle.sz_cms.specs.Message.{is_hss_lms, is_sha256};
ghost use Rattle.sz_cms.specs.MessageFault.{algorithm_fault, identifier_fault, issuer_serial_fault, parameters_fault, signer_parts_fault, unsigned_fault, unsigned_tag};
ghost use Rattle.sz_cms.specs.Places.{algorithm_at, identifier_at, issuer_serial_at, parameters_at, signer_from};
ghost use Rattle.sz_cms.specs.View.{algorithm_of, names_of, signer_of};

use crate::attributes::take_attributes;
use crate::identifier::{HSS_LMS, SHA_256};
use crate::{Identifier, InfoFault, InfoKind, Signer};
use sz_der::DerReader;
use sz_der::parts::{expect_end, is_next, open_part, take_integer, take_item, take_part};
use sz_der::tag::{
    CONTEXT_CONSTRUCTED, CONTEXT_PRIMITIVE, OBJECT_IDENTIFIER, OCTET_STRING, SEQUENCE,
};

/// Reads the parts of SignerInfo (RFC 5652 section 5.3), and nothing more.
pub(crate) fn read_signer<'a>(first: &DerReader<'a>) -> Result<Signer<'a>, InfoFault>
    ensures ok { OnOk result (signer_parts_fault (spot_of first.now) ≡ None) }
    ensures signer { IfOk result (λ signer. signer_of signer ≡ signer_from (spot_of first.now)) }
    ensures fault { IfErr result (λ fault. signer_parts_fault (spot_of first.now) ≡ Some (at fault)) }
{
    let mut parts = *first;
    take_integer(&mut parts, InfoKind::Shape)?;
    let identifier = take_identifier(&mut parts)?;
    let digest = take_algorithm(&mut parts)?;
    let attributes = take_attributes(&mut parts)?;
    let scheme = take_algorithm(&mut parts)?;
    let signature = take_part(&mut parts, OCTET_STRING, InfoKind::Shape)?;
    skip_unsigned(&mut parts)?;
    expect_end(&parts, InfoKind::Shape)?;
    Ok(Signer {
        identifier,
        by_hss: signs_by_hss(&digest, &scheme),
        attributes,
        signature: signature.content,
    })
}

// Takes SignerIdentifier (RFC 5652 section 5.3).
fn take_identifier<'a>(reader: &mut DerReader<'a>) -> Result<Identifier<'a>, InfoFault>
    ensures ok { OnOk result (identifier_fault (spot_of reader.old) ≡ None) }
    ensures identifier { IfOk result (λ identifier. names_of identifier ≡ identifier_at (spot_of reader.old)) }
    ensures next { OnOk result (spot_of reader.new ≡ after (spot_of reader.old)) }
    ensures fault { IfErr result (λ fault. identifier_fault (spot_of reader.old) ≡ Some (at fault)) }
{
    if !is_next(reader, CONTEXT_PRIMITIVE) {
        return take_issuer_serial(reader);
    }
    let key_id = take_item(reader)?;
    Ok(Identifier::KeyId(key_id.content))
}

// Takes IssuerAndSerialNumber (RFC 5652 section 10.2.4).
fn take_issuer_serial<'a>(reader: &mut DerReader<'a>) -> Result<Identifier<'a>, InfoFault>
    ensures ok { OnOk result (issuer_serial_fault (spot_of reader.old) ≡ None) }
    ensures identifier { IfOk result (λ identifier. names_of identifier ≡ issuer_serial_at (spot_of reader.old)) }
    ensures next { OnOk result (spot_of reader.new ≡ after (spot_of reader.old)) }
    ensures fault { IfErr result (λ fault. issuer_serial_fault (spot_of reader.old) ≡ Some (at fault)) }
{
    let mut parts = open_part(reader, SEQUENCE, InfoKind::Shape)?;
    let issuer = take_part(&mut parts, SEQUENCE, InfoKind::Shape)?;
    let serial = take_integer(&mut parts, InfoKind::Shape)?;
    expect_end(&parts, InfoKind::Shape)?;
    Ok(Identifier::IssuerSerial {
        issuer: issuer.whole,
        serial,
    })
}

// Passes over unsigned attributes, where they are.
fn skip_unsigned(reader: &mut DerReader<'_>) -> Result<(), InfoFault>
    ensures ok { OnOk result (unsigned_fault (spot_of reader.old) ≡ None) }
    ensures next { OnOk result (spot_of reader.new ≡ after_optional unsigned_tag (spot_of reader.old)) }
    ensures fault { IfErr result (λ fault. unsigned_fault (spot_of reader.old) ≡ Some (at fault)) }
{
    if !is_next(reader, CONTEXT_CONSTRUCTED + 1) {
        return Ok(());
    }
    let _attributes = take_item(reader)?;
    Ok(())
}

/// An algorithm: the octets of its identifier, and its parameters as a whole item or nothing.
#[derive(Clone, Copy)]
pub(crate) struct Algorithm<'a> {
    identifier: &'a [u8],
    parameters: &'a [u8],
}

impl Algorithm<'_> {
    // SHA-256, its parameters absent or NULL (RFC 5754 section 2).
    fn is_sha256(&self) -> bool
        ensures { result ≡ is_sha256 (algorithm_of self.now) }
    {
        self.identifier == SHA_256.as_slice()
            && (self.parameters.is_empty() || self.parameters == [5, 0].as_slice())
    }

    // HSS/LMS, without parameters (RFC 8708 section 3).
    fn is_hss_lms(&self) -> bool
        ensures { result ≡ is_hss_lms (algorithm_of self.now) }
    {
        self.identifier == HSS_LMS.as_slice() && self.parameters.is_empty()
    }
}

// The signature is by HSS/LMS over SHA-256.
fn signs_by_hss(digest: &Algorithm<'_>, scheme: &Algorithm<'_>) -> bool
    ensures { result ≡ (is_sha256 (algorithm_of digest.now) && is_hss_lms (algorithm_of scheme.now)) }
{
    digest.is_sha256() && scheme.is_hss_lms()
}

/// Takes AlgorithmIdentifier (RFC 5280 section 4.1.1.2).
pub(crate) fn take_algorithm<'a>(reader: &mut DerReader<'a>) -> Result<Algorithm<'a>, InfoFault>
    ensures ok { OnOk result (algorithm_fault (spot_of reader.old) ≡ None) }
    ensures algorithm { IfOk result (λ algorithm. algorithm_of algorithm ≡ algorithm_at (spot_of reader.old)) }
    ensures next { OnOk result (spot_of reader.new ≡ after (spot_of reader.old)) }
    ensures fault { IfErr result (λ fault. algorithm_fault (spot_of reader.old) ≡ Some (at fault)) }
{
    let mut parts = open_part(reader, SEQUENCE, InfoKind::Shape)?;
    let identifier = take_part(&mut parts, OBJECT_IDENTIFIER, InfoKind::Shape)?;
    let parameters = read_parameters(&parts)?;
    Ok(Algorithm {
        identifier: identifier.content,
        parameters,
    })
}

// Reads at most one item, and nothing more.
fn read_parameters<'a>(first: &DerReader<'a>) -> Result<&'a [u8], InfoFault>
    ensures ok { OnOk result (parameters_fault (spot_of first.now) ≡ None) }
    ensures whole { IfOk result (λ whole. whole.now ≡ parameters_at (spot_of first.now)) }
    ensures fault { IfErr result (λ fault. parameters_fault (spot_of first.now) ≡ Some (at fault)) }
{
    if first.is_at_end() {
        return Ok(&[]);
    }
    let mut parts = *first;
    let parameters = take_item(&mut parts)?;
    expect_end(&parts, InfoKind::Shape)?;
    Ok(parameters.whole)
}
