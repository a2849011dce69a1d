//! The writer of certificates (RFC 5280 section 4.1) with HSS/LMS keys and signatures (RFC 8708).

ghost use Rattle.std.specs.Prelude.{◌≡◌, ◌∷◌, IfOk, OnOk};
ghost use Rattle.sz_issue.specs.Certificate.{cert_values, IsWrittenKey, IsWrittenTbs, IsWrittenValidity, Says, signed};
ghost use Rattle.sz_issue.specs.Parts.{Appends, IsSignedForm, IsWritable};
ghost use Rattle.sz_x509.specs.Certificate.{Certificate, CertOf, IsTbs, IsVersion3, key_length};

use crate::extensions::write_extensions;
use crate::parts::{item_of, join_signed, write_algorithm, write_holder, write_name, write_octets};
use crate::times::write_time;
use std::alloc::Global;
use sz_base::{Bytes, OutOfMemory, Seconds, Text};
use sz_der::DerWriter;
use sz_der::tag::{CONTEXT_CONSTRUCTED, INTEGER, OCTET_STRING, SEQUENCE};

// the length of an HSS public key (RFC 8554 section 6.1)
const KEY_LENGTH: u8 = 60;

/// What a certificate is to say.
#[derive(Debug, Drop)]
pub struct CertSpec {
    /// The serial number.
    pub serial: u32,
    /// The issuer's common name, as UTF-8.
    pub issuer: Text,
    /// The subject's common name, as UTF-8.
    pub subject: Text,
    /// The first second at which the certificate is valid.
    pub not_before: Seconds,
    /// The last second at which the certificate is valid.
    pub not_after: Seconds,
    /// The subject's HSS public key (RFC 8554 section 6.1).
    pub key: [u8; 60],
    /// The subject may issue certificates (RFC 5280 section 4.2.1.9).
    pub ca: bool,
    /// How many certificates that are not self-issued may stand below (RFC 5280 section 4.2.1.9).
    pub path_len: Option<u32>,
}

/// Writes TBSCertificate, which the issuer then signs (RFC 5280 section 4.1.2).
///
/// A name is one common name, whose bytes are written as they stand, also where they are no UTF-8. Basic constraints
/// and key usage are critical; the key may sign, and where the subject may issue also certificates and revocation
/// lists. The key identifier is the first 20 bytes of the SHA-256 of the key.
pub fn write_tbs(alloc: Global, spec: &CertSpec) -> Result<Bytes, OutOfMemory>
    requires not_before { IsWritable spec.now.not_before.0 }
    requires not_after { IsWritable spec.now.not_after.0 }
    ensures written { IfOk result (IsWrittenTbs (cert_values spec.now)) }
    ensures says { IfOk result (λ tbs. (fields : Certificate) × Says (cert_values spec.now) fields × IsTbs fields tbs) }
{
    write_each(alloc, spec)
}

/// Writes the certificate of a TBSCertificate, as `write_tbs` gives it, and of its HSS signature (RFC 5280 section
/// 4.1.1).
pub fn write_cert(alloc: Global, tbs: &[u8], signature: &[u8]) -> Result<Bytes, OutOfMemory>
    ensures written { IfOk result (IsSignedForm tbs.now signature.now) }
    ensures certificate { (fields : Certificate) → IsTbs fields tbs.now
        → IfOk result (λ whole. CertOf whole (signed fields tbs.now signature.now whole)) }
{
    join_signed(alloc, tbs, signature)
}

// Writes each part of TBSCertificate.
fn write_each(alloc: Global, spec: &CertSpec) -> Result<Bytes, OutOfMemory>
    requires not_before { IsWritable spec.now.not_before.0 }
    requires not_after { IsWritable spec.now.not_after.0 }
    ensures { IfOk result (IsWrittenTbs (cert_values spec.now)) }
{
    let mut parts = DerWriter::create(alloc)?;
    write_version(alloc, &mut parts)?;
    parts.integer(spec.serial)?;
    write_algorithm(alloc, &mut parts)?;
    write_name(alloc, &mut parts, spec.issuer.as_slice())?;
    write_validity(alloc, &mut parts, spec.not_before, spec.not_after)?;
    write_name(alloc, &mut parts, spec.subject.as_slice())?;
    write_key(alloc, &mut parts, &spec.key)?;
    write_extensions(alloc, &mut parts, spec)?;
    item_of(alloc, SEQUENCE, parts.as_slice())
}

// Puts `[0]` and version 3 last.
fn write_version(alloc: Global, out: &mut DerWriter) -> Result<(), OutOfMemory>
    ensures { OnOk result (Appends IsVersion3 out.old out.new) }
{
    write_holder(alloc, out, CONTEXT_CONSTRUCTED, INTEGER, &[2])
}

// Puts the first and the last second of validity last.
fn write_validity(
    alloc: Global,
    out: &mut DerWriter,
    not_before: Seconds,
    not_after: Seconds,
) -> Result<(), OutOfMemory>
    requires not_before { IsWritable not_before.0 }
    requires not_after { IsWritable not_after.0 }
    ensures { OnOk result (Appends (IsWrittenValidity not_before.0 not_after.0) out.old out.new) }
{
    let mut times = DerWriter::create(alloc)?;
    write_time(alloc, &mut times, not_before)?;
    write_time(alloc, &mut times, not_after)?;
    out.item(SEQUENCE, times.as_slice())?;
    Ok(())
}

// Puts the key, as an OCTET STRING in its BIT STRING, last.
fn write_key(alloc: Global, out: &mut DerWriter, key: &[u8; 60]) -> Result<(), OutOfMemory>
    ensures { OnOk result (Appends (IsWrittenKey key.now) out.old out.new) }
{
    let mut parts = DerWriter::create(alloc)?;
    write_algorithm(alloc, &mut parts)?;
    let wrapped = wrapped(alloc, key)?;
    write_octets(alloc, &mut parts, wrapped.as_slice())?;
    out.item(SEQUENCE, parts.as_slice())?;
    Ok(())
}

// The key as an OCTET STRING.
fn wrapped(alloc: Global, key: &[u8; 60]) -> Result<Bytes, OutOfMemory>
    ensures { IfOk result (λ octets. octets ≡ OCTET_STRING ∷ key_length ∷ key.now) }
{
    let mut octets = Bytes::from_slice(alloc, &[OCTET_STRING, KEY_LENGTH])?;
    octets.append(key)?;
    Ok(octets)
}
