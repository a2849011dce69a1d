//! The writer of the extensions of a certificate (RFC 5280 section 4.2).

ghost use Rattle.std.specs.Prelude.{◌≡◌, IfOk, OnOk};
ghost use Rattle.sz_der.specs.Der.{Der};
ghost use Rattle.sz_issue.specs.Certificate.{AreWrittenExtensions, cert_values, IsDefaultFalse, IsWrittenConstraints, IsWrittenExtension, key_id_of, usage_octets};
ghost use Rattle.sz_issue.specs.Parts.{Appends};
ghost use Rattle.sz_x509.specs.Extensions.{IsPathLength};

use crate::CertSpec;
use crate::parts::{item_of, write_holder};
use sha2::{Digest, Sha256};
use std::alloc::Global;
use sz_base::{Bytes, OutOfMemory};
use sz_der::DerWriter;
use sz_der::tag::{BIT_STRING, BOOLEAN, OBJECT_IDENTIFIER, OCTET_STRING, SEQUENCE};
use sz_x509::identifier::{BASIC_CONSTRAINTS, KEY_USAGE, SUBJECT_KEY_IDENTIFIER};
use sz_x509::tag::EXTENSIONS;

/// Puts `[3]` and the extensions last.
pub(crate) fn write_extensions(
    alloc: Global,
    out: &mut DerWriter,
    spec: &CertSpec,
) -> Result<(), OutOfMemory>
    ensures { OnOk result (Appends (AreWrittenExtensions (cert_values spec.now)) out.old out.new) }
{
    let constraints = basic_constraints(alloc, spec.ca, spec.path_len)?;
    let usage = item_of(alloc, BIT_STRING, &usage_octets(spec.ca))?;
    let key_id = key_identifier(alloc, &spec.key)?;
    let mut extensions = DerWriter::create(alloc)?;
    write_extension(
        alloc,
        &mut extensions,
        &BASIC_CONSTRAINTS,
        true,
        constraints.as_slice(),
    )?;
    write_extension(alloc, &mut extensions, &KEY_USAGE, true, usage.as_slice())?;
    write_extension(
        alloc,
        &mut extensions,
        &SUBJECT_KEY_IDENTIFIER,
        false,
        key_id.as_slice(),
    )?;
    write_holder(alloc, out, EXTENSIONS, SEQUENCE, extensions.as_slice())
}

/// Puts an extension last.
pub(crate) fn write_extension(
    alloc: Global,
    out: &mut DerWriter,
    identifier: &[u8],
    critical: bool,
    value: &[u8],
) -> Result<(), OutOfMemory>
    ensures { OnOk result (Appends (IsWrittenExtension
        (record { identifier = identifier.now; critical = critical; value = value.now })) out.old out.new) }
{
    let mut parts = DerWriter::create(alloc)?;
    parts.item(OBJECT_IDENTIFIER, identifier)?;
    write_flag(&mut parts, critical)?;
    parts.item(OCTET_STRING, value)?;
    out.item(SEQUENCE, parts.as_slice())?;
    Ok(())
}

// Puts a BOOLEAN last where it is true: false is what holds without it.
fn write_flag(out: &mut DerWriter, flag: bool) -> Result<(), OutOfMemory>
    ensures { OnOk result (Appends (IsDefaultFalse flag) out.old out.new) }
{
    if !flag {
        return Ok(());
    }
    out.item(BOOLEAN, &[0xFF])?;
    Ok(())
}

// BasicConstraints.
fn basic_constraints(alloc: Global, ca: bool, path_len: Option<u32>) -> Result<Bytes, OutOfMemory>
    ensures { IfOk result (IsWrittenConstraints ca path_len) }
{
    let mut parts = DerWriter::create(alloc)?;
    write_flag(&mut parts, ca)?;
    write_path_length(&mut parts, path_len)?;
    item_of(alloc, SEQUENCE, parts.as_slice())
}

// Puts a path length last where there is one.
fn write_path_length(out: &mut DerWriter, path_len: Option<u32>) -> Result<(), OutOfMemory>
    ensures { OnOk result (Appends (IsPathLength path_len) out.old out.new) }
{
    match path_len {
        Some(n) => {
            out.integer(n)?;
            Ok(())
        }
        None => Ok(()),
    }
}

// The content of KeyUsage: the count of unused bits, and the bits.
fn usage_octets(ca: bool) -> [u8; 2]
    ensures { result ≡ usage_octets ca }
{
    if ca {
        [1, 0b1000_0110]
    } else {
        [7, 0b1000_0000]
    }
}

// SubjectKeyIdentifier.
fn key_identifier(alloc: Global, key: &[u8; 60]) -> Result<Bytes, OutOfMemory>
    ensures { IfOk result (Der OCTET_STRING (key_id_of key.now)) }
{
    let digest = Sha256::digest(key.as_slice());
    item_of(alloc, OCTET_STRING, &digest[..20])
}
