//! The writer of revocation lists (RFC 5280 section 5.1) with HSS/LMS signatures (RFC 8708).

ghost use Rattle.std.specs.Prelude.{IfOk, IfSome, OnOk};
ghost use Rattle.sz_issue.specs.Parts.{Appends, IsSignedForm, IsWritable};
ghost use Rattle.sz_issue.specs.RevocationList.{AreWrittenEntries, crl_values, IsWrittenEntry, IsWrittenNextUpdate, IsWrittenRevoked, IsWrittenTbsList, SaysList, signed_list};
ghost use Rattle.sz_x509.specs.CrlView.{seconds_of};
ghost use Rattle.sz_x509.specs.RevocationList.{CrlOf, IsTbsList, RevocationList};

use crate::parts::{item_of, join_signed, write_algorithm, write_name};
use crate::times::write_time;
use std::alloc::Global;
use sz_base::{Bytes, Numbers, OutOfMemory, Seconds, Text};
use sz_der::DerWriter;
use sz_der::tag::{INTEGER, SEQUENCE};

/// What a revocation list is to say.
#[derive(Debug, Drop)]
pub struct CrlSpec {
    /// The issuer's common name, as UTF-8.
    pub issuer: Text,
    /// When the list is issued, which is also the date of each entry.
    pub this_update: Seconds,
    /// When the next list will be issued at the latest.
    pub next_update: Option<Seconds>,
    /// The serial numbers of the certificates that are revoked.
    pub serials: Numbers,
}

/// Writes TBSCertList, which the issuer then signs (RFC 5280 section 5.1.2).
///
/// The list is of version 2 and has no extensions. Its name is one common name, whose bytes are written as they stand,
/// also where they are no UTF-8. The entries stand in the order of the serial numbers; without one no entry list is
/// written.
pub fn write_crl_tbs(alloc: Global, spec: &CrlSpec) -> Result<Bytes, OutOfMemory>
    requires this_update { IsWritable spec.now.this_update.0 }
    requires next_update { IfSome spec.now.next_update (λ seconds. IsWritable seconds.0) }
    ensures written { IfOk result (IsWrittenTbsList (crl_values spec.now)) }
    ensures says { IfOk result (λ tbs. (fields : RevocationList)
        × SaysList (crl_values spec.now) fields × IsTbsList fields tbs) }
{
    write_each(alloc, spec)
}

/// Writes the revocation list of a TBSCertList, as `write_crl_tbs` gives it, and of its HSS signature (RFC 5280 section
/// 5.1.1).
pub fn write_crl(alloc: Global, tbs: &[u8], signature: &[u8]) -> Result<Bytes, OutOfMemory>
    ensures written { IfOk result (IsSignedForm tbs.now signature.now) }
    ensures list { (fields : RevocationList) → IsTbsList fields tbs.now
        → IfOk result (λ whole. CrlOf whole (signed_list fields tbs.now signature.now whole)) }
{
    join_signed(alloc, tbs, signature)
}

// Writes each part of TBSCertList.
fn write_each(alloc: Global, spec: &CrlSpec) -> Result<Bytes, OutOfMemory>
    requires this_update { IsWritable spec.now.this_update.0 }
    requires next_update { IfSome spec.now.next_update (λ seconds. IsWritable seconds.0) }
    ensures { IfOk result (IsWrittenTbsList (crl_values spec.now)) }
{
    let entries = entries_of(alloc, spec.serials.as_slice(), spec.this_update)?;
    let mut parts = DerWriter::create(alloc)?;
    parts.item(INTEGER, &[1])?;
    write_algorithm(alloc, &mut parts)?;
    write_name(alloc, &mut parts, spec.issuer.as_slice())?;
    write_time(alloc, &mut parts, spec.this_update)?;
    write_next_update(alloc, &mut parts, spec.next_update)?;
    write_revoked(&mut parts, spec.serials.as_slice(), entries.as_slice())?;
    item_of(alloc, SEQUENCE, parts.as_slice())
}

// Puts nextUpdate last where there is one.
fn write_next_update(
    alloc: Global,
    out: &mut DerWriter,
    next_update: Option<Seconds>,
) -> Result<(), OutOfMemory>
    requires { IfSome next_update (λ seconds. IsWritable seconds.0) }
    ensures { OnOk result (Appends (IsWrittenNextUpdate (seconds_of next_update)) out.old out.new) }
{
    match next_update {
        Some(seconds) => write_time(alloc, out, seconds),
        None => Ok(()),
    }
}

// The entries of these serial numbers, all of one date, one after another.
fn entries_of(alloc: Global, serials: &[u32], date: Seconds) -> Result<Bytes, OutOfMemory>
    requires { IsWritable date.0 }
    ensures { IfOk result (AreWrittenEntries date.0 serials.now) }
{
    let mut entries = DerWriter::create(alloc)?;
    for serial in serials {
        write_entry(alloc, &mut entries, *serial, date)?;
    }
    Ok(entries.finish())
}

// Puts an entry last.
fn write_entry(
    alloc: Global,
    out: &mut DerWriter,
    serial: u32,
    date: Seconds,
) -> Result<(), OutOfMemory>
    requires { IsWritable date.0 }
    ensures { OnOk result (Appends (IsWrittenEntry date.0 serial) out.old out.new) }
{
    let mut parts = DerWriter::create(alloc)?;
    parts.integer(serial)?;
    write_time(alloc, &mut parts, date)?;
    out.item(SEQUENCE, parts.as_slice())?;
    Ok(())
}

// Puts revokedCertificates with these entries last where a serial number is given.
fn write_revoked(out: &mut DerWriter, serials: &[u32], entries: &[u8]) -> Result<(), OutOfMemory>
    ensures { OnOk result (Appends (IsWrittenRevoked serials.now entries.now) out.old out.new) }
{
    if serials.is_empty() {
        return Ok(());
    }
    out.item(SEQUENCE, entries)?;
    Ok(())
}
