//! The entries of a revocation list (RFC 5280 section 5.1.2.6), and extensions that must not be critical.

ghost use Rattle.std.specs.Prelude.{◌≡◌, ◌<◌, None, Some, length, IfOk, IfErr, OnErr, OnOk};
ghost use Rattle.sz_der.specs.Spots.{after, after_optional, at, content_at, each, inside, spot_of, spots_from};
ghost use Rattle.sz_x509.specs.CrlFault.{entry_extensions_fault, entry_fault, passed_over_fault, revoked_fault};
ghost use Rattle.sz_x509.specs.CrlPlaces.{entries_at, BeginsEntry};

use crate::parts::{take_flag, take_time};
use crate::{CertFault, CertKind};
use sz_der::DerReader;
use sz_der::parts::{
    expect_end, is_next, open_part, part_fault, parts_of, take_integer, take_item, take_part,
};
use sz_der::tag::{OBJECT_IDENTIFIER, OCTET_STRING, SEQUENCE};

/// Takes revokedCertificates, where a SEQUENCE is next, and answers the entries in it.
pub(crate) fn take_entries<'a>(reader: &mut DerReader<'a>) -> Result<&'a [u8], CertFault>
    ensures ok { OnOk result (revoked_fault (spot_of reader.old) ≡ None) }
    ensures entries { IfOk result (λ entries. entries.now ≡ entries_at (spot_of reader.old)) }
    ensures next { OnOk result (spot_of reader.new ≡ after_optional SEQUENCE (spot_of reader.old)) }
    ensures fault { IfErr result (λ fault. revoked_fault (spot_of reader.old) ≡ Some (at fault)) }
{
    if !is_next(reader, SEQUENCE) {
        return Ok(&[]);
    }
    let item = take_item(reader)?;
    read_entries(&parts_of(&item))?;
    Ok(item.content)
}

// Reads all entries.
fn read_entries(all: &DerReader<'_>) -> Result<(), CertFault>
    ensures ok { OnOk result (each entry_fault (spots_from (spot_of all.now)) ≡ None) }
    ensures fault { IfErr result (λ fault. each entry_fault (spots_from (spot_of all.now)) ≡ Some (at fault)) }
{
    let mut reader = *all;
    while !reader.is_at_end() {
        take_entry(&mut reader)?;
    }
    Ok(())
}

// Takes one entry.
fn take_entry(reader: &mut DerReader<'_>) -> Result<(), CertFault>
    ensures ok { OnOk result (entry_fault (spot_of reader.old) ≡ None) }
    ensures next { OnOk result (spot_of reader.new ≡ after (spot_of reader.old)) }
    ensures shorter { OnOk result (length reader.new.left.now < length reader.old.left.now) }
    ensures fault { IfErr result (λ fault. entry_fault (spot_of reader.old) ≡ Some (at fault)) }
{
    let mut parts = open_part(reader, SEQUENCE, CertKind::Der)?;
    let _serial = take_integer(&mut parts, CertKind::Der)?;
    let _date = take_time(&mut parts)?;
    skip_entry_extensions(&mut parts)?;
    expect_end(&parts, CertKind::Der)
}

// Takes the extensions of an entry, where a SEQUENCE is next.
fn skip_entry_extensions(reader: &mut DerReader<'_>) -> Result<(), CertFault>
    ensures ok { OnOk result (entry_extensions_fault (spot_of reader.old) ≡ None) }
    ensures next { OnOk result (spot_of reader.new ≡ after_optional SEQUENCE (spot_of reader.old)) }
    ensures fault { IfErr result (λ fault. entry_extensions_fault (spot_of reader.old) ≡ Some (at fault)) }
{
    if !is_next(reader, SEQUENCE) {
        return Ok(());
    }
    let item = take_item(reader)?;
    pass_over_extensions(&parts_of(&item))
}

/// Passes over all extensions, none of which is critical.
pub(crate) fn pass_over_extensions(all: &DerReader<'_>) -> Result<(), CertFault>
    ensures ok { OnOk result (each passed_over_fault (spots_from (spot_of all.now)) ≡ None) }
    ensures fault { IfErr result (λ fault. each passed_over_fault (spots_from (spot_of all.now)) ≡ Some (at fault)) }
{
    let mut reader = *all;
    while !reader.is_at_end() {
        pass_over_extension(&mut reader)?;
    }
    Ok(())
}

// Passes over one extension, which is not critical.
fn pass_over_extension(reader: &mut DerReader<'_>) -> Result<(), CertFault>
    ensures ok { OnOk result (passed_over_fault (spot_of reader.old) ≡ None) }
    ensures next { OnOk result (spot_of reader.new ≡ after (spot_of reader.old)) }
    ensures shorter { OnOk result (length reader.new.left.now < length reader.old.left.now) }
    ensures fault { IfErr result (λ fault. passed_over_fault (spot_of reader.old) ≡ Some (at fault)) }
{
    let extension = take_part(reader, SEQUENCE, CertKind::Der)?;
    let mut parts = parts_of(&extension);
    let _identifier = take_part(&mut parts, OBJECT_IDENTIFIER, CertKind::Der)?;
    let critical = take_flag(&mut parts)?;
    if critical {
        return Err(part_fault(&extension, CertKind::Extension));
    }
    let _value = take_part(&mut parts, OCTET_STRING, CertKind::Der)?;
    expect_end(&parts, CertKind::Der)
}

/// Takes the next entry, and answers its serial number.
pub(crate) fn take_serial<'a>(reader: &mut DerReader<'a>) -> Result<&'a [u8], CertFault>
    ensures serial { IfOk result (λ serial. serial.now ≡ content_at (inside (spot_of reader.old))) }
    ensures next { OnOk result (spot_of reader.new ≡ after (spot_of reader.old)) }
    ensures shorter { OnOk result (length reader.new.left.now < length reader.old.left.now) }
    ensures err { OnErr result (¬ BeginsEntry (spot_of reader.old)) }
{
    let mut parts = open_part(reader, SEQUENCE, CertKind::Der)?;
    take_integer(&mut parts, CertKind::Der)
}
