//! The reader of the parts of TBSCertificate (RFC 5280 section 4.1), in their order.

ghost use Rattle.std.specs.Prelude.{◌≡◌, true, false, None, Some, IfOk, IfErr, IfNone, IfSome, OnOk};
ghost use Rattle.sz_der.specs.Spots.{after, after_optional, at, inside, spot_of};
ghost use Rattle.sz_x509.specs.CertFault.{holds_key, key_fault, key_in, tbs_parts_fault, unique_id_fault, validity_fault, version_fault};
ghost use Rattle.sz_x509.specs.CertPlaces.{key_at, seconds_at, TbsAt};
ghost use Rattle.sz_x509.specs.View.{fields_of};

use crate::extensions::{Restrictions, take_extensions};
use crate::parts::{take_algorithm, take_octets, take_time};
use crate::tag::{ISSUER_UNIQUE_ID, SUBJECT_UNIQUE_ID};
use crate::{CertFault, CertKind};
use sz_base::Seconds;
use sz_der::parts::{
    expect_end, is_next, open_part, part_fault, take_integer, take_item, take_part,
};
use sz_der::tag::{CONTEXT_CONSTRUCTED, INTEGER, SEQUENCE};
use sz_der::{DerReader, integer};

/// The fields of TBSCertificate.
#[derive(Clone, Copy)]
pub(crate) struct Tbs<'a> {
    /// The octets of the serial number.
    pub(crate) serial: &'a [u8],
    /// The issuer's name, as a whole item.
    pub(crate) issuer: &'a [u8],
    /// The first second at which the certificate is valid.
    pub(crate) not_before: Seconds,
    /// The last second at which the certificate is valid.
    pub(crate) not_after: Seconds,
    /// The subject's name, as a whole item.
    pub(crate) subject: &'a [u8],
    /// The HSS public key.
    pub(crate) key: &'a [u8],
    /// What the extensions say.
    pub(crate) restrictions: Restrictions<'a>,
}

/// Reads all parts, and nothing more.
pub(crate) fn read_tbs<'a>(first: &DerReader<'a>) -> Result<Tbs<'a>, CertFault>
    ensures ok { OnOk result (tbs_parts_fault (spot_of first.now) ≡ None) }
    ensures fields { IfOk result (λ tbs. TbsAt (spot_of first.now) (fields_of tbs)) }
    ensures fault { IfErr result (λ fault. tbs_parts_fault (spot_of first.now) ≡ Some (at fault)) }
{
    let mut parts = *first;
    take_version(&mut parts)?;
    let serial = take_integer(&mut parts, CertKind::Der)?;
    take_algorithm(&mut parts)?;
    let issuer = take_part(&mut parts, SEQUENCE, CertKind::Der)?;
    let (not_before, not_after) = take_validity(&mut parts)?;
    let subject = take_part(&mut parts, SEQUENCE, CertKind::Der)?;
    let key = take_key(&mut parts)?;
    skip_unique_id(&mut parts, ISSUER_UNIQUE_ID)?;
    skip_unique_id(&mut parts, SUBJECT_UNIQUE_ID)?;
    let restrictions = take_extensions(&mut parts)?;
    expect_end(&parts, CertKind::Der)?;
    Ok(Tbs {
        serial,
        issuer: issuer.whole,
        not_before,
        not_after,
        subject: subject.whole,
        key,
        restrictions,
    })
}

/// The INTEGER of version 3 (RFC 5280 section 4.1.2.1).
const VERSION_3: [u8; 1] = [2];

// Takes `[0]` with version 3.
fn take_version(reader: &mut DerReader<'_>) -> Result<(), CertFault>
    ensures ok { OnOk result (version_fault (spot_of reader.old) ≡ None) }
    ensures next { OnOk result (spot_of reader.new ≡ after (spot_of reader.old)) }
    ensures fault { IfErr result (λ fault. version_fault (spot_of reader.old) ≡ Some (at fault)) }
{
    let mut parts = open_part(reader, CONTEXT_CONSTRUCTED, CertKind::Version)?;
    let version = take_part(&mut parts, INTEGER, CertKind::Version)?;
    let Ok(octets) = integer(&version) else {
        return Err(part_fault(&version, CertKind::Der));
    };
    if octets != VERSION_3.as_slice() {
        return Err(part_fault(&version, CertKind::Version));
    }
    expect_end(&parts, CertKind::Version)
}

// Takes the first and the last second of validity.
fn take_validity(reader: &mut DerReader<'_>) -> Result<(Seconds, Seconds), CertFault>
    ensures ok { OnOk result (validity_fault (spot_of reader.old) ≡ None) }
    ensures first { IfOk result (λ times. times.0.0 ≡ seconds_at (inside (spot_of reader.old))) }
    ensures last { IfOk result (λ times. times.1.0 ≡ seconds_at (after (inside (spot_of reader.old)))) }
    ensures next { OnOk result (spot_of reader.new ≡ after (spot_of reader.old)) }
    ensures fault { IfErr result (λ fault. validity_fault (spot_of reader.old) ≡ Some (at fault)) }
{
    let mut times = open_part(reader, SEQUENCE, CertKind::Der)?;
    let not_before = take_time(&mut times)?;
    let not_after = take_time(&mut times)?;
    expect_end(&times, CertKind::Der)?;
    Ok((not_before, not_after))
}

// Takes the key, whose algorithm is HSS/LMS.
fn take_key<'a>(reader: &mut DerReader<'a>) -> Result<&'a [u8], CertFault>
    ensures ok { OnOk result (key_fault (spot_of reader.old) ≡ None) }
    ensures key { IfOk result (λ key. key.now ≡ key_at (spot_of reader.old)) }
    ensures next { OnOk result (spot_of reader.new ≡ after (spot_of reader.old)) }
    ensures fault { IfErr result (λ fault. key_fault (spot_of reader.old) ≡ Some (at fault)) }
{
    let mut parts = open_part(reader, SEQUENCE, CertKind::Key)?;
    take_algorithm(&mut parts)?;
    let (bits, octets) = take_octets(&mut parts, CertKind::Key)?;
    let Some(key) = key_in(octets) else {
        return Err(part_fault(&bits, CertKind::Key));
    };
    expect_end(&parts, CertKind::Key)?;
    Ok(key)
}

/// The length of an HSS public key (RFC 8554 section 6.1).
const KEY_LENGTH: usize = 60;

// The key in the octets of its BIT STRING: raw, or wrapped in an OCTET STRING.
fn key_in(octets: &[u8]) -> Option<&[u8]>
    ensures some { IfSome result (λ key. (holds_key octets.now ≡ true) × (key.now ≡ key_in octets.now)) }
    ensures none { IfNone result (holds_key octets.now ≡ false) }
{
    match octets {
        [0x04, 0x3C, key @ ..] if key.len() == KEY_LENGTH => Some(key),
        key if key.len() == KEY_LENGTH => Some(key),
        _ => None,
    }
}

// Passes over an item with this tag, where one is next.
fn skip_unique_id(reader: &mut DerReader<'_>, tag: u8) -> Result<(), CertFault>
    ensures ok { OnOk result (unique_id_fault tag (spot_of reader.old) ≡ None) }
    ensures next { OnOk result (spot_of reader.new ≡ after_optional tag (spot_of reader.old)) }
    ensures fault { IfErr result (λ fault. unique_id_fault tag (spot_of reader.old) ≡ Some (at fault)) }
{
    if is_next(reader, tag) {
        let _id = take_item(reader)?;
    }
    Ok(())
}
