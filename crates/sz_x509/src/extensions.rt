//! The reader of a certificate's extensions (RFC 5280 section 4.2).

ghost use Rattle.std.specs.Prelude.{◌≡◌, ◌<◌, None, Some, List, [], true, false, length, IfOk, IfErr, OnErr, OnOk};
ghost use Rattle.sz_der.specs.Spots.{after, after_optional, at, content_at, inside, Spot, spot_of, spots_from};
ghost use Rattle.sz_x509.specs.CertFault.{basic_constraints_fault, each_fault, extension_fault, extensions_fault, flag_at, identifier_at, key_identifier_fault, key_usage_fault, path_length_fault, path_length_spot, stands_among, value_fault, value_spot};
ghost use Rattle.sz_x509.specs.CertPlaces.{Adds, BeginsExtension, extension_spots, LeadHere, path_length_at, RestrictedAt, UsageAt};
ghost use Rattle.sz_x509.specs.Extensions.{is_known, most_extensions};
ghost use Rattle.sz_x509.specs.View.{extensions_of};

use crate::identifier::{
    AUTHORITY_KEY_IDENTIFIER, BASIC_CONSTRAINTS, CERTIFICATE_POLICIES, EXTENDED_KEY_USAGE,
    KEY_USAGE, SUBJECT_ALT_NAME, SUBJECT_KEY_IDENTIFIER,
};
use crate::parts::take_flag;
use crate::tag::EXTENSIONS;
use crate::{CertFault, CertKind};
use sz_der::parts::{
    expect_end, is_next, octets_fit, open_part, part_fault, parts_of, take_item, take_part,
};
use sz_der::tag::{BIT_STRING, INTEGER, OBJECT_IDENTIFIER, OCTET_STRING, SEQUENCE};
use sz_der::{DerReader, integer_u32, named_bits};

// How many extensions a certificate may have: each is compared with all before it.
const MOST_EXTENSIONS: usize = 32;

/// What extensions restrict a certificate to.
#[derive(Clone, Copy)]
pub(crate) struct Restrictions<'a> {
    /// The subject may issue certificates.
    pub(crate) ca: bool,
    /// How many certificates that are not self-issued may stand below.
    pub(crate) path_len: Option<u32>,
    /// What the key may be used for, bit k as 2^k.
    pub(crate) usage: Option<u16>,
    /// The subject's key identifier.
    pub(crate) key_id: Option<&'a [u8]>,
}

/// Without extensions.
const UNRESTRICTED: Restrictions<'static> = Restrictions {
    ca: false,
    path_len: None,
    usage: None,
    key_id: None,
};

/// Takes `[3]` and the extensions in it, where it is there.
pub(crate) fn take_extensions<'a>(reader: &mut DerReader<'a>) -> Result<Restrictions<'a>, CertFault>
    ensures ok { OnOk result (extensions_fault (spot_of reader.old) ≡ None) }
    ensures restricted { IfOk result (λ found.
        RestrictedAt (extension_spots (spot_of reader.old)) (extensions_of found)) }
    ensures next { OnOk result (spot_of reader.new ≡ after_optional EXTENSIONS (spot_of reader.old)) }
    ensures fault { IfErr result (λ fault. extensions_fault (spot_of reader.old) ≡ Some (at fault)) }
{
    if !is_next(reader, EXTENSIONS) {
        return Ok(UNRESTRICTED);
    }
    let item = take_item(reader)?;
    let mut field = parts_of(&item);
    let extensions = open_part(&mut field, SEQUENCE, CertKind::Der)?;
    let restrictions = read_extensions(&extensions)?;
    expect_end(&field, CertKind::Der)?;
    Ok(restrictions)
}

// Reads all extensions.
fn read_extensions<'a>(all: &DerReader<'a>) -> Result<Restrictions<'a>, CertFault>
    ensures ok { OnOk result (each_fault [] (spots_from (spot_of all.now)) ≡ None) }
    ensures restricted { IfOk result (λ found. RestrictedAt (spots_from (spot_of all.now)) (extensions_of found)) }
    ensures fault { IfErr result (λ fault. each_fault [] (spots_from (spot_of all.now)) ≡ Some (at fault)) }
{
    let mut reader = *all;
    let mut restrictions = UNRESTRICTED;
    let mut before = 0;
    while !reader.is_at_end() {
        restrictions = take_extension(&mut reader, all, before, restrictions)?;
        before += 1;
    }
    Ok(restrictions)
}

// Takes the next extension, after so many that stand before it, and adds what it says.
fn take_extension<'a>(
    reader: &mut DerReader<'a>,
    all: &DerReader<'a>,
    before: usize,
    restrictions: Restrictions<'a>,
) -> Result<Restrictions<'a>, CertFault>
    ensures ok { (earlier : List Spot) → LeadHere (spot_of all.now) earlier (spot_of reader.old)
        → length earlier ≡ before → OnOk result (extension_fault earlier (spot_of reader.old) ≡ None) }
    ensures few { OnOk result (before < most_extensions) }
    ensures adds { let spot = spot_of reader.old in IfOk result (λ found. Adds (identifier_at spot)
        (inside (value_spot spot)) (extensions_of restrictions.entry) (extensions_of found)) }
    ensures next { OnOk result (spot_of reader.new ≡ after (spot_of reader.old)) }
    ensures shorter { OnOk result (length reader.new.left.now < length reader.old.left.now) }
    ensures fault { (earlier : List Spot) → LeadHere (spot_of all.now) earlier (spot_of reader.old)
        → length earlier ≡ before
        → IfErr result (λ fault. extension_fault earlier (spot_of reader.old) ≡ Some (at fault)) }
{
    let here = *reader;
    let extension = take_part(reader, SEQUENCE, CertKind::Der)?;
    if before >= MOST_EXTENSIONS {
        return Err(part_fault(&extension, CertKind::Extension));
    }
    let mut parts = parts_of(&extension);
    let identifier = take_part(&mut parts, OBJECT_IDENTIFIER, CertKind::Der)?.content;
    if stands_before(all, &here, identifier) {
        return Err(part_fault(&extension, CertKind::Extension));
    }
    if take_flag(&mut parts)? && !is_known(identifier) {
        return Err(part_fault(&extension, CertKind::Extension));
    }
    let value = open_part(&mut parts, OCTET_STRING, CertKind::Der)?;
    expect_end(&parts, CertKind::Der)?;
    read_value(identifier, &value, restrictions)
}

// One of the extensions from the first one up to here has the identifier.
fn stands_before(all: &DerReader<'_>, here: &DerReader<'_>, identifier: &[u8]) -> bool
    ensures { (earlier : List Spot) → LeadHere (spot_of all.now) earlier (spot_of here.now)
        → result ≡ stands_among earlier identifier.now }
{
    let mut reader = *all;
    while reader.left.len() > here.left.len() {
        match take_identifier(&mut reader) {
            Ok(other) if other == identifier => return true,
            Ok(_) => {}
            Err(_) => return false,
        }
    }
    false
}

// Takes the next extension, and answers its identifier.
fn take_identifier<'a>(reader: &mut DerReader<'a>) -> Result<&'a [u8], CertFault>
    ensures identifier { IfOk result (λ found. found.now ≡ identifier_at (spot_of reader.old)) }
    ensures next { OnOk result (spot_of reader.new ≡ after (spot_of reader.old)) }
    ensures shorter { OnOk result (length reader.new.left.now < length reader.old.left.now) }
    ensures err { OnErr result (¬ BeginsExtension (spot_of reader.old)) }
{
    let mut parts = open_part(reader, SEQUENCE, CertKind::Der)?;
    let identifier = take_part(&mut parts, OBJECT_IDENTIFIER, CertKind::Der)?;
    Ok(identifier.content)
}

// The identifier is that of an extension that is known (RFC 5280 section 4.2.1).
fn is_known(identifier: &[u8]) -> bool
    ensures { result ≡ is_known identifier.now }
{
    identifier == BASIC_CONSTRAINTS.as_slice()
        || identifier == KEY_USAGE.as_slice()
        || identifier == SUBJECT_KEY_IDENTIFIER.as_slice()
        || identifier == AUTHORITY_KEY_IDENTIFIER.as_slice()
        || identifier == EXTENDED_KEY_USAGE.as_slice()
        || identifier == SUBJECT_ALT_NAME.as_slice()
        || identifier == CERTIFICATE_POLICIES.as_slice()
}

// Reads the value of an extension where its identifier is one that restricts, and adds what it says.
fn read_value<'a>(
    identifier: &[u8],
    value: &DerReader<'a>,
    restrictions: Restrictions<'a>,
) -> Result<Restrictions<'a>, CertFault>
    ensures ok { OnOk result (value_fault identifier.now (spot_of value.now) ≡ None) }
    ensures adds { IfOk result (λ found. Adds identifier.now (spot_of value.now)
        (extensions_of restrictions.entry) (extensions_of found)) }
    ensures fault { IfErr result (λ fault. value_fault identifier.now (spot_of value.now) ≡ Some (at fault)) }
{
    let mut found = restrictions;
    if identifier == BASIC_CONSTRAINTS.as_slice() {
        let (ca, path_len) = read_basic_constraints(value)?;
        found.ca = ca;
        found.path_len = path_len;
    } else if identifier == KEY_USAGE.as_slice() {
        found.usage = Some(read_key_usage(value)?);
    } else if identifier == SUBJECT_KEY_IDENTIFIER.as_slice() {
        found.key_id = Some(read_key_identifier(value)?);
    }
    Ok(found)
}

// BasicConstraints (RFC 5280 section 4.2.1.9), and nothing more.
fn read_basic_constraints(value: &DerReader<'_>) -> Result<(bool, Option<u32>), CertFault>
    ensures ok { OnOk result (basic_constraints_fault (spot_of value.now) ≡ None) }
    ensures ca { IfOk result (λ found. found.0 ≡ flag_at (inside (spot_of value.now))) }
    ensures path_len { IfOk result (λ found. found.1 ≡ path_length_at (path_length_spot (spot_of value.now))) }
    ensures fault { IfErr result (λ fault. basic_constraints_fault (spot_of value.now) ≡ Some (at fault)) }
{
    let mut items = *value;
    let mut parts = open_part(&mut items, SEQUENCE, CertKind::Der)?;
    let ca = take_flag(&mut parts)?;
    let path_len = take_path_length(&mut parts)?;
    expect_end(&parts, CertKind::Der)?;
    expect_end(&items, CertKind::Der)?;
    Ok((ca, path_len))
}

// Takes an INTEGER where one is next, as a path length of 32 bits.
fn take_path_length(reader: &mut DerReader<'_>) -> Result<Option<u32>, CertFault>
    ensures ok { OnOk result (path_length_fault (spot_of reader.old) ≡ None) }
    ensures path_len { IfOk result (λ found. found ≡ path_length_at (spot_of reader.old)) }
    ensures next { OnOk result (spot_of reader.new ≡ after_optional INTEGER (spot_of reader.old)) }
    ensures fault { IfErr result (λ fault. path_length_fault (spot_of reader.old) ≡ Some (at fault)) }
{
    if !is_next(reader, INTEGER) {
        return Ok(None);
    }
    let item = take_item(reader)?;
    octets_fit(item.content);
    match integer_u32(&item) {
        Ok(Some(path_len)) => Ok(Some(path_len)),
        Ok(None) => Err(part_fault(&item, CertKind::Extension)),
        Err(_) => Err(part_fault(&item, CertKind::Der)),
    }
}

// KeyUsage (RFC 5280 section 4.2.1.3), and nothing more.
fn read_key_usage(value: &DerReader<'_>) -> Result<u16, CertFault>
    ensures ok { OnOk result (key_usage_fault (spot_of value.now) ≡ None) }
    ensures usage { IfOk result (λ usage. UsageAt (Some (spot_of value.now)) (Some usage)) }
    ensures fault { IfErr result (λ fault. key_usage_fault (spot_of value.now) ≡ Some (at fault)) }
{
    let mut items = *value;
    let item = take_part(&mut items, BIT_STRING, CertKind::Der)?;
    let Ok(usage) = named_bits(&item) else {
        return Err(part_fault(&item, CertKind::Der));
    };
    expect_end(&items, CertKind::Der)?;
    Ok(usage)
}

// SubjectKeyIdentifier (RFC 5280 section 4.2.1.2), and nothing more.
fn read_key_identifier<'a>(value: &DerReader<'a>) -> Result<&'a [u8], CertFault>
    ensures ok { OnOk result (key_identifier_fault (spot_of value.now) ≡ None) }
    ensures key_id { IfOk result (λ octets. octets.now ≡ content_at (spot_of value.now)) }
    ensures fault { IfErr result (λ fault. key_identifier_fault (spot_of value.now) ≡ Some (at fault)) }
{
    let mut items = *value;
    let item = take_part(&mut items, OCTET_STRING, CertKind::Der)?;
    expect_end(&items, CertKind::Der)?;
    Ok(item.content)
}
