//! The reader of the parts of TBSCertList (RFC 5280 section 5.1.2), in their order.

ghost use Rattle.std.specs.Prelude.{◌≡◌, None, Some, IfOk, IfErr, OnOk};
ghost use Rattle.sz_der.specs.Spots.{after_optional, at, spot_of};
ghost use Rattle.sz_x509.specs.CrlFault.{after_next_update, is_time_next, list_algorithm_spot, list_extensions_fault, list_parts_fault, list_version_fault, next_update_fault};
ghost use Rattle.sz_x509.specs.CrlPlaces.{ListAt, next_update_at};
ghost use Rattle.sz_x509.specs.CrlView.{list_fields, seconds_of};

use crate::entries::{pass_over_extensions, take_entries};
use crate::parts::{take_algorithm, take_time};
use crate::{CertFault, CertKind};
use sz_base::Seconds;
use sz_der::parts::{expect_end, is_next, open_part, part_fault, parts_of, take_item, take_part};
use sz_der::tag::{CONTEXT_CONSTRUCTED, GENERALIZED_TIME, INTEGER, SEQUENCE, UTC_TIME};
use sz_der::{DerReader, integer};

/// The fields of TBSCertList.
#[derive(Clone, Copy)]
pub(crate) struct TbsList<'a> {
    /// The issuer's name, as a whole item.
    pub(crate) issuer: &'a [u8],
    /// When the list was issued.
    pub(crate) this_update: Seconds,
    /// When the next one will be issued at the latest.
    pub(crate) next_update: Option<Seconds>,
    /// The entries, one item after another.
    pub(crate) entries: &'a [u8],
}

/// Reads all parts, and nothing more.
pub(crate) fn read_list<'a>(first: &DerReader<'a>) -> Result<TbsList<'a>, CertFault>
    ensures ok { OnOk result (list_parts_fault (spot_of first.now) ≡ None) }
    ensures fields { IfOk result (λ list. ListAt (spot_of first.now) (list_fields list)) }
    ensures fault { IfErr result (λ fault. list_parts_fault (spot_of first.now) ≡ Some (at fault)) }
{
    let mut parts = *first;
    skip_version(&mut parts)?;
    take_algorithm(&mut parts)?;
    let issuer = take_part(&mut parts, SEQUENCE, CertKind::Der)?;
    let this_update = take_time(&mut parts)?;
    let next_update = take_next_update(&mut parts)?;
    let entries = take_entries(&mut parts)?;
    skip_list_extensions(&mut parts)?;
    expect_end(&parts, CertKind::Der)?;
    Ok(TbsList {
        issuer: issuer.whole,
        this_update,
        next_update,
        entries,
    })
}

/// The INTEGER of version 2 (RFC 5280 section 5.1.2.1).
const VERSION_2: [u8; 1] = [1];

// Takes version 2, where an INTEGER is next.
fn skip_version(reader: &mut DerReader<'_>) -> Result<(), CertFault>
    ensures ok { OnOk result (list_version_fault (spot_of reader.old) ≡ None) }
    ensures next { OnOk result (spot_of reader.new ≡ list_algorithm_spot (spot_of reader.old)) }
    ensures fault { IfErr result (λ fault. list_version_fault (spot_of reader.old) ≡ Some (at fault)) }
{
    if !is_next(reader, INTEGER) {
        return Ok(());
    }
    let version = take_item(reader)?;
    let Ok(octets) = integer(&version) else {
        return Err(part_fault(&version, CertKind::Der));
    };
    if octets != VERSION_2.as_slice() {
        return Err(part_fault(&version, CertKind::Version));
    }
    Ok(())
}

// Takes nextUpdate, where a time is next.
fn take_next_update(reader: &mut DerReader<'_>) -> Result<Option<Seconds>, CertFault>
    ensures ok { OnOk result (next_update_fault (spot_of reader.old) ≡ None) }
    ensures seconds { IfOk result (λ seconds. seconds_of seconds ≡ next_update_at (spot_of reader.old)) }
    ensures next { OnOk result (spot_of reader.new ≡ after_next_update (spot_of reader.old)) }
    ensures fault { IfErr result (λ fault. next_update_fault (spot_of reader.old) ≡ Some (at fault)) }
{
    if !is_time_next(reader) {
        return Ok(None);
    }
    let seconds = take_time(reader)?;
    Ok(Some(seconds))
}

// A time of either type is next.
fn is_time_next(reader: &DerReader<'_>) -> bool
    ensures { result ≡ is_time_next (spot_of reader.now) }
{
    is_next(reader, UTC_TIME) || is_next(reader, GENERALIZED_TIME)
}

// Takes crlExtensions, where `[0]` is next, and looks only whether one is critical.
fn skip_list_extensions(reader: &mut DerReader<'_>) -> Result<(), CertFault>
    ensures ok { OnOk result (list_extensions_fault (spot_of reader.old) ≡ None) }
    ensures next { OnOk result (spot_of reader.new ≡ after_optional CONTEXT_CONSTRUCTED (spot_of reader.old)) }
    ensures fault { IfErr result (λ fault. list_extensions_fault (spot_of reader.old) ≡ Some (at fault)) }
{
    if !is_next(reader, CONTEXT_CONSTRUCTED) {
        return Ok(());
    }
    let item = take_item(reader)?;
    let mut field = parts_of(&item);
    let extensions = open_part(&mut field, SEQUENCE, CertKind::Der)?;
    pass_over_extensions(&extensions)?;
    expect_end(&field, CertKind::Der)
}
