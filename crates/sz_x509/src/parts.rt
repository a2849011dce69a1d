//! The parts that stand in certificates and in revocation lists: octets, times, flags and the algorithm.

ghost use Rattle.std.specs.Prelude.{◌≡◌, None, Some, IfOk, IfErr, OnOk};
ghost use Rattle.sz_der.specs.Spots.{after, after_optional, at, IsItemAt, spot_of};
ghost use Rattle.sz_x509.specs.CertFault.{algorithm_fault, flag_at, flag_fault, octets_at, octets_fault, time_fault};
ghost use Rattle.sz_x509.specs.CertPlaces.{seconds_at};

use crate::identifier::HSS_LMS;
use crate::{CertFault, CertKind};
use sz_base::Seconds;
use sz_der::parts::{expect_end, is_next, open_part, part_fault, take_item, take_part};
use sz_der::tag::{BIT_STRING, BOOLEAN, OBJECT_IDENTIFIER, SEQUENCE};
use sz_der::{DerReader, Item, bit_string, boolean, time};

/// Takes a BIT STRING of whole octets, and answers these; of another tag the fault is of the kind `other`.
pub(crate) fn take_octets<'a>(
    reader: &mut DerReader<'a>,
    other: CertKind,
) -> Result<(Item<'a>, &'a [u8]), CertFault>
    ensures ok { OnOk result (octets_fault other (spot_of reader.old) ≡ None) }
    ensures item { IfOk result (λ taken. IsItemAt (spot_of reader.old) taken.0) }
    ensures octets { IfOk result (λ taken. taken.1.now ≡ octets_at (spot_of reader.old)) }
    ensures next { OnOk result (spot_of reader.new ≡ after (spot_of reader.old)) }
    ensures fault { IfErr result (λ fault. octets_fault other (spot_of reader.old) ≡ Some (at fault)) }
{
    let item = take_part(reader, BIT_STRING, other)?;
    match bit_string(&item) {
        Ok(octets) => Ok((item, octets)),
        Err(_) => Err(part_fault(&item, CertKind::Der)),
    }
}

/// Takes a UTCTime or a GeneralizedTime.
pub(crate) fn take_time(reader: &mut DerReader<'_>) -> Result<Seconds, CertFault>
    ensures ok { OnOk result (time_fault (spot_of reader.old) ≡ None) }
    ensures seconds { IfOk result (λ seconds. seconds.0 ≡ seconds_at (spot_of reader.old)) }
    ensures next { OnOk result (spot_of reader.new ≡ after (spot_of reader.old)) }
    ensures fault { IfErr result (λ fault. time_fault (spot_of reader.old) ≡ Some (at fault)) }
{
    let item = take_item(reader)?;
    match time(&item) {
        Ok(seconds) => Ok(Seconds(seconds)),
        Err(_) => Err(part_fault(&item, CertKind::Time)),
    }
}

/// Takes a BOOLEAN where one is next; else the answer is false, and nothing is taken.
pub(crate) fn take_flag(reader: &mut DerReader<'_>) -> Result<bool, CertFault>
    ensures ok { OnOk result (flag_fault (spot_of reader.old) ≡ None) }
    ensures flag { IfOk result (λ flag. flag ≡ flag_at (spot_of reader.old)) }
    ensures next { OnOk result (spot_of reader.new ≡ after_optional BOOLEAN (spot_of reader.old)) }
    ensures fault { IfErr result (λ fault. flag_fault (spot_of reader.old) ≡ Some (at fault)) }
{
    if !is_next(reader, BOOLEAN) {
        return Ok(false);
    }
    let item = take_item(reader)?;
    match boolean(&item) {
        Ok(flag) => Ok(flag),
        Err(_) => Err(part_fault(&item, CertKind::Der)),
    }
}

/// Takes the AlgorithmIdentifier of HSS/LMS (RFC 8708 section 3).
pub(crate) fn take_algorithm(reader: &mut DerReader<'_>) -> Result<(), CertFault>
    ensures ok { OnOk result (algorithm_fault (spot_of reader.old) ≡ None) }
    ensures next { OnOk result (spot_of reader.new ≡ after (spot_of reader.old)) }
    ensures fault { IfErr result (λ fault. algorithm_fault (spot_of reader.old) ≡ Some (at fault)) }
{
    let mut parts = open_part(reader, SEQUENCE, CertKind::Algorithm)?;
    let identifier = take_part(&mut parts, OBJECT_IDENTIFIER, CertKind::Algorithm)?;
    if identifier.content != HSS_LMS.as_slice() {
        return Err(part_fault(&identifier, CertKind::Algorithm));
    }
    expect_end(&parts, CertKind::Algorithm)
}
