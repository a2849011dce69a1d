//! The reader of stored devices.

ghost use Rattle.std.specs.Prelude.{◌≡◌, ℕ, ◌≤◌, ◌∷◌, [], length, slice_index, IfOk, IfErr, IfSome, OnOk, None};
ghost use Rattle.std.specs.Int.{w8};
ghost use Rattle.std.specs.List.{All};
ghost use Rattle.sz_base.specs.Identity.{IsWhole, most_anchor_bytes, most_anchors};
ghost use Rattle.sz_base.specs.Serial.{IsSerial};
ghost use Rattle.sz_record.specs.Fault.{IsFault};
ghost use Rattle.sz_record.specs.Field.{bytes, long, longest, number, optional, text};
ghost use Rattle.sz_record.specs.Reading.{IsFirstWrong, IsWrong, TakesField};
ghost use Rattle.sz_record.specs.Spelling.{anchors_bytes, committed_bytes, device_bytes, evidence_bytes, handling_number, identity_bytes, image_bytes, long_bytes, moment_bytes, nonce_bytes, old_version, optional_bytes, text_bytes, time_bytes};
ghost use Rattle.sz_record.specs.Stored.{anchors_field, committed_field, device_field, evidence_field, first_wrong, identity_field, image_field, IsLong, IsStorable, IsStorableCommitted, IsStorableEvidence, IsStorableImage, IsStorableMoment, IsStored, IsWithin, moment_field, nonce_field, serial_field};

use crate::unread::{Unread, Wrong};
use crate::widths::device_widths;
use crate::{Committed, Device, Image, RecordFault};
use std::alloc::Global;
use sz_artifacts::Handling;
use sz_base::{BaseFault, Bytes, Certs, Evidence, Identity, Moment, Seconds, Serial, Text};

/// The version that is written.
pub(crate) const NEW_VERSION: u8 = 2;

// the version whose moments have no nonces
const OLD_VERSION: u8 = 1;

// the limits of an identity, each of the width of its field
const MOST_SERIAL_BYTES: u16 = sz_base::MOST_SERIAL_BYTES as u16;

const MOST_OS_BYTES: u16 = sz_base::MOST_OS_BYTES as u16;

const MOST_ANCHORS: u8 = sz_base::MOST_ANCHORS as u8;

const MOST_ANCHOR_BYTES: u32 = sz_base::MOST_ANCHOR_BYTES as u32;

/// Reads the stored form of a device of version 1 or 2, where each image area has `space` bytes. `BadRecord` tells the
/// first wrong byte: a byte that no device of these versions has there, the first byte of a field that is out of its
/// form or its bounds, the first byte behind the form, or the end where the payload ends too early. Takes memory for
/// the fields alone, each once its bytes are there.
pub fn read(alloc: Global, space: u64, payload: &[u8]) -> Result<Device, RecordFault>
    ensures ok { IfOk result (IsStored space payload.now) }
    ensures faultless { OnOk result (first_wrong space payload.now ≡ None) }
    ensures bad { IfErr result (IsFault space payload.now) }
{
    match read_payload(alloc, space, payload) {
        Ok(device) => Ok(device),
        Err(wrong) => Err(fault(payload, wrong)),
    }
}

// the place of the wrong byte and the byte there
fn fault(payload: &[u8], wrong: Wrong) -> RecordFault
    ensures { (space : ℕ) → IsFirstWrong space payload.now wrong → IsFault space payload.now result }
{
    match wrong {
        Wrong::At { left } => {
            let place = payload.len().saturating_sub(left);
            let value = byte_at(payload, place);
            RecordFault::BadRecord { place, value }
        }
        Wrong::OutOfMemory => RecordFault::OutOfMemory,
    }
}

// the byte at this place, or 0 behind the last one
fn byte_at(bytes: &[u8], place: usize) -> u8
    ensures { result ≡ slice_index bytes.now place }
{
    match bytes.get(place) {
        Some(byte) => *byte,
        None => 0,
    }
}

fn read_payload(alloc: Global, space: u64, payload: &[u8]) -> Result<Device, Wrong>
    ensures ok { IfOk result (IsStored space payload.now) }
    ensures faultless { OnOk result (first_wrong space payload.now ≡ None) }
    ensures wrong { IfErr result (IsFirstWrong space payload.now) }
{
    let mut unread = Unread { left: payload };
    let version = unread.byte(OLD_VERSION, NEW_VERSION)?;
    let device = read_device(alloc, &mut unread, space, version)?;
    let behind = unread.left.len();
    if behind > 0 {
        return Err(Wrong::At { left: behind });
    }
    device_widths(&device);
    Ok(device)
}

// what follows the version
fn read_device(
    alloc: Global,
    unread: &mut Unread<'_>,
    space: u64,
    version: u8,
) -> Result<Device, Wrong>
    ensures taken { IfOk result (λ read. TakesField (device_field space version) (device_bytes version read)
        unread.old.left.now unread.new.left.now) }
    ensures storable { IfOk result (IsStorable version) }
    ensures within { IfOk result (λ read. IfSome read.image (IsWithin space)) }
    ensures wrong { IfErr result (IsWrong (device_field space version) unread.old.left.now) }
{
    let identity = read_identity(alloc, unread)?;
    let running_name = read_text(alloc, unread, u16::MAX)?;
    let running_version = read_text(alloc, unread, u16::MAX)?;
    let image = read_optional_image(alloc, unread, space, version)?;
    let onboarded = read_optional_committed(alloc, unread, version)?;
    Ok(Device {
        identity,
        running_name,
        running_version,
        image,
        onboarded,
    })
}

fn read_identity(alloc: Global, unread: &mut Unread<'_>) -> Result<Identity, Wrong>
    ensures taken { IfOk result (λ read. TakesField identity_field (identity_bytes read)
        unread.old.left.now unread.new.left.now) }
    ensures whole { IfOk result IsWhole }
    ensures wrong { IfErr result (IsWrong identity_field unread.old.left.now) }
{
    let serial = read_serial(alloc, unread)?;
    let os_name = read_text(alloc, unread, MOST_OS_BYTES)?;
    let os_version = read_text(alloc, unread, MOST_OS_BYTES)?;
    let anchors = read_anchors(alloc, unread)?;
    Ok(Identity {
        serial,
        anchors,
        os_name,
        os_version,
    })
}

fn read_serial(alloc: Global, unread: &mut Unread<'_>) -> Result<Serial, Wrong>
    ensures taken { IfOk result (λ read. TakesField serial_field (text_bytes read)
        unread.old.left.now unread.new.left.now) }
    ensures form { IfOk result (λ read. IsSerial read) }
    ensures wrong { IfErr result (IsWrong serial_field unread.old.left.now) }
{
    let left = unread.left.len();
    let text = unread.text(1, MOST_SERIAL_BYTES)?;
    match Serial::read(alloc, text) {
        Ok(serial) => Ok(serial),
        Err(BaseFault::Form) => Err(Wrong::At { left }),
        Err(BaseFault::OutOfMemory) => Err(Wrong::OutOfMemory),
    }
}

// a text of at most so many bytes
fn read_text(alloc: Global, unread: &mut Unread<'_>, most: u16) -> Result<Text, Wrong>
    ensures taken { IfOk result (λ read. TakesField (text 0 most) (text_bytes read)
        unread.old.left.now unread.new.left.now) }
    ensures most { IfOk result (λ read. length read ≤ most) }
    ensures wrong { IfErr result (IsWrong (text 0 most) unread.old.left.now) }
{
    let text = unread.text(0, most)?;
    Ok(Text::from_slice(alloc, text)?)
}

fn read_anchors(alloc: Global, unread: &mut Unread<'_>) -> Result<Certs, Wrong>
    ensures taken { IfOk result (λ read. TakesField anchors_field (anchors_bytes read)
        unread.old.left.now unread.new.left.now) }
    ensures some { IfOk result (λ read. 1 ≤ length read) }
    ensures most { IfOk result (λ read. length read ≤ most_anchors) }
    ensures short { IfOk result (All (λ anchor. length anchor ≤ most_anchor_bytes)) }
    ensures wrong { IfErr result (IsWrong anchors_field unread.old.left.now) }
{
    let count = unread.byte(1, MOST_ANCHORS)?;
    let mut anchors = Certs::create(alloc);
    let mut left = count;
    'anchors: while left > 0 {
        let anchor = read_long(alloc, unread, MOST_ANCHOR_BYTES)?;
        anchors.push(anchor)?;
        left -= 1;
    }
    Ok(anchors)
}

// bytes of at most this number
fn read_long(alloc: Global, unread: &mut Unread<'_>, most: u32) -> Result<Bytes, Wrong>
    ensures taken { IfOk result (λ read. TakesField (long most) (long_bytes read)
        unread.old.left.now unread.new.left.now) }
    ensures most { IfOk result (λ read. length read ≤ most) }
    ensures wrong { IfErr result (IsWrong (long most) unread.old.left.now) }
{
    let bytes = unread.long(most)?;
    Ok(Bytes::from_slice(alloc, bytes)?)
}

fn read_optional_long(alloc: Global, unread: &mut Unread<'_>) -> Result<Option<Bytes>, Wrong>
    ensures taken { IfOk result (λ read. TakesField (optional (long longest)) (optional_bytes long_bytes read)
        unread.old.left.now unread.new.left.now) }
    ensures most { IfOk result (λ read. IfSome read IsLong) }
    ensures wrong { IfErr result (IsWrong (optional (long longest)) unread.old.left.now) }
{
    let there = unread.byte(0, 1)?;
    if there == 0 {
        return Ok(None);
    }
    Ok(Some(read_long(alloc, unread, u32::MAX)?))
}

fn read_optional_image(
    alloc: Global,
    unread: &mut Unread<'_>,
    space: u64,
    version: u8,
) -> Result<Option<Image>, Wrong>
    ensures taken { IfOk result (λ read. TakesField (optional (image_field space version))
        (optional_bytes (image_bytes version) read) unread.old.left.now unread.new.left.now) }
    ensures storable { IfOk result (λ read. IfSome read (IsStorableImage version)) }
    ensures within { IfOk result (λ read. IfSome read (IsWithin space)) }
    ensures wrong { IfErr result (IsWrong (optional (image_field space version)) unread.old.left.now) }
{
    let there = unread.byte(0, 1)?;
    if there == 0 {
        return Ok(None);
    }
    Ok(Some(read_image(alloc, unread, space, version)?))
}

fn read_image(
    alloc: Global,
    unread: &mut Unread<'_>,
    space: u64,
    version: u8,
) -> Result<Image, Wrong>
    ensures taken { IfOk result (λ read. TakesField (image_field space version) (image_bytes version read)
        unread.old.left.now unread.new.left.now) }
    ensures storable { IfOk result (IsStorableImage version) }
    ensures within { IfOk result (IsWithin space) }
    ensures wrong { IfErr result (IsWrong (image_field space version) unread.old.left.now) }
{
    let area = unread.byte(0, 1)?;
    let size = unread.number64(space)?;
    let hash = unread.array()?;
    let when = read_moment(unread, version)?;
    let evidence = read_evidence(alloc, unread)?;
    Ok(Image {
        area,
        size,
        hash,
        when,
        evidence,
    })
}

fn read_optional_committed(
    alloc: Global,
    unread: &mut Unread<'_>,
    version: u8,
) -> Result<Option<Committed>, Wrong>
    ensures taken { IfOk result (λ read. TakesField (optional (committed_field version))
        (optional_bytes (committed_bytes version) read) unread.old.left.now unread.new.left.now) }
    ensures storable { IfOk result (λ read. IfSome read (IsStorableCommitted version)) }
    ensures wrong { IfErr result (IsWrong (optional (committed_field version)) unread.old.left.now) }
{
    let there = unread.byte(0, 1)?;
    if there == 0 {
        return Ok(None);
    }
    Ok(Some(read_committed(alloc, unread, version)?))
}

fn read_committed(alloc: Global, unread: &mut Unread<'_>, version: u8) -> Result<Committed, Wrong>
    ensures taken { IfOk result (λ read. TakesField (committed_field version) (committed_bytes version read)
        unread.old.left.now unread.new.left.now) }
    ensures storable { IfOk result (IsStorableCommitted version) }
    ensures wrong { IfErr result (IsWrong (committed_field version) unread.old.left.now) }
{
    let when = read_moment(unread, version)?;
    let evidence = read_evidence(alloc, unread)?;
    let handling = read_handling(unread)?;
    let pre = read_optional_long(alloc, unread)?;
    let configuration = read_optional_long(alloc, unread)?;
    let post = read_optional_long(alloc, unread)?;
    Ok(Committed {
        when,
        evidence,
        handling,
        pre,
        configuration,
        post,
    })
}

fn read_handling(unread: &mut Unread<'_>) -> Result<Handling, Wrong>
    ensures taken { IfOk result (λ read. TakesField (number w8 0 1) (handling_number read ∷ [])
        unread.old.left.now unread.new.left.now) }
    ensures wrong { IfErr result (IsWrong (number w8 0 1) unread.old.left.now) }
{
    let replaces = unread.byte(0, 1)?;
    if replaces == 0 {
        Ok(Handling::Merge)
    } else {
        Ok(Handling::Replace)
    }
}

fn read_evidence(alloc: Global, unread: &mut Unread<'_>) -> Result<Evidence, Wrong>
    ensures taken { IfOk result (λ read. TakesField evidence_field (evidence_bytes read)
        unread.old.left.now unread.new.left.now) }
    ensures storable { IfOk result IsStorableEvidence }
    ensures wrong { IfErr result (IsWrong evidence_field unread.old.left.now) }
{
    let ci = read_long(alloc, unread, u32::MAX)?;
    let oc = read_optional_long(alloc, unread)?;
    let ov = read_optional_long(alloc, unread)?;
    Ok(Evidence { ci, oc, ov })
}

fn read_moment(unread: &mut Unread<'_>, version: u8) -> Result<Moment, Wrong>
    ensures taken { IfOk result (λ read. TakesField (moment_field version) (moment_bytes version read)
        unread.old.left.now unread.new.left.now) }
    ensures storable { IfOk result (IsStorableMoment version) }
    ensures wrong { IfErr result (IsWrong (moment_field version) unread.old.left.now) }
{
    let time = read_time(unread)?;
    let nonce = read_nonce(unread, version)?;
    Ok(Moment { time, nonce })
}

fn read_time(unread: &mut Unread<'_>) -> Result<Seconds, Wrong>
    ensures taken { IfOk result (λ read. TakesField (bytes 8) (time_bytes read.0)
        unread.old.left.now unread.new.left.now) }
    ensures wrong { IfErr result (IsWrong (bytes 8) unread.old.left.now) }
{
    let number = u64::from_be_bytes(unread.array()?);
    Ok(Seconds(number.cast_signed()))
}

// none in the older version
fn read_nonce(unread: &mut Unread<'_>, version: u8) -> Result<Option<[u8; 16]>, Wrong>
    ensures taken { IfOk result (λ read. TakesField (nonce_field version) (nonce_bytes version read)
        unread.old.left.now unread.new.left.now) }
    ensures storable { IfOk result (λ read. version ≡ old_version → read ≡ None) }
    ensures wrong { IfErr result (IsWrong (nonce_field version) unread.old.left.now) }
{
    if version == OLD_VERSION {
        return Ok(None);
    }
    read_optional_nonce(unread)
}

fn read_optional_nonce(unread: &mut Unread<'_>) -> Result<Option<[u8; 16]>, Wrong>
    ensures taken { IfOk result (λ read. TakesField (optional (bytes 16)) (optional_bytes (λ nonce. nonce) read)
        unread.old.left.now unread.new.left.now) }
    ensures wrong { IfErr result (IsWrong (optional (bytes 16)) unread.old.left.now) }
{
    let there = unread.byte(0, 1)?;
    if there == 0 {
        return Ok(None);
    }
    Ok(Some(unread.array()?))
}
