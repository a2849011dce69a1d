//! The writer of stored devices.

ghost use Rattle.std.specs.Prelude.{◌≡◌, ◌≤◌, length, IfOk, IfSome, OnOk};
ghost use Rattle.std.specs.List.{All};
ghost use Rattle.sz_base.specs.Identity.{IsWhole, most_anchors, most_anchor_bytes};
ghost use Rattle.sz_record.specs.Appended.{Appends};
ghost use Rattle.sz_record.specs.Spelling.{anchors_bytes, committed_bytes, evidence_bytes, handling_number, identity_bytes, image_bytes, long_bytes, moment_bytes, new_version, optional_bytes, record_bytes, text_bytes};
ghost use Rattle.sz_record.specs.Stored.{IsLong, IsStorable, IsStorableCommitted, IsStorableEvidence, IsStorableImage, most_name_bytes};

use crate::reading::NEW_VERSION;
use crate::{Committed, Device, Image, size};
use std::alloc::Global;
use sz_artifacts::Handling;
use sz_base::{Bytes, Certs, Evidence, Identity, Moment, OutOfMemory};

/// The stored form of a device, of version 2. Takes the memory for all of it at once.
pub fn write(alloc: Global, device: &Device) -> Result<Bytes, OutOfMemory>
    requires { IsStorable new_version device.now }
    ensures { IfOk result (λ written. written ≡ record_bytes new_version device.now) }
{
    let mut out = Bytes::from_vec(Vec::with_capacity(alloc, size(device) as usize)?);
    out.push(NEW_VERSION)?;
    put_identity(&mut out, &device.identity)?;
    put_text(&mut out, device.running_name.as_slice())?;
    put_text(&mut out, device.running_version.as_slice())?;
    put_optional_image(&mut out, &device.image)?;
    put_optional_committed(&mut out, &device.onboarded)?;
    Ok(out)
}

fn put_identity(out: &mut Bytes, identity: &Identity) -> Result<(), OutOfMemory>
    requires { IsWhole identity.now }
    ensures ok { OnOk result (Appends (identity_bytes identity.now) out.old out.new) }
{
    put_text(out, identity.serial.as_slice())?;
    put_text(out, identity.os_name.as_slice())?;
    put_text(out, identity.os_version.as_slice())?;
    put_anchors(out, &identity.anchors)
}

fn put_text(out: &mut Bytes, text: &[u8]) -> Result<(), OutOfMemory>
    requires { length text.now ≤ most_name_bytes }
    ensures ok { OnOk result (Appends (text_bytes text.now) out.old out.new) }
{
    out.append(&(text.len() as u16).to_be_bytes())?;
    out.append(text)
}

fn put_long(out: &mut Bytes, long: &[u8]) -> Result<(), OutOfMemory>
    requires { IsLong long.now }
    ensures ok { OnOk result (Appends (long_bytes long.now) out.old out.new) }
{
    out.append(&(long.len() as u32).to_be_bytes())?;
    out.append(long)
}

fn put_anchors(out: &mut Bytes, anchors: &Certs) -> Result<(), OutOfMemory>
    requires few { length anchors.now ≤ most_anchors }
    requires short { All (λ anchor. length anchor ≤ most_anchor_bytes) anchors.now }
    ensures ok { OnOk result (Appends (anchors_bytes anchors.now) out.old out.new) }
{
    out.push(anchors.len() as u8)?;
    for anchor in anchors.as_slice() {
        put_long(out, anchor.as_slice())?;
    }
    Ok(())
}

fn put_optional_long(out: &mut Bytes, long: &Option<Bytes>) -> Result<(), OutOfMemory>
    requires { IfSome long.now IsLong }
    ensures ok { OnOk result (Appends (optional_bytes long_bytes long.now) out.old out.new) }
{
    match long {
        None => out.push(0),
        Some(long) => {
            out.push(1)?;
            put_long(out, long.as_slice())
        }
    }
}

fn put_moment(out: &mut Bytes, moment: &Moment) -> Result<(), OutOfMemory>
    ensures ok { OnOk result (Appends (moment_bytes new_version moment.now) out.old out.new) }
{
    out.append(&moment.time.0.to_be_bytes())?;
    match &moment.nonce {
        None => out.push(0),
        Some(nonce) => {
            out.push(1)?;
            out.append(nonce)
        }
    }
}

fn put_evidence(out: &mut Bytes, evidence: &Evidence) -> Result<(), OutOfMemory>
    requires { IsStorableEvidence evidence.now }
    ensures ok { OnOk result (Appends (evidence_bytes evidence.now) out.old out.new) }
{
    put_long(out, evidence.ci.as_slice())?;
    put_optional_long(out, &evidence.oc)?;
    put_optional_long(out, &evidence.ov)
}

fn put_optional_image(out: &mut Bytes, image: &Option<Image>) -> Result<(), OutOfMemory>
    requires { IfSome image.now (IsStorableImage new_version) }
    ensures ok { OnOk result (Appends (optional_bytes (image_bytes new_version) image.now) out.old out.new) }
{
    match image {
        None => out.push(0),
        Some(image) => {
            out.push(1)?;
            put_image(out, image)
        }
    }
}

fn put_image(out: &mut Bytes, image: &Image) -> Result<(), OutOfMemory>
    requires { IsStorableImage new_version image.now }
    ensures ok { OnOk result (Appends (image_bytes new_version image.now) out.old out.new) }
{
    out.push(image.area)?;
    out.append(&image.size.to_be_bytes())?;
    out.append(&image.hash)?;
    put_moment(out, &image.when)?;
    put_evidence(out, &image.evidence)
}

fn put_optional_committed(out: &mut Bytes, committed: &Option<Committed>) -> Result<(), OutOfMemory>
    requires { IfSome committed.now (IsStorableCommitted new_version) }
    ensures ok { OnOk result (Appends (optional_bytes (committed_bytes new_version) committed.now) out.old out.new) }
{
    match committed {
        None => out.push(0),
        Some(committed) => {
            out.push(1)?;
            put_committed(out, committed)
        }
    }
}

fn put_committed(out: &mut Bytes, committed: &Committed) -> Result<(), OutOfMemory>
    requires { IsStorableCommitted new_version committed.now }
    ensures ok { OnOk result (Appends (committed_bytes new_version committed.now) out.old out.new) }
{
    put_moment(out, &committed.when)?;
    put_evidence(out, &committed.evidence)?;
    out.push(handling_number(committed.handling))?;
    put_optional_long(out, &committed.pre)?;
    put_optional_long(out, &committed.configuration)?;
    put_optional_long(out, &committed.post)
}

fn handling_number(handling: Handling) -> u8
    ensures { result ≡ handling_number handling }
{
    match handling {
        Handling::Merge => 0,
        Handling::Replace => 1,
    }
}
