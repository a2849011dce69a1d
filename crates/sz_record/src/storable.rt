//! Which devices have a stored form.

ghost use Rattle.std.specs.Prelude.{◌↔◌, ◌≤◌, length, IfSome, IsTrue};
ghost use Rattle.sz_record.specs.Spelling.{new_version};
ghost use Rattle.sz_record.specs.Stored.{IsLong, IsStorable, IsStorableCommitted, IsStorableEvidence, IsStorableImage, most_name_bytes};

use crate::{Committed, Device, Image};
use sz_base::{Bytes, Evidence, Text};

/// Whether a device has a stored form of version 2, as `write` wants it: its identity is whole, the names of what runs
/// have at most 65,535 bytes each, and the evidence and each of the other fields of bytes at most 2^32 - 1.
pub fn is_storable(device: &Device) -> bool
    ensures { IsTrue result ↔ IsStorable new_version device.now }
{
    device.identity.is_whole()
        && is_name(&device.running_name)
        && is_name(&device.running_version)
        && is_storable_image(&device.image)
        && is_storable_commitment(&device.onboarded)
}

fn is_name(name: &Text) -> bool
    ensures { IsTrue result ↔ (length name.now ≤ most_name_bytes) }
{
    name.len() <= usize::from(u16::MAX)
}

fn is_storable_image(image: &Option<Image>) -> bool
    ensures { IsTrue result ↔ IfSome image.now (IsStorableImage new_version) }
{
    match image {
        None => true,
        Some(image) => is_storable_evidence(&image.evidence),
    }
}

fn is_storable_commitment(committed: &Option<Committed>) -> bool
    ensures { IsTrue result ↔ IfSome committed.now (IsStorableCommitted new_version) }
{
    match committed {
        None => true,
        Some(committed) => {
            is_storable_evidence(&committed.evidence)
                && is_long_where_there(&committed.pre)
                && is_long_where_there(&committed.configuration)
                && is_long_where_there(&committed.post)
        }
    }
}

fn is_storable_evidence(evidence: &Evidence) -> bool
    ensures { IsTrue result ↔ IsStorableEvidence evidence.now }
{
    is_long(&evidence.ci) && is_long_where_there(&evidence.oc) && is_long_where_there(&evidence.ov)
}

fn is_long(bytes: &Bytes) -> bool
    ensures { IsTrue result ↔ IsLong bytes.now }
{
    bytes.len() <= u32::MAX as usize
}

fn is_long_where_there(bytes: &Option<Bytes>) -> bool
    ensures { IsTrue result ↔ IfSome bytes.now IsLong }
{
    match bytes {
        None => true,
        Some(bytes) => is_long(bytes),
    }
}
