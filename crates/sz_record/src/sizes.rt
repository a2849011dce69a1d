//! How long stored forms are, without making one.

ghost use Rattle.std.specs.Prelude.{◌≡◌, length, sum, Some};
ghost use Rattle.sz_artifacts.specs.declared.conveyed.onboarding.Handling.{Handling as SomeHandling};
ghost use Rattle.sz_record.specs.Size.{capped, size_of};
ghost use Rattle.sz_record.specs.Spelling.{anchors_bytes, committed_bytes, evidence_bytes, identity_bytes, image_bytes, long_bytes, moment_bytes, new_version, optional_bytes, record_bytes, text_bytes};
ghost use Rattle.sz_record.specs.declared.device.Image.{Image as SomeImage};

use crate::{Committed, Device, Image};
use sz_base::{Bytes, Evidence, Identity, Moment};

/// The size of the stored form of a device, or the greatest u64 where it is larger.
pub fn size(device: &Device) -> u64
    ensures { result ≡ size_of (record_bytes new_version device.now) }
{
    total(&[
        1,
        identity_size(&device.identity),
        text_size(device.running_name.as_slice()),
        text_size(device.running_version.as_slice()),
        optional_image_size(&device.image),
        optional_committed_size(&device.onboarded),
    ])
}

/// The size of the stored form of the device once it runs what is named so, by an image that this moment and this
/// evidence are kept with, or the greatest u64 where it is larger.
pub fn installed_size(
    device: &Device,
    name: &[u8],
    version: &[u8],
    when: &Moment,
    evidence: &Evidence,
) -> u64
    ensures { (image : SomeImage) → length image.hash ≡ 32 → image.when ≡ when.now → image.evidence ≡ evidence.now
        → result ≡ size_of (record_bytes new_version (record device.now {
          running_name = name.now;
          running_version = version.now;
          image = Some image;
        })) }
{
    total(&[
        1,
        identity_size(&device.identity),
        text_size(name),
        text_size(version),
        1,
        image_size(&[0; 32], when, evidence),
        optional_committed_size(&device.onboarded),
    ])
}

/// The size of the stored form of the device once it is committed to this, or the greatest u64 where it is larger.
pub fn onboarded_size(
    device: &Device,
    when: &Moment,
    evidence: &Evidence,
    pre: &Option<Bytes>,
    configuration: &Option<Bytes>,
    post: &Option<Bytes>,
) -> u64
    ensures { (handling : SomeHandling) → result ≡ size_of (record_bytes new_version (record device.now {
      onboarded = Some (record {
        when = when.now;
        evidence = evidence.now;
        handling = handling;
        pre = pre.now;
        configuration = configuration.now;
        post = post.now;
      });
    })) }
{
    total(&[
        1,
        identity_size(&device.identity),
        text_size(device.running_name.as_slice()),
        text_size(device.running_version.as_slice()),
        optional_image_size(&device.image),
        1,
        committed_size(when, evidence, pre, configuration, post),
    ])
}

fn total(parts: &[u64]) -> u64
    ensures { result ≡ capped (sum parts.now) }
{
    let mut total: u64 = 0;
    for part in parts {
        total = total.saturating_add(*part);
    }
    total
}

fn identity_size(identity: &Identity) -> u64
    ensures { result ≡ size_of (identity_bytes identity.now) }
{
    total(&[
        text_size(identity.serial.as_slice()),
        text_size(identity.os_name.as_slice()),
        text_size(identity.os_version.as_slice()),
        anchors_size(identity.anchors.as_slice()),
    ])
}

fn anchors_size(anchors: &[Bytes]) -> u64
    ensures { result ≡ size_of (anchors_bytes anchors.now) }
{
    let mut size: u64 = 1;
    for anchor in anchors {
        size = size.saturating_add(long_size(anchor.as_slice()));
    }
    size
}

fn bytes_size(bytes: &[u8]) -> u64
    ensures { result ≡ size_of bytes.now }
{
    bytes.len() as u64
}

fn text_size(text: &[u8]) -> u64
    ensures { result ≡ size_of (text_bytes text.now) }
{
    (text.len() as u64).saturating_add(2)
}

fn long_size(long: &[u8]) -> u64
    ensures { result ≡ size_of (long_bytes long.now) }
{
    (long.len() as u64).saturating_add(4)
}

fn optional_long_size(long: &Option<Bytes>) -> u64
    ensures { result ≡ size_of (optional_bytes long_bytes long.now) }
{
    match long {
        None => 1,
        Some(long) => long_size(long.as_slice()).saturating_add(1),
    }
}

fn moment_size(moment: &Moment) -> u64
    ensures { result ≡ size_of (moment_bytes new_version moment.now) }
{
    match &moment.nonce {
        None => 9,
        Some(nonce) => bytes_size(nonce).saturating_add(9),
    }
}

fn evidence_size(evidence: &Evidence) -> u64
    ensures { result ≡ size_of (evidence_bytes evidence.now) }
{
    total(&[
        long_size(evidence.ci.as_slice()),
        optional_long_size(&evidence.oc),
        optional_long_size(&evidence.ov),
    ])
}

// of an image whose hash has as many bytes as this one
fn image_size(hash: &[u8], when: &Moment, evidence: &Evidence) -> u64
    ensures { (image : SomeImage) → length image.hash ≡ length hash.now → image.when ≡ when.now
        → image.evidence ≡ evidence.now → result ≡ size_of (image_bytes new_version image) }
{
    total(&[
        1,
        8,
        bytes_size(hash),
        moment_size(when),
        evidence_size(evidence),
    ])
}

fn optional_image_size(image: &Option<Image>) -> u64
    ensures { result ≡ size_of (optional_bytes (image_bytes new_version) image.now) }
{
    match image {
        None => 1,
        Some(image) => image_size(&image.hash, &image.when, &image.evidence).saturating_add(1),
    }
}

fn committed_size(
    when: &Moment,
    evidence: &Evidence,
    pre: &Option<Bytes>,
    configuration: &Option<Bytes>,
    post: &Option<Bytes>,
) -> u64
    ensures { (handling : SomeHandling) → result ≡ size_of (committed_bytes new_version (record {
      when = when.now;
      evidence = evidence.now;
      handling = handling;
      pre = pre.now;
      configuration = configuration.now;
      post = post.now;
    })) }
{
    total(&[
        moment_size(when),
        evidence_size(evidence),
        1,
        optional_long_size(pre),
        optional_long_size(configuration),
        optional_long_size(post),
    ])
}

fn optional_committed_size(committed: &Option<Committed>) -> u64
    ensures { result ≡ size_of (optional_bytes (committed_bytes new_version) committed.now) }
{
    match committed {
        None => 1,
        Some(committed) => committed_size(
            &committed.when,
            &committed.evidence,
            &committed.pre,
            &committed.configuration,
            &committed.post,
        )
        .saturating_add(1),
    }
}
