//! Audits of devices on disks in memory: what is found of their images and of what they were committed to.

use std::alloc::Global;
use std::test::Fail;
use sz_artifacts::Handling;
use sz_audit::{Found, audit};
use sz_base::{Bytes, Evidence, Text};
use sz_disk::{Disk, MemoryDisk};
use sz_fixtures::disks::{overwrite, put_record};
use sz_fixtures::sources::{NOW, is_reason};
use sz_fixtures::{artifacts, base64, digests, identity};
use sz_record::{Committed, Device, Image, is_storable, write};
use sz_samples::{
    ANCHOR, CERTIFICATES, IMAGED_ANCHOR, IMAGED_CERTIFICATES, IMAGED_INFORMATION, IMAGED_VOUCHER,
    INFORMATION, VOUCHER,
};
use sz_state::layout;

// 2 MiB: a record has at most 32,752 bytes, and the second area begins at 1,048,576.
const SIZE: u64 = 2_097_152;

const CAPACITY: u32 = 32_752;

const AREA: u64 = 1_048_576;

// What a device keeps beside its identity.
enum Kept {
    // what it was committed to with this configuration, by evidence that authorises the configuration of A1
    Configuration(&'static [u8]),
    // an image with the hash of `abc`, by the same evidence with or without the owner certificate
    Unnamed { owner: bool },
    // the same by evidence that names it, and what its area holds
    Named(&'static [u8]),
}

// What is found of one thing.
#[derive(Clone, Copy)]
enum Told {
    Authorised,
    Refused(u8, &'static str),
    OtherFields,
    OtherBytes,
}

// What a device keeps, and what is found of its image and of its configuration.
static AUDITS: [(Kept, Option<Told>, Option<Told>); 6] = [
    (
        Kept::Configuration(b"hostname a1\n"),
        None,
        Some(Told::Authorised),
    ),
    (
        Kept::Configuration(b"hostname a2\n"),
        None,
        Some(Told::OtherFields),
    ),
    (Kept::Unnamed { owner: true }, Some(Told::OtherFields), None),
    (
        Kept::Unnamed { owner: false },
        Some(Told::Refused(15, "NoChain")),
        None,
    ),
    (Kept::Named(b"abc"), Some(Told::Authorised), None),
    (Kept::Named(b"abd"), Some(Told::OtherBytes), None),
];

// Evidence that authorises a configuration and names no image; without the owner certificate it authorises nothing.
fn evidence(alloc: Global, owner: bool) -> Result<Evidence, Fail> {
    let certificates = if owner { Some(CERTIFICATES) } else { None };
    artifacts(alloc, INFORMATION, certificates, VOUCHER)
}

fn imaged_evidence(alloc: Global) -> Result<Evidence, Fail> {
    artifacts(
        alloc,
        IMAGED_INFORMATION,
        Some(IMAGED_CERTIFICATES),
        IMAGED_VOUCHER,
    )
}

fn committed(alloc: Global, configuration: &[u8]) -> Result<Committed, Fail> {
    Ok(Committed {
        when: NOW,
        evidence: evidence(alloc, true)?,
        handling: Handling::Replace,
        pre: None,
        configuration: Some(Bytes::from_slice(alloc, configuration)?),
        post: None,
    })
}

fn image(evidence: Evidence) -> Image {
    Image {
        area: 1,
        size: 3,
        hash: digests::ABC,
        when: NOW,
        evidence,
    }
}

// A device with this certificate, and what it keeps.
fn device(
    alloc: Global,
    anchor: &str,
    image: Option<Image>,
    onboarded: Option<Committed>,
) -> Result<Device, Fail> {
    let identity = identity(alloc, base64(alloc, anchor)?)?;
    let running_name = Text::from_slice(alloc, b"os")?;
    let running_version = Text::from_slice(alloc, b"1")?;
    Ok(Device {
        identity,
        running_name,
        running_version,
        image,
        onboarded,
    })
}

fn device_of(alloc: Global, kept: &Kept) -> Result<Device, Fail> {
    match kept {
        Kept::Configuration(configuration) => {
            device(alloc, ANCHOR, None, Some(committed(alloc, configuration)?))
        }
        Kept::Unnamed { owner } => {
            device(alloc, ANCHOR, Some(image(evidence(alloc, *owner)?)), None)
        }
        Kept::Named(_) => {
            let image = image(imaged_evidence(alloc)?);
            device(alloc, IMAGED_ANCHOR, Some(image), None)
        }
    }
}

// A disk with this device, whose second area begins with these bytes.
fn disk_of(alloc: Global, device: &Device, bytes: &[u8]) -> Result<MemoryDisk, Fail> {
    if !is_storable(device) {
        return Err("a device that is not stored".into());
    }
    let record = write(alloc, device)?;
    let mut disk = MemoryDisk::create(alloc, SIZE)?;
    overwrite(&mut disk, AREA, bytes)?;
    put_record(&mut disk, CAPACITY, record.as_slice())?;
    Ok(disk)
}

fn is_found(found: &Option<Found>, told: Option<Told>) -> bool {
    match (found, told) {
        (None, None) => true,
        (Some(Found::Authorised), Some(Told::Authorised)) => true,
        (Some(Found::Refused(reason)), Some(Told::Refused(number, name))) => {
            is_reason(reason, number, name)
        }
        (Some(Found::OtherFields), Some(Told::OtherFields)) => true,
        (Some(Found::OtherBytes), Some(Told::OtherBytes)) => true,
        _ => false,
    }
}

// Whether the audit of a device that keeps this finds this of its image and of its configuration.
fn finds(
    alloc: Global,
    kept: &Kept,
    image: Option<Told>,
    configuration: Option<Told>,
) -> Result<bool, Fail> {
    let bytes: &[u8] = match kept {
        Kept::Named(bytes) => bytes,
        _ => b"",
    };
    let device = device_of(alloc, kept)?;
    let mut disk = disk_of(alloc, &device, bytes)?;
    if layout(disk.size()).is_none() {
        return Err("a disk without a layout".into());
    }
    let audit = audit(alloc, &mut disk)?;
    Ok(is_found(&audit.image, image) && is_found(&audit.configuration, configuration))
}

#[test]
fn audits_judge_the_evidence_then_compare_what_is_kept(rt: HostRuntime) -> Result<(), Fail> {
    for (kept, image, configuration) in &AUDITS {
        assert!(rt; finds(rt.alloc(), kept, *image, *configuration)?);
    }
    Ok(())
}
