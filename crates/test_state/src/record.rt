//! Stored devices that were spelled by hand, and each kind of wrong byte at its place.

use std::alloc::{AllocError, Global};
use std::test::Fail;
use sz_artifacts::Handling;
use sz_base::{Bytes, Seconds, Text};
use sz_record::{
    Committed, Device, Image, RecordFault, Stage, installed_size, is_storable, onboarded_size,
    read, size, write,
};

const SPACE: u64 = 262_144;

// A device of version 2, by its parts: the version; serial number A1, `os` 1 and two certificates; `os` 2 runs, and an
// image of 3 bytes, `abc`, is in area 1, at 1,700,000,000 seconds with a nonce, by conveyed information and a voucher,
// with no owner certificate; it was committed, two seconds before 1970 without a nonce, by empty conveyed information
// and an owner certificate, to merge, with no script before, a configuration, and a script after.
const SECOND: &[u8] = b"\x02\
    \x00\x02A1\x00\x02os\x00\x011\x02\x00\x00\x00\x02\xca\xfe\x00\x00\x00\x01\xbe\
    \x00\x02os\x00\x012\x01\x01\x00\x00\x00\x00\x00\x00\x00\x03\
    \xba\x78\x16\xbf\x8f\x01\xcf\xea\x41\x41\x40\xde\x5d\xae\x22\x23\
    \xb0\x03\x61\xa3\x96\x17\x7a\x9c\xb4\x10\xff\x61\xf2\x00\x15\xad\
    \x00\x00\x00\x00\x65\x53\xf1\x00\
    \x01\x00\x01\x02\x03\x04\x05\x06\x07\x08\x09\x0a\x0b\x0c\x0d\x0e\x0f\
    \x00\x00\x00\x02ci\x00\x01\x00\x00\x00\x01v\x01\
    \xff\xff\xff\xff\xff\xff\xff\xfe\
    \x00\
    \x00\x00\x00\x00\x01\x00\x00\x00\x01o\x00\x00\x00\x01\x00\x00\x00\x01c\x01\x00\x00\x00\x01p";

// The same of version 1, without nonces.
const FIRST: &[u8] = b"\x01\
    \x00\x02A1\x00\x02os\x00\x011\x02\x00\x00\x00\x02\xca\xfe\x00\x00\x00\x01\xbe\
    \x00\x02os\x00\x012\x01\x01\x00\x00\x00\x00\x00\x00\x00\x03\
    \xba\x78\x16\xbf\x8f\x01\xcf\xea\x41\x41\x40\xde\x5d\xae\x22\x23\
    \xb0\x03\x61\xa3\x96\x17\x7a\x9c\xb4\x10\xff\x61\xf2\x00\x15\xad\
    \x00\x00\x00\x00\x65\x53\xf1\x00\
    \x00\x00\x00\x02ci\x00\x01\x00\x00\x00\x01v\x01\
    \xff\xff\xff\xff\xff\xff\xff\xfe\
    \x00\x00\x00\x00\x01\x00\x00\x00\x01o\x00\x00\x00\x01\x00\x00\x00\x01c\x01\x00\x00\x00\x01p";

// The device is of this identity, and runs this.
fn is_of_a1(device: &Device) -> bool {
    device.identity.serial.as_slice() == b"A1".as_slice()
        && device.identity.os_version.as_slice() == b"1".as_slice()
        && device.identity.anchors.len() == 2
        && device.running_name.as_slice() == b"os".as_slice()
        && device.running_version.as_slice() == b"2".as_slice()
}

// The image is that of the parts, with this nonce.
fn is_the_image(image: &Image, nonce: Option<[u8; 16]>) -> bool {
    (image.area, image.size, image.hash[31]) == (1, 3, 0xAD)
        && image.when.time == Seconds(1_700_000_000)
        && image.when.nonce == nonce
        && image.evidence.ci.as_slice() == b"ci".as_slice()
        && image.evidence.oc.is_none()
}

// What the device was committed to is that of the parts.
fn is_committed(committed: &Committed) -> bool {
    committed.when.time == Seconds(-2)
        && committed.when.nonce.is_none()
        && committed.handling == Handling::Merge
        && committed.pre.is_none()
}

// The device has the values of the parts, with this nonce of its image.
fn is_the_device(device: &Device, nonce: Option<[u8; 16]>) -> bool {
    match (&device.image, &device.onboarded) {
        (Some(image), Some(committed)) => {
            is_of_a1(device) && is_the_image(image, nonce) && is_committed(committed)
        }
        _ => false,
    }
}

const DRAWN: [u8; 16] = [0, 1, 2, 3, 4, 5, 6, 7, 8, 9, 10, 11, 12, 13, 14, 15];

// The payload is read as the device, with this nonce of its image, whose stored form has this size.
fn is_read(alloc: Global, payload: &[u8], nonce: Option<[u8; 16]>, stored: u64) -> bool {
    match read(alloc, SPACE, payload) {
        Ok(device) => {
            is_the_device(&device, nonce)
                && device.stage() == Stage::Onboarded
                && size(&device) == stored
        }
        Err(_) => false,
    }
}

// A payload, the nonce of its image, and the size of the stored form of what is read.
static VERSIONS: [(&[u8], Option<[u8; 16]>, u64); 2] = [
    (SECOND, Some(DRAWN), 146),
    (FIRST, None, 130),
];

#[test]
fn both_versions_are_read(rt: HostRuntime) {
    for &(payload, nonce, stored) in &VERSIONS {
        assert!(rt; is_read(rt.alloc(), payload, nonce, stored));
    }
}

// The device is written as this payload.
fn is_written(alloc: Global, device: &Device, payload: &[u8]) -> bool {
    if !is_storable(device) {
        return false;
    }
    match write(alloc, device) {
        Ok(written) => written.as_slice() == payload,
        Err(_) => false,
    }
}

// What is read of the payload is written as it.
fn is_rewritten(alloc: Global, payload: &[u8]) -> bool {
    match read(alloc, SPACE, payload) {
        Ok(device) => is_written(alloc, &device, payload),
        Err(_) => false,
    }
}

#[test]
fn the_second_version_is_written(rt: HostRuntime) {
    assert!(rt; is_rewritten(rt.alloc(), SECOND));
}

// A place in the second version, the byte that is put there, and the place of the first wrong byte.
static WRONG_BYTES: [(usize, u8, usize); 27] = [
    // The version, 0 and 3.
    (0, 0, 0),
    (0, 3, 0),
    // A nonce, or lengths past the end.
    (0, 1, 146),
    (24, 255, 146),
    (98, 255, 146),
    // A serial number that is empty, too long, longer than the payload, begins with a point, has a blank.
    (2, 0, 1),
    (2, 65, 1),
    (1, 1, 1),
    (3, b'.', 1),
    (4, b' ', 1),
    // A name of more than 256 bytes.
    (5, 2, 5),
    (9, 1, 9),
    // No certificate, nine, and one of more than 65,536 bytes.
    (12, 0, 12),
    (12, 9, 12),
    (13, 1, 13),
    (20, 255, 19),
    // Whether there is an image, and its area and its size.
    (31, 2, 31),
    (32, 2, 32),
    (33, 1, 33),
    (38, 4, 33),
    // Whether there is a nonce, an owner certificate, a voucher.
    (81, 2, 81),
    (104, 2, 104),
    (105, 7, 105),
    // Whether it was committed, and how the configuration is taken.
    (111, 255, 111),
    (120, 2, 120),
    (132, 2, 132),
    (133, 2, 133),
];

// The first wrong byte of the payload is this one.
fn is_wrong(alloc: Global, payload: &[u8], place: usize, value: u8) -> bool {
    read(alloc, SPACE, payload).err() == Some(RecordFault::BadRecord { place, value })
}

// The second version with this byte at a place.
fn with_byte(alloc: Global, at: usize, byte: u8) -> Result<Vec<u8>, AllocError> {
    let mut bytes = SECOND.to_vec(alloc)?;
    if at < bytes.len() {
        bytes[at] = byte;
    }
    Ok(bytes)
}

#[test]
fn the_first_wrong_byte_is_told(rt: HostRuntime) -> Result<(), Fail> {
    for &(at, byte, place) in &WRONG_BYTES {
        let bytes = with_byte(rt.alloc(), at, byte)?;
        let value = if place == at { byte } else { 0 };
        assert!(rt; is_wrong(rt.alloc(), bytes.as_slice(), place, value));
    }
    Ok(())
}

// Where the second version is cut off.
const ENDS: [usize; 13] = [0, 1, 2, 4, 12, 14, 18, 36, 60, 76, 90, 111, 145];

#[test]
fn an_early_end_and_a_rest_are_told(rt: HostRuntime) -> Result<(), Fail> {
    for &end in &ENDS {
        let front = SECOND.get(..end).ok_or("the form is shorter")?;
        assert!(rt; is_wrong(rt.alloc(), front, end, 0));
    }
    let mut longer = Bytes::from_slice(rt.alloc(), SECOND)?;
    longer.append(b"\x07\x08")?;
    assert!(rt; is_wrong(rt.alloc(), longer.as_slice(), 146, 7));
    Ok(())
}

// The sizes once `os` 22 runs by the image's evidence, and once the device is committed anew by it.
fn sizes_of_what_follows(device: &Device) -> Option<(u64, u64)> {
    let image = device.image.as_ref()?;
    let done = device.onboarded.as_ref()?;
    let installed = installed_size(device, b"os", b"22", &done.when, &image.evidence);
    let onboarded = onboarded_size(
        device,
        &image.when,
        &image.evidence,
        &done.pre,
        &done.post,
        &done.post,
    );
    Some((installed, onboarded))
}

// What follows the second version has these sizes.
fn is_followed_by(alloc: Global, installed: u64, onboarded: u64) -> bool {
    match read(alloc, SPACE, SECOND) {
        Ok(device) => sizes_of_what_follows(&device) == Some((installed, onboarded)),
        Err(_) => false,
    }
}

#[test]
fn sizes_of_what_follows_are_told(rt: HostRuntime) {
    assert!(rt; is_followed_by(rt.alloc(), 146 + 1 - 16, 146 + 16 + 2));
}

#[test]
fn a_name_of_65536_bytes_has_no_stored_form(rt: HostRuntime) -> Result<(), Fail> {
    let mut device = read(rt.alloc(), SPACE, SECOND)?;
    for (length, storable) in [(65_535, true), (65_536, false)] {
        device.running_name = Text::from_vec(vec![in rt.alloc(); b'o'; length]?);
        assert!(rt; is_storable(&device) == storable);
    }
    Ok(())
}
