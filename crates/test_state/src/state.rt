//! A device on a disk in memory: made and found, each refusal at its place, and whether a record fits.

use std::alloc::Global;
use std::test::Fail;
use sz_base::{Moment, Seconds, Texts};
use sz_disk::{Disk, MemoryDisk};
use sz_fixtures::disks::{SIZE, find, make, overwrite, zeros};
use sz_fixtures::identity;
use sz_fixtures::offers::{boot_image, evidence, information};
use sz_record::Stage;
use sz_state::{Held, StateFault, fits, layout};

mod steps;

// What a slot holds, and where the two areas begin.
type Places = (u32, u64, u64);

static LAYOUTS: [(u64, Option<Places>); 6] = [
    (SIZE - 64, None),
    (SIZE, Some((16_368, 262_144, 524_288))),
    (SIZE + 32, None),
    (8_388_608, Some((131_056, 2_097_152, 4_194_304))),
    (
        68_719_476_736,
        Some((1_073_741_808, 17_179_869_184, 34_359_738_368)),
    ),
    (68_719_476_800, None),
];

fn places_of(size: u64) -> Option<Places> {
    let it = layout(size)?;
    Some((it.cell.capacity, it.areas[0], it.areas[1]))
}

#[test]
fn layouts_are_those_of_their_sizes(rt: HostRuntime) {
    for &(size, places) in &LAYOUTS {
        assert!(rt; places_of(size) == places);
    }
}

// Makes a disk stand for a device whose certificate has so many bytes; its record has 26 bytes more.
fn make_with<D: Disk>(alloc: Global, disk: &mut D, anchor: usize) -> Result<(), StateFault> {
    let Ok(identity) = identity(alloc, zeros(alloc, anchor)?) else {
        return Err(StateFault::OutOfMemory);
    };
    make(alloc, disk, &identity)
}

#[test]
fn a_disk_is_made_once_and_found(rt: HostRuntime) -> Result<(), Fail> {
    let alloc = rt.alloc();
    let mut disk = MemoryDisk::create(alloc, SIZE)?;
    let fault = find(alloc, &mut disk).err();
    assert!(rt; fault == Some(StateFault::NotInitialised));
    make_with(alloc, &mut disk, 3)?;
    let held = find(alloc, &mut disk)?;
    assert!(rt; is_made(&held));
    let fault = make_with(alloc, &mut disk, 3).err();
    assert!(rt; fault == Some(StateFault::InUse { slot: 0 }));
    Ok(())
}

fn is_made(held: &Held) -> bool {
    held.device.stage() == Stage::Factory
        && held.device.running_version.as_slice() == b"1".as_slice()
        && held.device.identity.serial.as_slice() == b"A1".as_slice()
}

#[test]
fn the_greatest_record_fits_and_the_next_does_not(rt: HostRuntime) -> Result<(), Fail> {
    let alloc = rt.alloc();
    let mut disk = MemoryDisk::create(alloc, SIZE)?;
    let fault = make_with(alloc, &mut disk, 16_343).err();
    assert!(rt; fault == Some(StateFault::TooLarge { size: 16_369 }) && disk.calls() == 0);
    Ok(make_with(alloc, &mut disk, 16_342)?)
}

// The place of a byte, another byte, and how the device is told to be damaged by it. The payload stands from 16 on.
static DAMAGES: [(u64, u8, StateFault); 4] = [
    // the version, and the number of certificates
    (16, 3, StateFault::BadRecord { place: 0, value: 3 }),
    (
        28,
        9,
        StateFault::BadRecord {
            place: 12,
            value: 9,
        },
    ),
    // a length that leaves out the last byte, and one over the capacity
    (
        12,
        28,
        StateFault::BadRecord {
            place: 28,
            value: 0,
        },
    ),
    (
        11,
        64,
        StateFault::Damaged {
            slot: 0,
            sequence: 1,
            length: 16_413,
        },
    ),
];

fn fault_by(alloc: Global, at: u64, byte: u8) -> Result<Option<StateFault>, Fail> {
    let mut disk = MemoryDisk::create(alloc, SIZE)?;
    make_with(alloc, &mut disk, 3)?;
    overwrite(&mut disk, at, &[byte])?;
    Ok(find(alloc, &mut disk).err())
}

#[test]
fn a_wrong_byte_is_told_at_its_place(rt: HostRuntime) -> Result<(), Fail> {
    for &(at, byte, fault) in &DAMAGES {
        assert!(rt; fault_by(rt.alloc(), at, byte)? == Some(fault));
    }
    Ok(())
}

// The moment's nonce, whether the information has a boot image, the bytes of its configuration, and the size of a
// record that does not fit. The record of the device has 29 bytes; committed it has 8 more for a time, 1 or 17 for a
// nonce, 8 for the evidence, 1 for how the configuration is taken, 7 for what is absent and for lengths, and the
// configuration.
static SIZES: [(Option<[u8; 16]>, bool, usize, Option<u64>); 5] = [
    (None, false, 16_314, None),
    (None, false, 16_315, Some(16_369)),
    (Some([9; 16]), false, 16_298, None),
    (Some([9; 16]), false, 16_299, Some(16_369)),
    (None, true, 20_000, None),
];

fn moment(nonce: Option<[u8; 16]>) -> Moment {
    Moment {
        time: Seconds(0),
        nonce,
    }
}

// The size of the device's next record, where it does not fit.
fn size_over(
    alloc: Global,
    held: &Held,
    nonce: Option<[u8; 16]>,
    imaged: bool,
    configuration: usize,
) -> Result<Option<u64>, Fail> {
    let image = match imaged {
        true => Some(boot_image(alloc, b"2", Texts::create(alloc), Some([7; 32]))?),
        false => None,
    };
    let onboarding = information(alloc, image, configuration)?;
    Ok(fits(held, &onboarding, &evidence(alloc)?, &moment(nonce)))
}

#[test]
fn what_fits_counts_the_moment(rt: HostRuntime) -> Result<(), Fail> {
    let alloc = rt.alloc();
    let mut disk = MemoryDisk::create(alloc, SIZE)?;
    make_with(alloc, &mut disk, 3)?;
    let held = find(alloc, &mut disk)?;
    for &(nonce, imaged, configuration, size) in &SIZES {
        assert!(rt; size_over(alloc, &held, nonce, imaged, configuration)? == size);
    }
    Ok(())
}
