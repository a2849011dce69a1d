//! A device that is made, installed and onboarded on a disk in memory, whatever call of the disk is cut or fails.

ghost use Rattle.std.specs.Prelude.{◌≡◌, ◌≤◌, length, IfOk, IfSome, Some};
ghost use Rattle.sz_state.specs.Change.{HasShortNames, NamesImage};
ghost use Rattle.sz_state.specs.Held.{IsHeld};
ghost use Rattle.sz_state.specs.Layout.{space_of};
ghost use Rattle.sz_state.specs.Step.{other_area};

use super::{make_with, moment};
use std::alloc::Global;
use std::process::Abort;
use std::test::Fail;
use sz_artifacts::{BootImage, Handling, Onboarding};
use sz_base::{Bytes, Failed, OutOfMemory, Text, Texts};
use sz_disk::{Disk, MemoryDisk, Room};
use sz_fixtures::disks::{SIZE, find, holds, overwrite, put_record};
use sz_fixtures::offers::{evidence, information};
use sz_fixtures::{calls, digests};
use sz_record::Stage;
use sz_state::{Held, Staged, StateFault, fits, install, is_satisfied, onboard, staging};

const IMAGE: [u8; 5] = *b"image";

// A number of calls that no step reaches: the first makes 15, and the others 12.
const CALLS: u64 = 16;

// Puts the bytes of an image into the area that the device does not use.
fn stage<D: Disk>(held: &Held, disk: &mut D, image: &[u8]) -> Result<Staged, Failed>
    requires held { IsHeld (D.seen disk.old) held.now }
    requires fits { length image.now ≤ space_of (D.seen disk.old).size }
    ensures held { IsHeld (D.seen disk.new) held.now }
    ensures area { IfOk result (λ staged. staged.area ≡ other_area held.now.device.image) }
    ensures size { IfOk result (λ staged. staged.size ≡ length image.now) }
    ensures room { (D.seen disk.new).size ≡ (D.seen disk.old).size }
{
    let mut room = staging(held, disk);
    room.put(image)?;
    room.finish()
}

// Information that names version 2 of what runs, with the image's hash.
fn newer_version(alloc: Global) -> Result<Onboarding, OutOfMemory>
    ensures names { IfOk result NamesImage }
    ensures short { IfOk result (λ onboarding. IfSome onboarding.image HasShortNames) }
    ensures hash { IfOk result (λ onboarding.
        IfSome onboarding.image (λ boot. IfSome boot.hash (λ hash. length hash ≡ 32))) }
{
    let os_version = Text::from_slice(alloc, b"2")?;
    let uris = Texts::create(alloc);
    let hash = digests::IMAGE;
    Ok(Onboarding {
        image: Some(BootImage {
            os_name: None,
            os_version: Some(os_version),
            uris,
            hash: Some(hash),
        }),
        handling: Handling::Merge,
        pre: None,
        configuration: None,
        post: None,
    })
}

// Puts the staged image in place.
fn put_in_place<D: Disk>(
    rt: &impl Abort,
    alloc: Global,
    held: Held,
    disk: &mut D,
    staged: Staged,
    onboarding: &Onboarding,
) -> Result<Held, StateFault>
    requires held { IsHeld (D.seen disk.old) held }
    requires area { staged.area ≡ other_area held.device.image }
    requires size { staged.size ≡ 5 }
    requires names { NamesImage onboarding.now }
    requires short { IfSome onboarding.now.image HasShortNames }
    requires hash { IfSome onboarding.now.image (λ boot. IfSome boot.hash (λ hash. length hash ≡ 32)) }
{
    let evidence = evidence(alloc)?;
    let when = moment(Some([9; 16]));
    assert!(rt; held.device.onboarded.is_none());
    assert!(rt; !is_satisfied(&held.device, onboarding));
    assert!(rt; fits(&held, onboarding, &evidence, &when).is_none());
    install(alloc, held, disk, staged, onboarding, evidence, when)
}

fn commit<D: Disk>(
    rt: &impl Abort,
    alloc: Global,
    held: Held,
    disk: &mut D,
) -> Result<Held, StateFault>
    requires { IsHeld (D.seen disk.old) held }
{
    let onboarding = information(alloc, None, 3)?;
    let evidence = evidence(alloc)?;
    let when = moment(None);
    assert!(rt; held.device.onboarded.is_none());
    assert!(rt; is_satisfied(&held.device, &onboarding));
    assert!(rt; fits(&held, &onboarding, &evidence, &when).is_none());
    onboard(alloc, held, disk, onboarding, evidence, when)
}

// Stages an image, and puts it in place.
fn upgrade<D: Disk>(
    rt: &impl Abort,
    alloc: Global,
    held: Held,
    disk: &mut D,
) -> Result<Held, StateFault>
    requires { IsHeld (D.seen disk.old) held }
{
    assert!(rt; disk.size() == SIZE);
    let staged = stage(&held, disk, &IMAGE)?;
    let onboarding = newer_version(alloc)?;
    put_in_place(rt, alloc, held, disk, staged, &onboarding)
}

// The next step of a disk: it is made, an image is put in place, and the device is committed.
fn advance<D: Disk>(rt: &impl Abort, alloc: Global, disk: &mut D) -> Result<Held, StateFault> {
    match find(alloc, disk) {
        Err(StateFault::NotInitialised) => {
            make_with(alloc, disk, 3)?;
            find(alloc, disk)
        }
        Err(fault) => Err(fault),
        Ok(held) => match held.device.stage() {
            Stage::Factory => upgrade(rt, alloc, held, disk),
            Stage::Installed => commit(rt, alloc, held, disk),
            Stage::Onboarded => Ok(held),
        },
    }
}

// A disk that took so many steps.
fn disk_after(rt: &impl Abort, alloc: Global, steps: usize) -> Result<MemoryDisk, Fail> {
    let mut disk = MemoryDisk::create(alloc, SIZE)?;
    for _ in 0..steps {
        advance(rt, alloc, &mut disk)?;
    }
    Ok(disk.power_up())
}

// How many steps a disk took, on which an image is in place from the second on.
fn steps_of(alloc: Global, disk: &mut MemoryDisk) -> Result<usize, Fail> {
    let held = match find(alloc, disk) {
        Ok(held) => held,
        Err(StateFault::NotInitialised) => return Ok(0),
        Err(fault) => return Err(fault.into()),
    };
    if held.device.image.is_none() {
        return Ok(1);
    }
    if !holds(alloc, disk, 262_144, &IMAGE)? || !is_upgraded(&held) {
        return Err("an image that is not in place".into());
    }
    Ok(if held.device.onboarded.is_some() {
        3
    } else {
        2
    })
}

// The device runs version 2, by the image in the first area.
fn is_upgraded(held: &Held) -> bool {
    let Some(image) = &held.device.image else {
        return false;
    };
    image.hash == digests::IMAGE
        && (image.area, image.size) == (0, 5)
        && held.device.running_version.as_slice() == b"2".as_slice()
}

// Whether the step after these comes to nothing or is taken, on a disk that is cut at a call, where a choice of what
// the cut leaves is given, and else fails there.
fn is_whole_step(
    rt: &impl Abort,
    alloc: Global,
    before: usize,
    call: u64,
    cut: Option<u64>,
) -> Result<bool, Fail> {
    let mut disk = disk_after(rt, alloc, before)?;
    match cut {
        Some(choice) => disk.cut_at(call, choice),
        None => disk.fail_at(calls(alloc, call)?),
    }
    let fault = advance(rt, alloc, &mut disk).err();
    disk.fail_at(calls(alloc, 0)?);
    let mut disk = match cut {
        Some(_) => disk.power_up(),
        None => disk,
    };
    let steps = steps_of(alloc, &mut disk)?;
    Ok(steps == before.saturating_add(1) || (steps == before && fault == Some(StateFault::Failed)))
}

#[test]
fn a_cut_or_failed_call_leaves_the_device_before_or_after(rt: HostRuntime) -> Result<(), Fail> {
    for before in [0, 1, 2] {
        for call in 1..=CALLS {
            for cut in [Some(0), Some(1), Some(2), Some(4), None] {
                assert!(rt; is_whole_step(&rt, rt.alloc(), before, call, cut)?);
            }
        }
    }
    Ok(())
}

// A stored form of version 1, before and behind the hash: version 2 runs, by an image of 5 bytes in area 0.
const OLDER_FRONT: &[u8] =
    b"\x01\x00\x02A1\x00\x02os\x00\x011\x01\x00\x00\x00\x01\x07\x00\x02os\x00\x012\
\x01\x00\x00\x00\x00\x00\x00\x00\x00\x05";

const OLDER_BACK: &[u8] = b"\x00\x00\x00\x00\x65\x53\xf1\x00\x00\x00\x00\x01c\x00\x00\x00";

// A disk whose record has version 1.
fn older_disk(alloc: Global) -> Result<MemoryDisk, Fail> {
    let mut payload = Bytes::from_slice(alloc, OLDER_FRONT)?;
    payload.append(&digests::IMAGE)?;
    payload.append(OLDER_BACK)?;
    let mut disk = MemoryDisk::create(alloc, SIZE)?;
    overwrite(&mut disk, 262_144, &IMAGE)?;
    put_record(&mut disk, 16_368, payload.as_slice())?;
    Ok(disk.power_up())
}

// The disk as a cut of this choice leaves it at the ninth call of the device's commitment, which writes the gate.
fn cut_at_gate(
    rt: &impl Abort,
    alloc: Global,
    mut disk: MemoryDisk,
    choice: u64,
) -> Result<MemoryDisk, Fail> {
    disk.cut_at(9, choice);
    let held = find(alloc, &mut disk)?;
    let fault = commit(rt, alloc, held, &mut disk).err();
    if fault != Some(StateFault::Failed) {
        return Err("a commitment that was not cut".into());
    }
    Ok(disk.power_up())
}

// Whether the record that is replaced has version 1, the choice of the cut, how far the device has come then, and
// where the payload of its record begins with which version.
static GATES: [(bool, u64, Stage, u64, u8); 4] = [
    (false, 0, Stage::Factory, 16, 2),
    (false, 1, Stage::Onboarded, 16_400, 2),
    (true, 0, Stage::Installed, 16, 1),
    (true, 1, Stage::Onboarded, 16_400, 2),
];

#[test]
fn the_gate_decides_which_record_is_read(rt: HostRuntime) -> Result<(), Fail> {
    let alloc = rt.alloc();
    for &(older, choice, stage, payload, version) in &GATES {
        let disk = match older {
            true => older_disk(alloc)?,
            false => disk_after(&rt, alloc, 1)?,
        };
        let mut disk = cut_at_gate(&rt, alloc, disk, choice)?;
        assert!(rt; find(alloc, &mut disk)?.device.stage() == stage);
        assert!(rt; holds(alloc, &mut disk, payload, &[version])?);
    }
    Ok(())
}
