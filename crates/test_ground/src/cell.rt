//! Tests of sz_cell: a cell on a disk in memory, with its bytes, its calls, and what is left when any one of them is
//! cut or fails.

use crate::disk::{calls, read, write};
use std::alloc::Global;
use std::test::Fail;
use sz_cell::{AttachFault, FormatFault, Region, attach, format};
use sz_disk::{Disk, MemoryDisk};

const REGION: Region = Region {
    at: 0,
    capacity: 48,
};

// How many bytes a disk has: those of the region.
const SIZE: u64 = 128;

// The values that are written one after another, with their lengths. At first there is none.
static VALUES: [([u8; 3], usize); 4] = [
    ([0, 0, 0], 0),
    ([0xAB, 0, 0], 1),
    ([0xCD, 0xEF, 0], 2),
    ([1, 2, 3], 3),
];

// Makes a cell, attaches it and replaces its value twice, up to the first refusal. Says how many values were
// written.
fn values_written(disk: &mut MemoryDisk) -> Result<usize, Fail> {
    if disk.size() != SIZE {
        return Err("another size".into());
    }
    let Ok(_) = format(disk, REGION, &[0xAB]) else {
        return Ok(0);
    };
    let Ok(ready) = attach(disk, REGION) else {
        return Ok(1);
    };
    let Ok(ready) = ready.replace(disk, &[0xCD, 0xEF]) else {
        return Ok(1);
    };
    let Ok(_) = ready.replace(disk, &[1, 2, 3]) else {
        return Ok(2);
    };
    Ok(3)
}

// The value of the cell, with its length.
fn value_of(disk: &mut MemoryDisk) -> Result<([u8; 3], usize), Fail> {
    if disk.size() != SIZE {
        return Err("another size".into());
    }
    let mut bytes = [0; 3];
    let ready = match attach(disk, REGION) {
        Ok(ready) => ready,
        Err(AttachFault::NotFormatted) => return Ok((bytes, 0)),
        Err(fault) => return Err(fault.into()),
    };
    let length = ready.length() as usize;
    if length > 3 {
        return Err("a longer value".into());
    }
    sz_cell::read(&ready, disk, &mut bytes[..length])?;
    Ok((bytes, length))
}

// Whether a call that is cut, by a choice, or that fails, leaves the old or the new value. A run makes 25 calls of the
// disk: 8 to make the cell, 3 to attach it, 6 to replace the value while the other slot is closed, and 8 afterwards.
fn leaves_a_value(alloc: Global, call: u64, choice: Option<u64>) -> Result<bool, Fail> {
    let mut disk = MemoryDisk::create(alloc, SIZE)?;
    match choice {
        Some(choice) => disk.cut_at(call, choice),
        None => disk.fail_at(calls(alloc, &[call])?),
    }
    let written = values_written(&mut disk)?;
    match choice {
        Some(_) => disk = disk.power_up(),
        None => disk.fail_at(calls(alloc, &[])?),
    }
    let found = value_of(&mut disk)?;
    let is_old_or_new = VALUES
        .iter()
        .skip(written)
        .take(2)
        .any(|value| *value == found);
    Ok(is_old_or_new && (written == 3) == (call == 26))
}

#[test]
fn a_call_that_is_cut_or_fails_leaves_the_old_or_the_new_value(
    rt: HostRuntime,
) -> Result<(), Fail> {
    for call in 1..=26 {
        for choice in [Some(0), Some(1), Some(2), Some(4), None] {
            assert!(rt; leaves_a_value(rt.alloc(), call, choice)?);
        }
    }
    Ok(())
}

// How many calls of the disk `clear`, `fill` and `publish` make.
fn calls_of_steps(disk: &mut MemoryDisk) -> Result<[u64; 3], Fail> {
    if disk.size() != SIZE {
        return Err("another size".into());
    }
    let ready = attach(disk, REGION)?;
    let start = disk.calls();
    let cleared = ready.clear(disk)?;
    let clear = disk.calls();
    let filled = cleared.fill(disk, &[7])?;
    let fill = disk.calls();
    let _ready = filled.publish(disk)?;
    let publish = disk.calls();
    Ok([
        clear.saturating_sub(start),
        fill.saturating_sub(clear),
        publish.saturating_sub(fill),
    ])
}

// The first `clear` finds the other gate closed, the second one finds it open.
#[test]
fn a_transition_makes_at_most_three_calls(rt: HostRuntime) -> Result<(), Fail> {
    let mut disk = MemoryDisk::create(rt.alloc(), SIZE)?;
    assert!(rt; disk.size() == SIZE);
    let _ready = format(&mut disk, REGION, &[0xAB])?;
    assert!(rt; calls_of_steps(&mut disk)? == [1, 3, 2]);
    assert!(rt; calls_of_steps(&mut disk)? == [3, 3, 2]);
    Ok(())
}

// Slots as they are written: `A5`, the sequence, the length, three zeros, and the payload. A byte follows that the disk
// held before.
static FIRST: [u8; 18] = [
    0xA5, 0, 0, 0, 0, 0, 0, 0, 1, 0, 0, 0, 1, 0, 0, 0, 0xAB, 0xFF,
];

static SECOND: [u8; 19] = [
    0xA5, 0, 0, 0, 0, 0, 0, 0, 2, 0, 0, 0, 2, 0, 0, 0, 0xCD, 0xEF, 0xFF,
];

static THIRD: [u8; 20] = [
    0xA5, 0, 0, 0, 0, 0, 0, 0, 3, 0, 0, 0, 3, 0, 0, 0, 1, 2, 3, 0xFF,
];

// Whether slot 0, at 0, and slot 1, at 64, begin with these bytes.
fn holds(disk: &mut MemoryDisk, first: &[u8], second: &[u8]) -> Result<bool, Fail> {
    let bytes: [u8; 128] = read(disk, 0)??;
    Ok(bytes.starts_with(first) && bytes[64..].starts_with(second))
}

// The slot of the older value is the next one.
#[test]
fn a_cell_is_spelled_in_two_slots(rt: HostRuntime) -> Result<(), Fail> {
    let mut disk = MemoryDisk::create(rt.alloc(), SIZE)?;
    write(&mut disk, 0, &[0xFF; 128])??;
    assert!(rt; disk.size() == SIZE);
    let ready = format(&mut disk, REGION, &[0xAB])?;
    let _ready = ready.replace(&mut disk, &[0xCD, 0xEF])?;
    assert!(rt; holds(&mut disk, &FIRST, &SECOND)?);
    assert!(rt; disk.size() == SIZE);
    assert!(rt; format(&mut disk, REGION, &[1]).err() == Some(FormatFault::InUse { slot: 0 }));
    assert!(rt; disk.size() == SIZE);
    let ready = attach(&mut disk, REGION)?;
    let _ready = ready.replace(&mut disk, &[1, 2, 3])?;
    assert!(rt; holds(&mut disk, &THIRD, &SECOND)?);
    Ok(())
}

// The last byte of the sequence and of the length in each of two open slots, and which one is damaged, with the same.
static OPEN_SLOTS: [((u8, u8), (u8, u8), Option<(u8, u64, u32)>); 5] = [
    ((1, 49), (2, 1), Some((0, 1, 49))),
    ((2, 1), (1, 49), Some((1, 1, 49))),
    ((3, 1), (3, 2), Some((0, 3, 1))),
    ((3, 1), (3, 49), Some((0, 3, 1))),
    ((2, 48), (5, 0), None),
];

fn damage((slot, sequence, length): (u8, u64, u32)) -> AttachFault {
    AttachFault::Damaged {
        slot,
        sequence,
        length,
    }
}

// Writes the gate of an open slot at a place, and the last bytes of its sequence and its length.
fn open(disk: &mut MemoryDisk, at: u64, (sequence, length): (u8, u8)) -> Result<(), Fail> {
    write(disk, at, &[0xA5])??;
    write(disk, at.saturating_add(8), &[sequence])??;
    write(disk, at.saturating_add(12), &[length])??;
    Ok(())
}

// Why a disk with these open slots has no cell to use.
fn fault_of(alloc: Global, first: (u8, u8), second: (u8, u8)) -> Result<Option<AttachFault>, Fail> {
    let mut disk = MemoryDisk::create(alloc, SIZE)?;
    open(&mut disk, 0, first)?;
    open(&mut disk, 64, second)?;
    if disk.size() != SIZE {
        return Err("another size".into());
    }
    Ok(attach(&mut disk, REGION).err())
}

#[test]
fn a_damaged_slot_is_told(rt: HostRuntime) -> Result<(), Fail> {
    for (first, second, damaged) in &OPEN_SLOTS {
        assert!(rt; fault_of(rt.alloc(), *first, *second)? == damaged.map(damage));
    }
    Ok(())
}
