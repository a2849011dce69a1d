//! Tests of sz_disk: a disk in memory that is cut or fails, disks by their names, a disk that tells nothing, and a
//! room.
ghost use Rattle.std.specs.Prelude.{◌≡◌, ◌+◌, ◌<◌, ◌≤◌, ◌^◌, length, Some, OnOk};

use std::alloc::Global;
use std::test::Fail;
use sz_base::{Bytes, Calls, Failed, OutOfMemory};
use sz_disk::{Disk, Disks, MemoryDisk, Room};
use sz_fixtures::Pad;

/// So many bytes of a disk from a place on.
pub fn read<D: Disk, const N: usize>(
    disk: &mut D,
    at: u64,
) -> Result<Result<[u8; N], Failed>, Fail> {
    if at > disk.size() || N as u64 > disk.size() - at {
        return Err("a read past the end".into());
    }
    let mut bytes = [0; N];
    Ok(disk.read(at, &mut bytes).map(|()| bytes))
}

/// Writes to a disk from a place on.
pub fn write<D: Disk>(disk: &mut D, at: u64, bytes: &[u8]) -> Result<Result<(), Failed>, Fail> {
    if at > disk.size() || bytes.len() as u64 > disk.size() - at {
        return Err("a write past the end".into());
    }
    Ok(disk.write_at(at, bytes))
}

/// Calls by their numbers.
pub fn calls(alloc: Global, numbers: &[u64]) -> Result<Calls, OutOfMemory> {
    Ok(Calls::from_vec(numbers.to_vec(alloc)?))
}

const WRITTEN: [u8; 8] = [101, 102, 103, 104, 105, 106, 107, 108];

// What is done with a disk of eight bytes, and what it answers.
#[derive(Clone, Copy)]
enum Step {
    // Names the calls that fail.
    FailAt(&'static [u64]),
    // Cuts the disk at a call, by the choice of the row, or by 1 less that.
    CutAt(u64),
    CutAtOther(u64),
    Write(u64, &'static [u8], Result<(), Failed>),
    Sync(Result<(), Failed>),
    // Reads all bytes.
    Read(Result<[u8; 8], Failed>),
    // How many calls it had.
    Calls(u64),
}

// The second write falls at the cut, and overlaps the first, which is unsynced too. The unsynced bytes are
// those at the places 1 to 4, by rank 0 to 3: the old ones are 102 to 105 and the new ones 21, 22, 33 and 34.
//
//     choice c    c * (rank + 1) mod 3    so each byte is              a third byte is (c + rank) mod 256
//     2           2 1 0 2                 third, new, old, third       2 and 5
//     3           0 0 0 0                 old
//     4           1 2 0 1                 new, third, old, new         5
const OVERLAP: &[Step] = &[
    Step::Write(0, &WRITTEN, Ok(())),
    Step::Sync(Ok(())),
    Step::CutAt(4),
    Step::Write(1, &[21, 22, 23], Ok(())),
    Step::Write(3, &[33, 34], Err(Failed)),
];

// The write that fails adds no unsynced byte.
const FAILED_WRITE: &[Step] = &[
    Step::Write(0, &WRITTEN, Ok(())),
    Step::Sync(Ok(())),
    Step::FailAt(&[3]),
    Step::Write(2, &[9, 9], Err(Failed)),
    Step::Read(Ok(WRITTEN)),
    Step::Calls(4),
    Step::CutAt(9),
];

const FAILED_SYNC: &[Step] = &[
    Step::FailAt(&[2]),
    Step::Write(0, &WRITTEN, Ok(())),
    Step::Sync(Err(Failed)),
    Step::Read(Ok(WRITTEN)),
    Step::CutAt(9),
];

// A cut that was reached stays.
const CUT_WRITE: &[Step] = &[
    Step::CutAt(1),
    Step::Write(0, &WRITTEN, Err(Failed)),
    Step::Sync(Err(Failed)),
    Step::Read(Err(Failed)),
    Step::CutAtOther(9),
    Step::Sync(Err(Failed)),
    Step::Calls(4),
];

const CUT_SYNC: &[Step] = &[
    Step::CutAt(2),
    Step::Write(0, &WRITTEN, Ok(())),
    Step::Sync(Err(Failed)),
    Step::Read(Err(Failed)),
    Step::CutAtOther(9),
    Step::Sync(Err(Failed)),
    Step::Calls(4),
];

const CUT_READ: &[Step] = &[
    Step::CutAt(3),
    Step::Write(0, &WRITTEN, Ok(())),
    Step::Sync(Ok(())),
    Step::Read(Err(Failed)),
    Step::CutAtOther(9),
    Step::Sync(Err(Failed)),
    Step::Calls(4),
];

// Steps, a choice, and what it leaves.
static CUTS: [(&[Step], u64, [u8; 8]); 14] = [
    (OVERLAP, 0, [101, 102, 103, 104, 105, 106, 107, 108]),
    (OVERLAP, 1, [101, 21, 22, 33, 34, 106, 107, 108]),
    (OVERLAP, 2, [101, 2, 22, 104, 5, 106, 107, 108]),
    (OVERLAP, 3, [101, 102, 103, 104, 105, 106, 107, 108]),
    (OVERLAP, 4, [101, 21, 5, 104, 34, 106, 107, 108]),
    (FAILED_WRITE, 1, WRITTEN),
    (FAILED_SYNC, 0, [0; 8]),
    (FAILED_SYNC, 1, WRITTEN),
    (CUT_WRITE, 0, [0; 8]),
    (CUT_WRITE, 1, WRITTEN),
    (CUT_SYNC, 0, [0; 8]),
    (CUT_SYNC, 1, WRITTEN),
    (CUT_READ, 0, WRITTEN),
    (CUT_READ, 1, WRITTEN),
];

// Takes a step, and says whether the disk answered so.
fn answers(alloc: Global, disk: &mut MemoryDisk, step: Step, choice: u64) -> Result<bool, Fail> {
    match step {
        Step::FailAt(numbers) => disk.fail_at(calls(alloc, numbers)?),
        Step::CutAt(call) => disk.cut_at(call, choice),
        Step::CutAtOther(call) => disk.cut_at(call, choice.abs_diff(1)),
        Step::Write(at, bytes, answer) => return Ok(write(disk, at, bytes)? == answer),
        Step::Sync(answer) => return Ok(disk.sync() == answer),
        Step::Read(answer) => return Ok(read(disk, 0)? == answer),
        Step::Calls(count) => return Ok(disk.calls() == count),
    }
    Ok(true)
}

// Whether a new disk answers these steps so.
fn all_answered(
    alloc: Global,
    disk: &mut MemoryDisk,
    steps: &[Step],
    choice: u64,
) -> Result<bool, Fail> {
    for step in steps {
        if !answers(alloc, disk, *step, choice)? {
            return Ok(false);
        }
    }
    Ok(true)
}

// Whether these bytes are left once the power is back, on a disk that no call was named of.
fn leaves(disk: MemoryDisk, left: [u8; 8]) -> Result<bool, Fail> {
    let mut disk = disk.power_up();
    Ok(read(&mut disk, 0)? == Ok(left) && disk.calls() == 1 && !disk.short())
}

#[test]
fn a_cut_leaves_what_a_choice_picks(rt: HostRuntime) -> Result<(), Fail> {
    for (steps, choice, left) in &CUTS {
        let mut disk = MemoryDisk::create(rt.alloc(), 8)?;
        assert!(rt; all_answered(rt.alloc(), &mut disk, steps, *choice)?);
        assert!(rt; leaves(disk, *left)?);
    }
    Ok(())
}

const MIB: u64 = 1 << 20;

// Puts an image of 16 MiB of the byte 7 on a disk from the byte 8 Mi on, in 4,096 pieces.
fn stage(disk: &mut MemoryDisk) -> Result<(), Fail> {
    for k in 0..4096 {
        write(disk, 8 * MIB + k * 4096, &[7; 4096])??;
    }
    Ok(())
}

// A choice, and the first and the last three bytes of the image that it leaves. Choice 2 leaves of the ranks 0, 1, 2
// the third byte (2), the new one and the old one, and of the last three, whose ranks plus 1 are 2, 0 and 1 mod 3, the
// new one, the old one and the third byte (2 + 16 Mi - 1 mod 256).
static STAGED: [(u64, [u8; 3], [u8; 3]); 3] = [
    (0, [0, 0, 0], [0, 0, 0]),
    (1, [7, 7, 7], [7, 7, 7]),
    (2, [2, 7, 0], [7, 0, 1]),
];

#[test]
fn a_staged_image_is_powered_up(rt: HostRuntime) -> Result<(), Fail> {
    for (choice, first, last) in &STAGED {
        let mut disk = MemoryDisk::create(rt.alloc(), 32 * MIB)?;
        disk.cut_at(9999, *choice);
        stage(&mut disk)?;
        let mut disk = disk.power_up();
        assert!(rt; read(&mut disk, 8 * MIB)? == Ok(*first));
        assert!(rt; read(&mut disk, 24 * MIB - 3)? == Ok(*last));
        assert!(rt; read(&mut disk, 8 * MIB - 3)? == Ok([0; 3]));
        assert!(rt; read(&mut disk, 24 * MIB)? == Ok([0; 3]));
    }
    Ok(())
}

// Disks of these names and sizes.
fn named(alloc: Global, names: &[(&[u8], u64)]) -> Result<Disks<MemoryDisk>, Fail> {
    let mut disks = Disks::create(alloc);
    for (name, size) in names {
        disks.add(
            Bytes::from_slice(alloc, name)?,
            MemoryDisk::create(alloc, *size)?,
        )?;
    }
    Ok(disks)
}

#[test]
fn the_first_disk_of_a_name_is_found(rt: HostRuntime) -> Result<(), Fail> {
    let mut disks = named(rt.alloc(), &[(b"a", 1), (b"b", 2), (b"a", 3)])?;
    for (name, size) in [(b"a", Some(1)), (b"b", Some(2)), (b"c", None)] {
        assert!(rt; disks.find(name).map(|disk| disk.size()) == size);
    }
    Ok(())
}

// A disk of eight bytes that tells nothing of what it holds, as a real file does.
#[derive(Drop)]
struct UntoldDisk {
    faults: u64,
}

impl Disk for UntoldDisk {
    ghost use Rattle.std.proofs.Common.{lit<};
    ghost use Rattle.sz_disk.specs.Disk.{untold};
    ghost use Rattle.sz_disk.specs.Laws.{lawful_untold};

    ghost seen = { λ disk. untold disk.faults 8 };

    ghost lawful = { λ disk. lawful_untold disk.faults 8 (lit< tt) };

    fn size(&self) -> u64 {
        8
    }

    fn read(&mut self, _: u64, _: &mut [u8]) -> Result<(), Failed> {
        Ok(())
    }

    fn write_at(&mut self, _: u64, _: &[u8]) -> Result<(), Failed> {
        self.faults = self.faults.saturating_add(1);
        Err(Failed)
    }

    fn sync(&mut self) -> Result<(), Failed> {
        Ok(())
    }
}

#[test]
fn a_disk_may_tell_nothing(rt: HostRuntime) -> Result<(), Fail> {
    let mut disk = UntoldDisk { faults: 0 };
    assert!(rt; write(&mut disk, 0, &WRITTEN)? == Err(Failed));
    assert!(rt; disk.faults == 1);
    disk.sync()?;
    assert!(rt; read(&mut disk, 0)? == Ok([0; 8]));
    Ok(())
}

// Puts two pieces, one behind the other.
fn put_both<R: Room>(room: &mut R, first: &[u8], second: &[u8]) -> Result<(), Failed>
    requires { (R.held room.old).used + length first.now + length second.now ≤ (R.held room.old).space }
    ensures both { OnOk result ((R.held room.new).used
        ≡ (R.held room.old).used + length first.now + length second.now) }
    ensures led { R.led room.old room.new }
{
    room.put(first)?;
    room.put(second)
}

#[test]
fn a_refused_put_leaves_what_a_room_holds(rt: HostRuntime) -> Result<(), Fail> {
    let mut pad = Pad::create(rt.alloc(), 4);
    assert!(rt; pad.space() == 4 && pad.used() == 0);
    put_both(&mut pad, b"a", b"b")?;
    assert!(rt; pad.used() == 2);
    pad.break_down();
    assert!(rt; pad.space() == 4 && pad.used() == 2);
    assert!(rt; pad.put(b"cd") == Err(Failed));
    assert!(rt; pad.used() == 2 && pad.bytes() == b"ab".as_slice() && pad.faults() == 1);
    pad.restart();
    assert!(rt; pad.used() == 0);
    Ok(())
}
