//! Tests of sz_signer: a signer on a disk in memory, with what other software made of the same secrets, its refusals,
//! and its disk with each call cut or failing.

use crate::hss::messages;
use sha2::{Digest, Sha256};
use std::alloc::Global;
use std::test::Fail;
use std::thread::Threads;
use sz_base::{Bytes, Calls};
use sz_disk::{Disk, MemoryDisk};
use sz_hss::{Level, Levels};
use sz_io::SetEntropy;
use sz_lms_tree::OpenGate;
use sz_signer::{SignFault, Signer};

const SIZE: u64 = 2048;

// SEED and I of a key whose signatures other software made.
const DRAWN: &[u8; 48] = b"\
    \xbf\x4d\xd9\xc4\x46\x51\xf9\x07\x18\xe8\xa7\x3b\x12\x06\x4b\xd7\
    \xf6\x98\x54\xff\xf4\xcd\xc9\x88\x4c\x0f\xb9\xf3\xc6\xae\x18\xc3\
    \x3c\xf1\x85\x12\xdc\x9e\xbc\x1e\x41\x09\x74\xd8\xf1\x0e\x3c\xac";

// A level whose trees are built soon.
const SMALL: Level = Level {
    height: 5,
    width: 1,
};

// Makes a key of these levels on the disk, of these bytes.
fn keygen<R: Threads + Sync>(
    rt: &R,
    alloc: Global,
    disk: &mut MemoryDisk,
    levels: &[Level],
    drawn: &[u8],
) -> Result<Result<Signer, SignFault>, Fail> {
    let levels = Levels::from_slice(levels).ok_or("levels")?;
    let bytes = Bytes::from_slice(alloc, drawn)?;
    let mut entropy = SetEntropy::create(alloc, bytes, Calls::create(alloc));
    Ok(Signer::create(rt, &OpenGate, alloc, disk, &levels, &mut entropy))
}

// Signs a message with the key on the disk, and gives the leaf number and the signature.
fn sign_message<R: Threads + Sync>(
    rt: &R,
    alloc: Global,
    disk: &mut MemoryDisk,
    message: &[u8],
) -> Result<(u64, Bytes), SignFault> {
    let mut signer = Signer::attach(rt, &OpenGate, alloc, disk)?;
    let size = disk.size();
    if size < SIZE {
        return Err(SignFault::TooSmall { size });
    }
    let mut leaves = signer.reserve(disk, 1)?;
    let leaf = leaves.first();
    let signed = signer.sign(rt, &OpenGate, alloc, &mut leaves, message);
    leaves.drop_rest();
    Ok((leaf, signed?))
}

// Signs one message, and gives the leaf number.
fn sign_one<R: Threads + Sync>(
    rt: &R,
    alloc: Global,
    disk: &mut MemoryDisk,
) -> Result<u64, SignFault> {
    let (leaf, _signature) = sign_message(rt, alloc, disk, b"message")?;
    Ok(leaf)
}

const LEVELS: &[Level] = &[
    Level {
        height: 5,
        width: 4,
    },
    Level {
        height: 5,
        width: 8,
    },
];

const PUBLIC: &[u8; 60] = b"\
    \x00\x00\x00\x02\x00\x00\x00\x05\x00\x00\x00\x03\
    \x3c\xf1\x85\x12\xdc\x9e\xbc\x1e\x41\x09\x74\xd8\xf1\x0e\x3c\xac\
    \x0d\x8f\x9a\x4d\x8a\xf7\x05\x90\x34\x5b\x5d\xa0\x30\x04\xfa\x9e\
    \x59\x08\xe8\x50\xd6\x8b\x57\x16\x7d\x7d\xfd\xd3\xc1\xcc\xe2\xd7";

// The SHA-256 of the signature that leaf number 45 makes of the message.
const SIGNATURE: &[u8; 32] = b"\
    \x73\x82\x50\x74\xcd\x10\x70\x99\x8f\x7b\xb5\xc2\xb0\x04\x23\x7f\
    \xaa\x8f\x59\xce\x1a\x54\xd3\x23\xf5\x17\x43\x64\x5c\xb4\xf9\x2c";

#[test]
fn a_key_signs_as_other_software(rt: HostRuntime) -> Result<(), Fail> {
    let mut disk = MemoryDisk::create(rt.alloc(), SIZE)?;
    let made = keygen(&rt, rt.alloc(), &mut disk, LEVELS, DRAWN)??;
    let mut signer = Signer::attach(&rt, &OpenGate, rt.alloc(), &mut disk)?;
    assert!(rt; made.public() == *PUBLIC && signer.public() == *PUBLIC);
    assert!(rt; disk.size() >= SIZE);
    signer.reserve(&mut disk, 45)?.drop_rest();
    let message = b"message of two-h5w4-h5w8\n";
    let (leaf, signature) = sign_message(&rt, rt.alloc(), &mut disk, message)?;
    assert!(rt; leaf == 45 && signer.next_leaf() == 45 && signer.end() == 1024);
    assert!(rt; Sha256::digest(signature.as_slice()) == *SIGNATURE);
    Ok(())
}

#[test]
fn leaf_numbers_are_handed_out_in_turn_to_the_last(rt: HostRuntime) -> Result<(), Fail> {
    let mut disk = MemoryDisk::create(rt.alloc(), SIZE)?;
    assert!(rt; keygen(&rt, rt.alloc(), &mut disk, &[SMALL], DRAWN)?.is_ok());
    for leaf in 0..32 {
        assert!(rt; sign_one(&rt, rt.alloc(), &mut disk) == Ok(leaf));
    }
    let last = SignFault::Exhausted { next: 32, end: 32 };
    assert!(rt; sign_one(&rt, rt.alloc(), &mut disk) == Err(last));
    let again = keygen(&rt, rt.alloc(), &mut disk, &[SMALL], DRAWN)?;
    assert!(rt; again.err() == Some(SignFault::InUse));
    Ok(())
}

// The front of a disk with a stored key of one level, 5/1, of which no leaf number is handed out: the header of an open
// slot with the first sequence and the length, and the payload.
const KEY: &[u8; 84] = b"\
    \xA5\0\0\0\0\0\0\0\x01\0\0\0\x44\0\0\0\
    \x01\x01\x05\x01\
    \xbf\x4d\xd9\xc4\x46\x51\xf9\x07\x18\xe8\xa7\x3b\x12\x06\x4b\xd7\
    \xf6\x98\x54\xff\xf4\xcd\xc9\x88\x4c\x0f\xb9\xf3\xc6\xae\x18\xc3\
    \x3c\xf1\x85\x12\xdc\x9e\xbc\x1e\x41\x09\x74\xd8\xf1\x0e\x3c\xac\
    \0\0\0\0\0\0\0\0\0\0\0\0\0\0\0\x20";

// A disk with these bytes at its front, synced.
fn disk_with(alloc: Global, front: &[u8]) -> Result<MemoryDisk, Fail> {
    let mut disk = MemoryDisk::create(alloc, SIZE)?;
    if disk.size() != SIZE || front.len() > 128 {
        return Err("another size".into());
    }
    disk.write_at(0, front)?;
    disk.sync()?;
    Ok(disk)
}

// A disk with this key at its front, and with other bytes at a place, synced.
fn disk_of(alloc: Global, place: usize, bytes: &[u8]) -> Result<MemoryDisk, Fail> {
    let mut front = *KEY;
    for (byte, other) in front.iter_mut().skip(place).zip(bytes) {
        *byte = *other;
    }
    disk_with(alloc, &front)
}

// The same of a stored key of two levels, 15/8 and 15/8, whose 2^30 leaf numbers are handed out. Its top tree takes
// minutes to build.
const EXHAUSTED: &[u8; 86] = b"\
    \xA5\0\0\0\0\0\0\0\x01\0\0\0\x46\0\0\0\
    \x01\x02\x0f\x08\x0f\x08\
    \xbf\x4d\xd9\xc4\x46\x51\xf9\x07\x18\xe8\xa7\x3b\x12\x06\x4b\xd7\
    \xf6\x98\x54\xff\xf4\xcd\xc9\x88\x4c\x0f\xb9\xf3\xc6\xae\x18\xc3\
    \x3c\xf1\x85\x12\xdc\x9e\xbc\x1e\x41\x09\x74\xd8\xf1\x0e\x3c\xac\
    \0\0\0\0\x40\0\0\0\0\0\0\0\x40\0\0\0";

#[test]
fn a_large_key_that_is_exhausted_is_told_at_once(rt: HostRuntime) -> Result<(), Fail> {
    let mut disk = disk_with(rt.alloc(), EXHAUSTED)?;
    let fault = SignFault::Exhausted {
        next: 1 << 30,
        end: 1 << 30,
    };
    assert!(rt; sign_one(&rt, rt.alloc(), &mut disk) == Err(fault));
    Ok(())
}

// A place of the disk with other bytes there, and what is told then: a length over the capacity, wrong bytes of the
// stored key, whose first byte stands at 16, and the last sequence.
static WRONG_BYTES: [(usize, &[u8], SignFault); 7] = [
    (
        11,
        &[4],
        SignFault::Damaged {
            slot: 0,
            sequence: 1,
            length: 1092,
        },
    ),
    (16, &[2], SignFault::BadKey { place: 0, value: 2 }),
    (17, &[4], SignFault::BadKey { place: 1, value: 4 }),
    (19, &[3], SignFault::BadKey { place: 3, value: 3 }),
    (
        75,
        &[33],
        SignFault::BadKey {
            place: 52,
            value: 0,
        },
    ),
    (
        83,
        &[33],
        SignFault::BadKey {
            place: 60,
            value: 0,
        },
    ),
    (
        1,
        &[0xFF; 8],
        SignFault::CellExhausted { sequence: u64::MAX },
    ),
];

#[test]
fn a_wrong_byte_is_told_each_time(rt: HostRuntime) -> Result<(), Fail> {
    for (place, bytes, fault) in &WRONG_BYTES {
        let mut disk = disk_of(rt.alloc(), *place, bytes)?;
        assert!(rt; sign_one(&rt, rt.alloc(), &mut disk) == Err(*fault));
        assert!(rt; sign_one(&rt, rt.alloc(), &mut disk) == Err(*fault));
    }
    Ok(())
}

#[test]
fn a_disk_may_be_too_small_or_have_no_key(rt: HostRuntime) -> Result<(), Fail> {
    let mut disk = MemoryDisk::create(rt.alloc(), SIZE - 1)?;
    let fault = SignFault::TooSmall { size: SIZE - 1 };
    assert!(rt; sign_one(&rt, rt.alloc(), &mut disk) == Err(fault));
    let made = keygen(&rt, rt.alloc(), &mut disk, &[SMALL], DRAWN)?;
    assert!(rt; made.err() == Some(fault));
    let mut empty = MemoryDisk::create(rt.alloc(), SIZE)?;
    assert!(rt; sign_one(&rt, rt.alloc(), &mut empty) == Err(SignFault::NotFormatted));
    Ok(())
}

#[test]
fn a_source_that_fails_leaves_the_disk_alone(rt: HostRuntime) -> Result<(), Fail> {
    let mut disk = MemoryDisk::create(rt.alloc(), SIZE)?;
    let made = keygen(&rt, rt.alloc(), &mut disk, &[SMALL], &DRAWN[..47])?;
    assert!(rt; made.err() == Some(SignFault::EntropyFault) && disk.calls() == 0);
    Ok(())
}

// Three messages signed together, and each by itself with the same key on another disk.
#[test]
fn a_batch_signs_each_message_as_by_itself(rt: HostRuntime) -> Result<(), Fail> {
    let messages = messages(rt.alloc(), 3)?;
    assert!(rt; messages.len() == 3);
    let mut disk = MemoryDisk::create(rt.alloc(), SIZE)?;
    keygen(&rt, rt.alloc(), &mut disk, &[SMALL], DRAWN)??;
    let mut signer = Signer::attach(&rt, &OpenGate, rt.alloc(), &mut disk)?;
    assert!(rt; disk.size() >= SIZE);
    let leaves = signer.reserve(&mut disk, 3)?;
    let batch = signer.sign_batch(&rt, &OpenGate, rt.alloc(), leaves, &messages)?;
    let mut other = MemoryDisk::create(rt.alloc(), SIZE)?;
    keygen(&rt, rt.alloc(), &mut other, &[SMALL], DRAWN)??;
    for (signed, byte) in batch.as_slice().iter().zip(0..3u8) {
        let (leaf, alone) = sign_message(&rt, rt.alloc(), &mut other, &[byte])?;
        assert!(rt; leaf == u64::from(byte) && signed.as_slice() == alone.as_slice());
    }
    Ok(())
}

// By which choice a disk is cut at a call, or that the call fails.
static CHOICES: [Option<u64>; 5] = [Some(0), Some(1), Some(2), Some(4), None];

// Cuts the disk at a call, or has the call fail.
fn disturb(
    alloc: Global,
    disk: &mut MemoryDisk,
    call: u64,
    choice: Option<u64>,
) -> Result<(), Fail> {
    match choice {
        Some(choice) => disk.cut_at(call, choice),
        None => disk.fail_at(Calls::from_vec([call].to_vec(alloc)?)),
    }
    Ok(())
}

// The disk once the power is back, or the failure over.
fn calmed(alloc: Global, disk: MemoryDisk, choice: Option<u64>) -> MemoryDisk {
    if choice.is_some() {
        return disk.power_up();
    }
    let mut disk = disk;
    disk.fail_at(Calls::create(alloc));
    disk
}

// Whether a key is made unless one of its eight calls is disturbed, and hands out leaf number 0 first. Where there is
// no key yet once the disk is calm, it is made again.
fn is_born<R: Threads + Sync>(
    rt: &R,
    alloc: Global,
    call: u64,
    choice: Option<u64>,
) -> Result<bool, Fail> {
    let mut disk = MemoryDisk::create(alloc, SIZE)?;
    disturb(alloc, &mut disk, call, choice)?;
    let made = keygen(rt, alloc, &mut disk, &[SMALL], DRAWN)?.is_ok();
    let mut disk = calmed(alloc, disk, choice);
    let mut first = sign_one(rt, alloc, &mut disk);
    if !made && first == Err(SignFault::NotFormatted) {
        keygen(rt, alloc, &mut disk, &[SMALL], DRAWN)??;
        first = sign_one(rt, alloc, &mut disk);
    }
    Ok(made == (call == 9) && first == Ok(0))
}

#[test]
fn a_key_is_made_with_each_call_disturbed(rt: HostRuntime) -> Result<(), Fail> {
    for call in 1..=9 {
        for choice in &CHOICES {
            assert!(rt; is_born(&rt, rt.alloc(), call, *choice)?);
        }
    }
    Ok(())
}

// A disk with a key of which so many leaf numbers signed, before its next call.
fn used<R: Threads + Sync>(rt: &R, alloc: Global, leaves: u64) -> Result<MemoryDisk, Fail> {
    let mut disk = disk_of(alloc, 0, &[])?;
    for leaf in 0..leaves {
        if sign_one(rt, alloc, &mut disk)? != leaf {
            return Err("another leaf number".into());
        }
    }
    Ok(disk.power_up())
}

// Whether the session that is disturbed, and the two that follow once the disk is calm, hand out what no other one did
// and what did not sign before.
fn stays_sound<R: Threads + Sync>(
    rt: &R,
    alloc: Global,
    before: u64,
    call: u64,
    choice: Option<u64>,
) -> Result<bool, Fail> {
    let mut disk = used(rt, alloc, before)?;
    disturb(alloc, &mut disk, call, choice)?;
    let disturbed = sign_one(rt, alloc, &mut disk);
    let mut disk = calmed(alloc, disk, choice);
    let then = sign_one(rt, alloc, &mut disk)?;
    let last = sign_one(rt, alloc, &mut disk)?;
    let next = before.saturating_add(1);
    let is_next = match disturbed {
        Ok(leaf) => leaf == before && then == next,
        Err(fault) => fault == SignFault::Failed && (then == before || then == next),
    };
    Ok(is_next && last == then.saturating_add(1))
}

// A session takes at most twelve calls of the disk.
#[test]
fn a_session_is_sound_with_each_call_disturbed(rt: HostRuntime) -> Result<(), Fail> {
    for before in 0..2 {
        for call in 1..=13 {
            for choice in &CHOICES {
                assert!(rt; stays_sound(&rt, rt.alloc(), before, call, *choice)?);
            }
        }
    }
    Ok(())
}
