//! Tests of sz_hss: keys against what other software made of the same secrets, the stored form with its wrong bytes,
//! and levels with their texts.

use crate::meeting::Meeting;
use sha2::{Digest, Sha256};
use std::alloc::Global;
use std::test::Fail;
use std::thread::Threads;
use sz_base::{BaseFault, Bytes, Messages, OutOfMemory};
use sz_hss::{BadKey, Level, Levels, StoredKey, Trees, read, spell};
use sz_lms_tree::{OpenGate, Part};

// A stored key of two levels, 5/4 and 5/8, whose next leaf number is 45.
const TWO: [u8; 70] = *b"\x01\x02\x05\x04\x05\x08\
    \xbf\x4d\xd9\xc4\x46\x51\xf9\x07\x18\xe8\xa7\x3b\x12\x06\x4b\xd7\
    \xf6\x98\x54\xff\xf4\xcd\xc9\x88\x4c\x0f\xb9\xf3\xc6\xae\x18\xc3\
    \x3c\xf1\x85\x12\xdc\x9e\xbc\x1e\x41\x09\x74\xd8\xf1\x0e\x3c\xac\
    \0\0\0\0\0\0\0\x2d\0\0\0\0\0\0\x04\0";

// The key that is stored so signs the message with its next leaf number, with bytes of this digest.
struct Row {
    stored: &'static [u8],
    message: &'static [u8],
    public: [u8; 60],
    signature: [u8; 32],
}

static ROWS: [Row; 3] = [
    Row {
        stored: b"\
            \x01\x01\x05\x08\
            \xb7\x33\xf1\xde\x71\x78\xd2\x89\x1e\xfc\x1e\x94\x1e\x8f\xdc\x43\
            \xa0\xda\x2f\x6d\xd0\x8b\x89\x2d\xf6\xf2\xa8\x82\xdc\x3d\x33\x61\
            \xf7\xa8\x8c\xd9\x51\xaf\x03\x7f\x17\xb2\xa0\xf7\xf1\x42\x99\x88\
            \0\0\0\0\0\0\0\x1f\0\0\0\0\0\0\0\x20",
        message: b"message of one-h5w8-last\n",
        public: *b"\
            \x00\x00\x00\x01\x00\x00\x00\x05\x00\x00\x00\x04\
            \xf7\xa8\x8c\xd9\x51\xaf\x03\x7f\x17\xb2\xa0\xf7\xf1\x42\x99\x88\
            \x67\xa4\x78\xea\x5a\xd0\x55\x7f\x70\xd1\xee\xee\x79\x1c\x2e\x6f\
            \x46\x99\x9a\x32\x71\xb8\xff\x0f\x00\xa5\xec\x48\x00\xdb\x29\xd2",
        signature: *b"\
            \xb2\x6a\xc6\x3b\x67\x9d\xed\x16\x4d\x79\xfe\x46\x92\xe6\x5a\xf8\
            \xba\x9f\x81\xe9\x46\x1c\xcd\xe7\xd2\x49\x90\xda\xca\x5a\xa9\xb0",
    },
    Row {
        stored: &TWO,
        message: b"message of two-h5w4-h5w8\n",
        public: *b"\
            \x00\x00\x00\x02\x00\x00\x00\x05\x00\x00\x00\x03\
            \x3c\xf1\x85\x12\xdc\x9e\xbc\x1e\x41\x09\x74\xd8\xf1\x0e\x3c\xac\
            \x0d\x8f\x9a\x4d\x8a\xf7\x05\x90\x34\x5b\x5d\xa0\x30\x04\xfa\x9e\
            \x59\x08\xe8\x50\xd6\x8b\x57\x16\x7d\x7d\xfd\xd3\xc1\xcc\xe2\xd7",
        signature: *b"\
            \x73\x82\x50\x74\xcd\x10\x70\x99\x8f\x7b\xb5\xc2\xb0\x04\x23\x7f\
            \xaa\x8f\x59\xce\x1a\x54\xd3\x23\xf5\x17\x43\x64\x5c\xb4\xf9\x2c",
    },
    Row {
        stored: b"\
            \x01\x03\x05\x08\x05\x08\x05\x08\
            \x13\x53\xcc\x75\xf8\x16\xb5\x7d\x90\x90\x30\x49\xdf\x11\xb0\xa4\
            \x3f\x35\x04\xbb\x0d\x43\xa0\xd5\xc8\x99\x6a\x4b\x1e\x3e\xa0\xac\
            \x83\xf0\x9d\xa6\x48\xe9\x57\xb0\xa6\x00\x92\xb5\x78\xdc\x79\xcf\
            \0\0\0\0\0\0\x04\x21\0\0\0\0\0\0\x80\0",
        message: b"message of three-h5w8\n",
        public: *b"\
            \x00\x00\x00\x03\x00\x00\x00\x05\x00\x00\x00\x04\
            \x83\xf0\x9d\xa6\x48\xe9\x57\xb0\xa6\x00\x92\xb5\x78\xdc\x79\xcf\
            \xf8\x4b\x6d\x5b\x35\x8b\xa1\xe7\x01\x87\x87\x69\x41\x57\xee\x7d\
            \xa8\x8a\x23\x82\xc0\x59\x0c\xff\x25\xb7\x20\x3e\xbd\xe2\x76\xb0",
        signature: *b"\
            \x0c\xa2\x28\xc2\x1d\x0f\x40\xad\xa2\x09\x6a\xf2\xf0\x70\xd2\x9f\
            \xb8\x1b\x87\xd8\x40\x8e\xa6\x5c\xe8\x8d\x0b\x6a\x2e\x9a\x07\x3c",
    },
];

// Whether a stored key is spelled as it was read, has the public key of its row, and signs so.
fn holds<R: Threads + Sync>(rt: &R, alloc: Global, row: &Row) -> Result<bool, Fail> {
    let StoredKey { key, next, end } = read(row.stored)?;
    let spelled = spell(&key, next, end).as_slice() == row.stored;
    let mut trees = Trees::build(rt, &OpenGate, alloc, key)?;
    let signature = trees.sign(rt, &OpenGate, alloc, next, row.message)?;
    Ok(
        spelled
            && trees.public() == row.public
            && Sha256::digest(signature.as_slice()) == row.signature,
    )
}

#[test]
fn keys_of_one_to_three_levels_sign_as_other_software(rt: HostRuntime) -> Result<(), Fail> {
    for row in &ROWS {
        assert!(rt; holds(&rt, rt.alloc(), row)?);
    }
    Ok(())
}

// How many bytes of a stored key there are, and a place with another byte there. A byte follows the key. Then the place
// of the first wrong byte and its value.
static WRONG_BYTES: [(usize, usize, u8, u32, u8); 9] = [
    (70, 0, 2, 0, 2),
    (70, 1, 4, 1, 4),
    (70, 2, 6, 2, 6),
    (70, 5, 3, 5, 3),
    (70, 1, 1, 52, 0x3c),
    (70, 60, 4, 54, 0),
    (70, 68, 5, 62, 0),
    (69, 0, 1, 69, 0),
    (71, 70, 7, 70, 7),
];

// The first wrong byte of so many bytes of a key, with another one at a place.
fn first_wrong(length: usize, place: usize, value: u8) -> Option<BadKey> {
    let mut bytes = [0; 71];
    bytes[..70].copy_from_slice(&TWO);
    if let Some(byte) = bytes.get_mut(place) {
        *byte = value;
    }
    read(&bytes[..length.min(71)]).err()
}

#[test]
fn the_first_wrong_byte_of_a_stored_key_is_told(rt: HostRuntime) {
    for (length, at, byte, place, value) in &WRONG_BYTES {
        let bad = BadKey {
            place: *place,
            value: *value,
        };
        assert!(rt; first_wrong(*length, *at, *byte) == Some(bad));
    }
}

const FIVE: Level = Level {
    height: 5,
    width: 4,
};

// Levels, and whether a key may have them: not four, nor none, nor a height that no tree has.
static LEVELS: [(&[Level], bool); 4] = [
    (&[FIVE, FIVE, FIVE], true),
    (&[FIVE, FIVE, FIVE, FIVE], false),
    (&[], false),
    (
        &[
            FIVE,
            Level {
                height: 20,
                width: 4,
            },
        ],
        false,
    ),
];

#[test]
fn a_key_has_one_to_three_levels(rt: HostRuntime) {
    for (levels, allowed) in &LEVELS {
        assert!(rt; Levels::from_slice(levels).is_some() == *allowed);
    }
}

const LEVELS_READ: &[Level] = &[
    Level {
        height: 10,
        width: 4,
    },
    Level {
        height: 5,
        width: 8,
    },
];

// Texts, and the levels that they stand for, if they do.
static LEVELS_TEXTS: [(&[u8], Option<&[Level]>); 15] = [
    (b"10/4,5/8", Some(LEVELS_READ)),
    (b"", None),
    (b"5", None),
    (b"5/", None),
    (b"/8", None),
    (b"5/8,", None),
    (b",5/8", None),
    (b"5/3", None),
    (b"20/4", None),
    (b"05/8", None),
    (b"+5/8", None),
    (b"5/8 ", None),
    (b"5/8/1", None),
    (b"5/8;5/8", None),
    (b"5/8,5/8,5/8,5/8", None),
];

// Whether a text is read as these levels, or refused where there are none.
fn is_read_as(text: &[u8], levels: Option<&[Level]>) -> bool {
    match (Levels::read(text), levels) {
        (Ok(read), Some(levels)) => read.as_slice() == levels,
        (Err(fault), None) => fault == BaseFault::Form,
        (Ok(_), None) | (Err(_), Some(_)) => false,
    }
}

#[test]
fn levels_are_read_from_their_text(rt: HostRuntime) {
    for (text, levels) in &LEVELS_TEXTS {
        assert!(rt; is_read_as(text, *levels));
    }
}

/// Messages of one byte each, from 0 on.
pub fn messages(alloc: Global, count: u8) -> Result<Messages, OutOfMemory> {
    let mut messages = Messages::create(alloc);
    for byte in 0..count {
        messages.push(Bytes::from_slice(alloc, &[byte])?)?;
    }
    Ok(messages)
}

// The trees of a key of the levels 5/4 and 5/4.
fn trees<R: Threads + Sync>(rt: &R, alloc: Global) -> Result<Trees, Fail> {
    let mut bytes = TWO;
    bytes[5] = 4;
    let StoredKey {
        key,
        next: _,
        end: _,
    } = read(&bytes)?;
    Ok(Trees::build(rt, &OpenGate, alloc, key)?)
}

// A batch of 40 messages from leaf number 20: it crosses from one lowest tree to the next, and two items run at once.
#[test]
fn a_batch_signs_each_message_as_by_itself(rt: HostRuntime) -> Result<(), Fail> {
    let mut trees = trees(&rt, rt.alloc())?;
    let messages = messages(rt.alloc(), 40)?;
    assert!(rt; messages.len() == 40);
    let gate = Meeting::of(Part::Item);
    let batch = trees.sign_batch(&rt, &gate, rt.alloc(), 20, &messages)?;
    assert!(rt; gate.entered() == 40 && gate.met());
    for (signed, byte) in batch.as_slice().iter().zip(0..40u8) {
        let alone = trees.sign(&rt, &OpenGate, rt.alloc(), 20 + u64::from(byte), &[byte])?;
        assert!(rt; signed.as_slice() == alone.as_slice());
    }
    Ok(())
}
