//! Tests of sz_lms: signatures that other software made, whole, in pieces, and with each rule broken at each level.

use crate::lms_vectors::{EIGHT, LAST_LEAF, TWO, Vector, W1, W2, W4};
use hex::FromHexError;
use std::alloc::{AllocError, Global};
use std::test::Fail;
use sz_lms::{
    HssCheck, HssFault, OtsType, hss_verify, inner_node, leaf_node, lms_verify, ots_candidate,
    signed_bytes,
};

// A public key, a message and its signature.
#[derive(Drop)]
struct Signed {
    public: Vec<u8>,
    message: Vec<u8>,
    signature: Vec<u8>,
}

impl Signed {
    fn read(alloc: Global, vector: &Vector) -> Result<Signed, FromHexError> {
        Ok(Signed {
            public: hex::decode(alloc, vector.public)?,
            message: hex::decode(alloc, vector.message)?,
            signature: hex::decode(alloc, vector.signature)?,
        })
    }

    // The verdict on another signature.
    fn verdict(&self, signature: &[u8]) -> Result<(), HssFault> {
        hss_verify(self.public.as_slice(), self.message.as_slice(), signature)
    }

    // The verdict on the message in pieces of this length.
    fn verdict_in_pieces(&self, length: usize) -> Result<(), HssFault> {
        let mut check = HssCheck::begin(self.public.as_slice(), self.signature.as_slice())?;
        for piece in self.message.as_slice().chunks(length.max(1)) {
            check.update(piece);
        }
        check.finish()
    }
}

// A change of bytes: they end at a place, or have another value there.
#[derive(Clone, Copy)]
enum Change {
    End(usize),
    Byte(usize, u8),
}

// The bytes with a change.
fn changed(alloc: Global, bytes: &[u8], change: Change) -> Result<Vec<u8>, AllocError> {
    let mut changed = bytes.to_vec(alloc)?;
    match change {
        Change::End(place) => changed.truncate(place),
        Change::Byte(place, value) => {
            if let Some(byte) = changed.get_mut(place) {
                *byte = value;
            }
        }
    }
    Ok(changed)
}

// The checksum of a Q whose bytes are all the same.
fn checksum(kind: OtsType, byte: u8) -> [u8; 2] {
    let signed = signed_bytes(kind, &[byte; 32]);
    [signed[32], signed[33]]
}

// The checksums of Q of zeros.
static CHECKSUMS: [(OtsType, [u8; 2]); 4] = [
    (OtsType::W8, [0x1f, 0xe0]),
    (OtsType::W4, [0x3c, 0x00]),
    (OtsType::W2, [0x60, 0x00]),
    (OtsType::W1, [0x80, 0x00]),
];

#[test]
fn checksums_count_what_digits_lack(rt: HostRuntime) {
    for (kind, zeros) in &CHECKSUMS {
        assert!(rt; checksum(*kind, 0) == *zeros && checksum(*kind, 0xff) == [0, 0]);
    }
}

// Whether a signature is valid, whole and in pieces, and nothing shorter, longer or of another message is.
fn is_valid_alone(alloc: Global, mut signed: Signed) -> Result<bool, AllocError> {
    let signature = signed.signature.as_slice();
    let valid = signed.verdict(signature) == Ok(()) && signed.verdict_in_pieces(3) == Ok(());
    let end = Change::End(signature.len().saturating_sub(1));
    let shorter = changed(alloc, signature, end)?;
    let too_short = signed.verdict(shorter.as_slice()) == Err(HssFault::Length);
    signed.message.push(0)?;
    let of_another = signed.verdict(signed.signature.as_slice()) == Err(HssFault::Root)
        && signed.verdict_in_pieces(7) == Err(HssFault::Root);
    signed.signature.push(0)?;
    let too_long = signed.verdict(signed.signature.as_slice()) == Err(HssFault::Length);
    Ok(valid && too_short && of_another && too_long)
}

#[test]
fn signatures_of_other_software_are_valid(rt: HostRuntime) -> Result<(), Fail> {
    for vector in [&LAST_LEAF, &W4, &W2, &W1, &TWO, &EIGHT] {
        let signed = Signed::read(rt.alloc(), vector)?;
        assert!(rt; is_valid_alone(rt.alloc(), signed)?);
    }
    Ok(())
}

// Whether each rule is told of the level whose LMS signature stands at a place, with a one-time signature of so many
// bytes, also where a root is wrong besides. A key of a further level may follow.
fn tells_rules(
    alloc: Global,
    signed: &Signed,
    place: u16,
    one_time: u16,
    has_next: bool,
) -> Result<bool, AllocError> {
    let place = usize::from(place);
    let tree_type = place + 4 + usize::from(one_time);
    let end = tree_type + 164;
    let wrong_root = Change::Byte(end - 1, 0x5a);
    let bytes = changed(alloc, signed.signature.as_slice(), wrong_root)?;
    for (change, fault, is_next) in [
        (Change::End(place + 7), HssFault::Length, false),
        (Change::End(tree_type + 3), HssFault::Length, false),
        (Change::End(end - 1), HssFault::Length, false),
        (Change::Byte(place + 3, 32), HssFault::LeafNumber, false),
        (Change::Byte(place + 7, 9), HssFault::Scheme, false),
        (Change::Byte(place + 8, 0x5a), HssFault::Root, false),
        (Change::Byte(tree_type + 3, 6), HssFault::Scheme, false),
        (Change::End(end + 55), HssFault::Length, true),
        (Change::Byte(end + 3, 4), HssFault::Scheme, true),
    ] {
        let broken = changed(alloc, bytes.as_slice(), change)?;
        let told = signed.verdict(broken.as_slice()) == Err(fault);
        if !told && (has_next || !is_next) {
            return Ok(false);
        }
    }
    Ok(true)
}

#[test]
fn rules_are_told_at_each_level(rt: HostRuntime) -> Result<(), Fail> {
    let two = Signed::read(rt.alloc(), &TWO)?;
    assert!(rt; tells_rules(rt.alloc(), &two, 4, 2180, true)?);
    assert!(rt; tells_rules(rt.alloc(), &two, 2408, 1124, false)?);
    let eight = Signed::read(rt.alloc(), &EIGHT)?;
    for level in 0..8 {
        assert!(rt; tells_rules(rt.alloc(), &eight, 4 + 1348 * level, 1124, level < 7)?);
    }
    Ok(())
}

// Changes of the public key, and what is told then.
static KEY_CHANGES: [(Change, HssFault); 7] = [
    (Change::Byte(3, 0), HssFault::Levels),
    (Change::Byte(3, 9), HssFault::Levels),
    (Change::Byte(3, 3), HssFault::Levels),
    (Change::Byte(7, 4), HssFault::Scheme),
    (Change::Byte(11, 5), HssFault::Scheme),
    (Change::Byte(59, 0x5a), HssFault::Root),
    (Change::End(59), HssFault::Length),
];

#[test]
fn rules_are_told_of_the_public_key(rt: HostRuntime) -> Result<(), Fail> {
    let mut signed = Signed::read(rt.alloc(), &TWO)?;
    let signature = changed(rt.alloc(), signed.signature.as_slice(), Change::End(3))?;
    assert!(rt; signed.verdict(signature.as_slice()) == Err(HssFault::Length));
    let public = changed(rt.alloc(), signed.public.as_slice(), Change::End(60))?;
    for (change, fault) in &KEY_CHANGES {
        signed.public = changed(rt.alloc(), public.as_slice(), *change)?;
        assert!(rt; signed.verdict(signed.signature.as_slice()) == Err(*fault));
    }
    Ok(())
}

// The bytes between two places.
fn part(bytes: &[u8], start: usize, end: usize) -> &[u8] {
    bytes.get(start..end).unwrap_or(&[])
}

// Whether the signature of one tree, which stands in that of one level, is told by itself.
fn is_valid_tree(alloc: Global, signed: &Signed) -> Result<bool, AllocError> {
    let public = part(signed.public.as_slice(), 4, 60);
    let signature = part(signed.signature.as_slice(), 4, signed.signature.len());
    let message = signed.message.as_slice();
    let last_value = Change::Byte(signature.len().saturating_sub(1), 0x5a);
    let another_path = changed(alloc, signature, last_value)?;
    Ok(
        lms_verify(public, message, signature) == Ok(())
            && lms_verify(public, b"another", signature) == Err(HssFault::Root)
            && lms_verify(public, message, another_path.as_slice()) == Err(HssFault::Root)
            && lms_verify(part(public, 0, 55), message, signature) == Err(HssFault::Length),
    )
}

// The root that the path of leaf 31 leads to, whose node is number 63: each node on its way up is a right child.
fn root_above(id: &[u8; 16], key: &[u8; 32], path: &[u8]) -> [u8; 32] {
    let mut number = 63;
    let mut node = leaf_node(id, number, key);
    for sibling in path.chunks(32) {
        number /= 2;
        node = inner_node(id, number, sibling, &node);
    }
    node
}

// Whether the one-time signature of the last leaf and its path lead to the root.
fn leads_to_root(signed: &Signed) -> bool {
    let signature = signed.signature.as_slice();
    let Some(id) = part(signed.public.as_slice(), 12, 28).first_chunk() else {
        return false;
    };
    let one_time = part(signature, 8, 1132);
    match ots_candidate(id, 31, one_time, signed.message.as_slice()) {
        Ok(key) => {
            let path = part(signature, 1136, 1296);
            root_above(id, &key, path).as_slice() == part(signed.public.as_slice(), 28, 60)
        }
        Err(_) => false,
    }
}

#[test]
fn one_tree_is_told_by_itself(rt: HostRuntime) -> Result<(), Fail> {
    let signed = Signed::read(rt.alloc(), &LAST_LEAF)?;
    assert!(rt; is_valid_tree(rt.alloc(), &signed)? && leads_to_root(&signed));
    Ok(())
}

// Why bytes are no one-time signature of the message.
fn fault_of(one_time: &[u8], message: &[u8]) -> Option<HssFault> {
    ots_candidate(&[0; 16], 31, one_time, message).err()
}

// The type of a tree stands in the public key, and is none of one-time signatures.
#[test]
fn a_one_time_signature_is_told_by_itself(rt: HostRuntime) -> Result<(), Fail> {
    let signed = Signed::read(rt.alloc(), &LAST_LEAF)?;
    let one_time = part(signed.signature.as_slice(), 8, 1132);
    let message = signed.message.as_slice();
    assert!(rt; fault_of(one_time, message).is_none());
    assert!(rt; fault_of(part(one_time, 0, 1123), message) == Some(HssFault::Length));
    assert!(rt; fault_of(part(one_time, 0, 3), message) == Some(HssFault::Length));
    let tree_type = part(signed.public.as_slice(), 4, 8);
    assert!(rt; fault_of(tree_type, message) == Some(HssFault::Scheme));
    Ok(())
}
