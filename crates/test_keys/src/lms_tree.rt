//! Tests of sz_lms_tree: trees against what other software made of the same secrets, its roots, and its signatures as
//! their SHA-256.

ghost use Rattle.std.specs.Prelude.{IsTrue};
ghost use Rattle.sz_lms_tree.specs.Tree.{is_height, is_width};

use crate::meeting::Meeting;
use sha2::{Digest, Sha256};
use std::alloc::Global;
use std::test::Fail;
use std::thread::{Threads, available_parallelism};
use sz_lms::{LmsType, OtsType};
use sz_lms_tree::{Gate, OpenGate, Part, Secret, Tree, child, leaf, root};

// A secret of these types, with trees of at most ten levels.
fn secret(tree: LmsType, one_time: OtsType, seed: [u8; 32], id: [u8; 16]) -> Secret
    ensures height { IsTrue (is_height result.height) }
    ensures width { IsTrue (is_width result.width) }
{
    let height = if tree == LmsType::H5 { 5 } else { 10 };
    let width = match one_time {
        OtsType::W1 => 1,
        OtsType::W2 => 2,
        OtsType::W4 => 4,
        OtsType::W8 => 8,
    };
    Secret {
        seed,
        id,
        height,
        width,
    }
}

// Leaf `q` of the tree of a secret signs the message with bytes of this digest, and the tree has this root.
struct Row {
    tree: LmsType,
    one_time: OtsType,
    seed: [u8; 32],
    id: [u8; 16],
    q: u32,
    message: &'static [u8],
    root: [u8; 32],
    signature: [u8; 32],
}

static ROWS: [Row; 6] = [
    // Eight bits a digit, the first leaf.
    Row {
        tree: LmsType::H5,
        one_time: OtsType::W8,
        seed: *b"\
            \xc3\xa6\x25\xb3\x47\x46\x30\xa6\x8a\x3f\x99\xcd\x62\x1e\xa5\x17\
            \x9b\xb9\x8b\xa3\xf7\x4d\x84\x2c\x1f\x1e\xfa\x58\xea\x42\x20\xcc",
        id: *b"\xfe\xb0\xda\xad\xa2\x5d\xaa\xd9\xbf\x7f\x6a\xf5\x55\x3e\xc4\x35",
        q: 0,
        message: b"message of one-h5w8\n",
        root: *b"\
            \x86\x2d\xbb\x40\xfb\x00\xb5\x45\x08\xd3\x5c\x96\x19\xac\xd5\xc5\
            \x4b\x2c\xfd\x78\x14\xc3\xd6\xbe\xd1\x3a\xc1\xf7\x6f\x3f\xd2\xee",
        signature: *b"\
            \xab\xc0\x9c\xd4\x04\x4d\xe1\x2f\x11\x1d\xfc\x4e\xb9\x78\x11\x0c\
            \xcf\x03\x83\x2f\xb5\xd9\x90\x29\xa5\x80\x69\x2d\xdd\xa1\xbf\x23",
    },
    // The last leaf.
    Row {
        tree: LmsType::H5,
        one_time: OtsType::W8,
        seed: *b"\
            \xb7\x33\xf1\xde\x71\x78\xd2\x89\x1e\xfc\x1e\x94\x1e\x8f\xdc\x43\
            \xa0\xda\x2f\x6d\xd0\x8b\x89\x2d\xf6\xf2\xa8\x82\xdc\x3d\x33\x61",
        id: *b"\xf7\xa8\x8c\xd9\x51\xaf\x03\x7f\x17\xb2\xa0\xf7\xf1\x42\x99\x88",
        q: 31,
        message: b"message of one-h5w8-last\n",
        root: *b"\
            \x67\xa4\x78\xea\x5a\xd0\x55\x7f\x70\xd1\xee\xee\x79\x1c\x2e\x6f\
            \x46\x99\x9a\x32\x71\xb8\xff\x0f\x00\xa5\xec\x48\x00\xdb\x29\xd2",
        signature: *b"\
            \x57\x98\xda\x5f\x21\x04\x16\xb9\x0f\x19\x90\xf4\x42\xf4\xc8\xd9\
            \xa3\x6f\xe8\xa3\x9f\x3e\x4f\xfd\x24\x6d\xb4\x76\x4d\x3a\x17\xca",
    },
    // Four bits a digit.
    Row {
        tree: LmsType::H5,
        one_time: OtsType::W4,
        seed: *b"\
            \xc2\xb9\xc3\xba\x3f\xf7\x8d\xa6\x82\x51\xbe\x1c\xee\x65\x4e\x42\
            \x1c\x4f\x53\xa1\xbe\xcb\xe3\x25\xca\xf9\xd3\x69\x38\x87\x85\xc9",
        id: *b"\x46\x5b\x2c\xeb\x2c\x28\x43\xe5\xf2\x3a\x87\xdf\xc2\x9f\x09\xd6",
        q: 7,
        message: b"message of one-h5w4\n",
        root: *b"\
            \x5e\x5f\x25\x23\x78\xde\x02\x1f\x6b\x50\xad\x1c\x1d\xa9\xb9\xd0\
            \xed\xf7\xcf\x05\xb4\xd8\xad\xd4\xc9\xce\x62\x02\x66\xe8\x4e\x34",
        signature: *b"\
            \x3f\x1e\x45\xbd\x8b\x62\xd3\xae\xba\x3f\x13\xc3\xfb\x06\xa4\xcd\
            \x7d\x7e\x81\x20\x46\x75\xcc\x26\x63\x6d\x75\xb4\x1f\xad\xd2\x16",
    },
    // Two bits a digit, and an empty message.
    Row {
        tree: LmsType::H5,
        one_time: OtsType::W2,
        seed: *b"\
            \xfb\x35\x38\x68\xdf\xa0\x1c\xb5\x27\x66\x26\x94\x61\x26\xe5\xef\
            \x6b\x96\xa8\x39\x86\xf9\xef\xce\xff\x69\xac\x78\xab\x7a\x9a\x4a",
        id: *b"\x19\xd2\xe0\xae\x95\x1a\x8c\xed\x5c\xa4\x51\x53\x19\x88\xb0\xff",
        q: 16,
        message: b"",
        root: *b"\
            \x73\xb9\xd8\xbf\x15\xfe\xd8\x30\x8a\x0e\xbd\x19\x95\x7e\x40\xcd\
            \xe9\xd7\x6c\x0b\x79\xd5\x8d\x8f\x3b\x89\xb6\x48\xb2\x26\x6a\xbe",
        signature: *b"\
            \x67\xdd\x57\x08\xd3\x26\x36\x8f\x53\x98\x86\x37\xf7\x03\x7d\xd4\
            \xa7\x83\x14\xe4\x6e\xb6\x90\x00\xbd\xbc\x39\x64\x06\x55\xc9\xc2",
    },
    // One bit a digit.
    Row {
        tree: LmsType::H5,
        one_time: OtsType::W1,
        seed: *b"\
            \x72\x49\x07\xf5\xf2\x8b\x92\x08\xa1\x14\x90\x7e\x92\xe6\xb5\x31\
            \x5b\x6c\xf6\x31\x57\x1c\x24\x9f\xe4\x2d\x34\x77\x83\x5d\xfe\x54",
        id: *b"\xef\x84\x96\x13\x9c\xb6\x23\x0a\xf7\x8a\x85\x07\xa0\x1d\x97\xcf",
        q: 1,
        message: b"message of one-h5w1\n",
        root: *b"\
            \x76\xb8\x20\x7d\x24\x93\xd3\xda\x44\x6a\xd4\xa3\xc0\xed\xcb\xf6\
            \xa9\x14\x54\x39\x29\x5c\x33\x00\xd9\x06\xf0\xf1\x3e\x45\x44\x8f",
        signature: *b"\
            \x20\x85\x87\xad\x11\xf5\xec\x2b\x48\x75\xcc\x82\xc6\xde\x3d\xc8\
            \xa3\x3c\xbc\xf2\x35\x58\x57\xa9\x61\xb9\xd1\x7f\x11\x38\x72\xbb",
    },
    // Ten levels.
    Row {
        tree: LmsType::H10,
        one_time: OtsType::W4,
        seed: *b"\
            \x1f\x31\xb9\xd9\xd0\x41\x2c\xf2\x93\xef\x3e\xe8\xc7\xf1\x9a\x3e\
            \xd5\x3d\xe5\xfa\x3c\xfd\x7f\x5c\xae\xb5\xdd\x2b\x5c\x28\x97\x6e",
        id: *b"\x55\x3a\x2d\xc8\xf1\xde\x16\xd9\x61\x40\xe9\xef\x77\x28\xb4\x35",
        q: 513,
        message: b"message of one-h10w4\n",
        root: *b"\
            \xb1\x45\x66\x32\x3d\x76\xe7\x94\x06\x9a\x03\xcc\xe2\xfd\x87\x02\
            \x96\xa4\x5f\x73\xb9\x17\x09\xe1\xaa\xc5\x6d\x2e\x7f\x08\x2a\x9c",
        signature: *b"\
            \xa4\x19\xc9\x4b\xcd\x58\xdb\x68\x47\x88\x96\xeb\x35\x96\x02\x3e\
            \x3c\x59\x43\xf0\xab\x5e\x46\x24\x1c\xc3\xf0\x8a\x6a\x36\x21\x84",
    },
];

// Whether a tree has the root of its row and signs so.
fn signs(alloc: Global, tree: &Tree, row: &Row) -> Result<bool, Fail> {
    if row.q >= 1 << tree.height() {
        return Err("no such leaf".into());
    }
    let signature = tree.sign_leaf(alloc, row.q, row.message)?;
    Ok(tree.root() == row.root && Sha256::digest(signature.as_slice()) == row.signature)
}

// Whether the tree of a row signs so: one of ten levels, which is computed in halves, or one of five.
fn holds<R: Threads + Sync>(rt: &R, alloc: Global, row: &Row) -> Result<bool, Fail> {
    let secret = secret(row.tree, row.one_time, row.seed, row.id);
    let tree = if row.tree == LmsType::H10 {
        Tree::build_halves(rt, &OpenGate, alloc, &secret)?
    } else {
        Tree::build(alloc, &secret)?
    };
    signs(alloc, &tree, row)
}

#[test]
fn trees_have_the_roots_and_signatures_of_other_software(rt: HostRuntime) -> Result<(), Fail> {
    for row in &ROWS {
        assert!(rt; holds(&rt, rt.alloc(), row)?);
    }
    Ok(())
}

// The sibling of leaf 0 stands first in the path of what leaf 0 signs.
#[test]
fn a_leaf_and_a_root_are_computed_alone(rt: HostRuntime) {
    let [row, ..] = &ROWS;
    let secret = Secret {
        seed: row.seed,
        id: row.id,
        height: 5,
        width: 8,
    };
    assert!(rt; leaf(&secret, 1) == SECOND_LEAF && root(&secret) == row.root);
}

const SECOND_LEAF: [u8; 32] = *b"\
    \xf5\x1e\x6c\x19\xe0\x83\x10\xb9\xd6\x95\x0d\x43\x2a\x39\x9c\x32\
    \x82\x46\xeb\x21\xb5\x03\xf7\xbe\xd8\x65\x3a\x50\x85\xbb\x84\x72";

// The top tree of two levels, which signs the lower one's types, I and root in their signature.
const UPPER: Secret = Secret {
    seed: *b"\
        \xbf\x4d\xd9\xc4\x46\x51\xf9\x07\x18\xe8\xa7\x3b\x12\x06\x4b\xd7\
        \xf6\x98\x54\xff\xf4\xcd\xc9\x88\x4c\x0f\xb9\xf3\xc6\xae\x18\xc3",
    id: *b"\x3c\xf1\x85\x12\xdc\x9e\xbc\x1e\x41\x09\x74\xd8\xf1\x0e\x3c\xac",
    height: 5,
    width: 4,
};

const LOWER_ID: [u8; 16] = *b"\x03\x02\x3c\xf9\xd5\x76\x75\xd3\xf2\xa9\x1f\xdb\x55\x24\x8c\x17";

const LOWER_ROOT: [u8; 32] = *b"\
    \x15\x30\x9d\x5c\x9b\xda\x72\xa8\x34\x13\x26\x63\x31\xce\x49\x45\
    \x75\x62\x56\x4c\x49\x0b\x60\xcb\xe0\x35\x8a\xfd\x43\x01\x9f\x60";

#[test]
fn a_child_hangs_below_its_leaf(rt: HostRuntime) {
    OpenGate.enter(Part::Half);
    let lower = child(&UPPER, 1, 5, 8);
    assert!(rt; lower.id == LOWER_ID && root(&lower) == LOWER_ROOT);
}

// Types of trees of the same seed and identifier, and whether they are halved: the first is one subtree, the other has
// 32 of them.
static HALVES: [(LmsType, OtsType, bool); 2] = [
    (LmsType::H5, OtsType::W8, false),
    (LmsType::H10, OtsType::W1, true),
];

// How many halves begin at most: each processor has one job, and there are two at least; a job more is two halves.
fn most_halves<R: Threads>(rt: &R) -> u64 {
    match available_parallelism(rt) {
        Ok(processors) => 2 * (processors.get() as u64).clamp(2, 32) - 2,
        Err(_) => 2,
    }
}

// Whether halves begin, not too many, of which two meet, where the tree is halved, and the nodes are those of the whole
// tree.
fn halves_meet<R: Threads + Sync>(
    rt: &R,
    alloc: Global,
    secret: &Secret,
    is_halved: bool,
) -> Result<bool, Fail>
    requires height { IsTrue (is_height secret.now.height) }
    requires width { IsTrue (is_width secret.now.width) }
{
    let gate = Meeting::of(Part::Half);
    let tree = Tree::build_halves(rt, &gate, alloc, secret)?;
    let whole = Tree::build(alloc, secret)?;
    let begun = gate.entered();
    Ok(
        (begun > 0) == is_halved
            && begun <= most_halves(rt)
            && gate.met() == is_halved
            && whole.nodes() == tree.nodes()
            && is_of_secret(&tree, secret),
    )
}

// Whether a tree is that of its secret alone, and shows its root, its height and the secret of a child.
fn is_of_secret(tree: &Tree, secret: &Secret) -> bool {
    let other = Secret {
        height: 15,
        width: 1,
        ..*secret
    };
    let public = tree.public();
    tree.is_of(secret)
        && !tree.is_of(&other)
        && public.starts_with(b"\x00\x00\x00")
        && public.ends_with(&tree.root())
        && tree.height() == secret.height
        && tree.child(3, 5, 8) == child(secret, 3, 5, 8)
}

#[test]
fn a_tree_by_halves_is_the_whole_tree(rt: HostRuntime) -> Result<(), Fail> {
    for &(tree, one_time, is_halved) in &HALVES {
        let secret = secret(tree, one_time, [0x01; 32], [0x11; 16]);
        assert!(rt; halves_meet(&rt, rt.alloc(), &secret, is_halved)?);
    }
    Ok(())
}
