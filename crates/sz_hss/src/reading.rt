//! The stored form of a key, read.

ghost use Rattle.std.specs.Prelude.{◌≡◌, ℕ, suc, ◌++◌, ◌+◌, ◌^◌, ◌<◌, ◌≤◌, Bool, true, false, List, IfOk, IfErr, OnOk, OnErr, None, length, slice_index};
ghost use Rattle.std.specs.List.{list_all};
ghost use Rattle.sz_hss.specs.Key.{is_shape};
ghost use Rattle.sz_hss.specs.Leaf.{leaves_below};
ghost use Rattle.sz_hss.specs.Stored.{IsStoredKey};
ghost use Rattle.sz_hss.specs.StoredFault.{IsWrong, HasHead, first_wrong, stored_tests, is_level_count, shape_at, shape_tests, shapes_in, field_tests, part, u64_at, next_place, end_place, stored_size};
ghost use Rattle.sz_hss.specs.View.{record_of, shape_of, shapes_of};

use crate::key::Key;
use crate::level::{Level, Levels, MOST_LEVELS, is_height, is_width, leaves_of};
use crate::stored::{StoredKey, VERSION};
use arrayvec::ArrayVec;

/// The first byte of a stored key that is wrong.
#[derive(Clone, Copy, Debug, PartialEq, Eq)]
pub struct BadKey {
    /// Its place, counted from 0.
    pub place: u32,
    /// The byte there, or 0 at the end of the bytes.
    pub value: u8,
}

// The byte at a place, or 0 past the end.
fn byte_at(bytes: &[u8], place: usize) -> u8
    ensures { result ≡ slice_index bytes.now place }
{
    bytes.get(place).copied().unwrap_or(0)
}

// Refuses the byte at a place unless it passes.
fn check(passes: bool, bytes: &[u8], place: usize) -> Result<(), BadKey>
    requires { place < 2 ^ 32 }
    ensures ok { OnOk result (passes ≡ true) }
    ensures wrong { OnErr result (passes ≡ false) }
    ensures fault { IfErr result (λ fault. (fault.place ≡ place) × (fault.value ≡ slice_index bytes.now place)) }
{
    if passes {
        return Ok(());
    }
    Err(BadKey {
        place: place as u32,
        value: byte_at(bytes, place),
    })
}

// The number of levels, behind the version.
#[tactic(auto, unfolding(crate::specs::StoredFault::first_wrong, crate::specs::StoredFault::stored_tests))]
fn read_count(bytes: &[u8]) -> Result<u8, BadKey>
    ensures count { IfOk result (λ count. count ≡ slice_index bytes.now 1) }
    ensures ok { IfOk result (λ count. first_wrong (stored_tests bytes.now)
        ≡ first_wrong (shape_tests bytes.now 0 count ++ field_tests bytes.now count)) }
    ensures version { OnOk result (slice_index bytes.now 0 ≡ 1) }
    ensures known { IfOk result (λ count. is_level_count count ≡ true) }
    ensures wrong { IfErr result (λ fault. IsWrong bytes.now (stored_tests bytes.now) fault.place fault.value) }
{
    check(byte_at(bytes, 0) == VERSION, bytes, 0)?;
    let count = byte_at(bytes, 1);
    check(is_level_count(count), bytes, 1)?;
    Ok(count)
}

fn is_level_count(count: u8) -> bool
    ensures { result ≡ is_level_count count }
{
    count == 1 || count == 2 || count == 3
}

// The shape of level `k`, where `n` levels and other tests follow.
#[tactic(auto, unfolding(crate::specs::StoredFault::first_wrong))]
fn read_shape(bytes: &[u8], k: u8) -> Result<Level, BadKey>
    ensures shape { IfOk result (λ level. shape_of level ≡ shape_at bytes.now k) }
    ensures allowed { IfOk result (λ level. is_shape (shape_of level) ≡ true) }
    ensures ok { OnOk result ((n : ℕ) (rest : List (Bool × ℕ)) →
        first_wrong (shape_tests bytes.now k (suc n) ++ rest) ≡ first_wrong (shape_tests bytes.now (k + 1) n ++ rest)) }
    ensures wrong { IfErr result (λ fault. (n : ℕ) (rest : List (Bool × ℕ)) →
        IsWrong bytes.now (shape_tests bytes.now k (suc n) ++ rest) fault.place fault.value) }
{
    let place = 2 + 2 * usize::from(k);
    let level = Level {
        height: byte_at(bytes, place),
        width: byte_at(bytes, place + 1),
    };
    check(is_height(level.height), bytes, place)?;
    check(is_width(level.width), bytes, place + 1)?;
    Ok(level)
}

// The shapes of so many levels.
fn read_shapes(bytes: &[u8], count: u8) -> Result<ArrayVec<Level, MOST_LEVELS>, BadKey>
    requires { count ≤ MOST_LEVELS }
    ensures shapes { IfOk result (λ levels. shapes_of levels.items ≡ shapes_in bytes.now 0 count) }
    ensures allowed { IfOk result (λ levels. list_all is_shape (shapes_of levels.items) ≡ true) }
    ensures ok { OnOk result ((rest : List (Bool × ℕ)) →
        first_wrong (shape_tests bytes.now 0 count ++ rest) ≡ first_wrong rest) }
    ensures wrong { IfErr result (λ fault. (rest : List (Bool × ℕ)) →
        IsWrong bytes.now (shape_tests bytes.now 0 count ++ rest) fault.place fault.value) }
{
    let mut levels = ArrayVec::new();
    for k in 0..count {
        levels.push(read_shape(bytes, k)?);
    }
    Ok(levels)
}

// The levels, behind the version.
fn read_levels(bytes: &[u8]) -> Result<Levels, BadKey>
    ensures head { IfOk result (λ levels. HasHead bytes.now levels) }
    ensures ok { IfOk result (λ levels. first_wrong (stored_tests bytes.now)
        ≡ first_wrong (field_tests bytes.now (length levels))) }
    ensures wrong { IfErr result (λ fault. IsWrong bytes.now (stored_tests bytes.now) fault.place fault.value) }
{
    let count = read_count(bytes)?;
    let items = read_shapes(bytes, count)?;
    Ok(Levels::of(items))
}

// So many bytes at a place.
fn array_at<const N: usize>(bytes: &[u8], at: usize) -> [u8; N]
    requires { at + N ≤ length bytes.now }
    ensures { result ≡ part bytes.now at N }
{
    let mut array = [0; N];
    array.copy_from_slice(&bytes[at..at + N]);
    array
}

// Next and end, behind the shapes of so many levels, which have so many leaf numbers.
#[tactic(auto, unfolding(crate::specs::StoredFault::first_wrong))]
fn read_numbers(bytes: &[u8], count: usize, leaves: u64) -> Result<(u64, u64), BadKey>
    requires few { count ≤ MOST_LEVELS }
    requires leaves { leaves ≡ leaves_below (shapes_in bytes.now 0 count) }
    ensures size { OnOk result (length bytes.now ≡ stored_size count) }
    ensures numbers { IfOk result (λ pair. (pair.0 ≡ u64_at bytes.now (next_place count))
        × (pair.1 ≡ u64_at bytes.now (end_place count))) }
    ensures order { IfOk result (λ pair. (pair.0 ≤ pair.1) × (pair.1 ≤ leaves)) }
    ensures ok { OnOk result (first_wrong (field_tests bytes.now count) ≡ None) }
    ensures wrong { IfErr result (λ fault. IsWrong bytes.now (field_tests bytes.now count) fault.place fault.value) }
{
    let next_place = 2 + 2 * count + 48;
    let end_place = next_place + 8;
    let size = end_place + 8;
    check(size <= bytes.len(), bytes, bytes.len().min(size))?;
    let next = u64::from_be_bytes(array_at(bytes, next_place));
    let end = u64::from_be_bytes(array_at(bytes, end_place));
    check(next <= end, bytes, next_place)?;
    check(end <= leaves, bytes, end_place)?;
    check(bytes.len() <= size, bytes, size)?;
    Ok((next, end))
}

/// Reads a stored key, or answers its first wrong byte: in a version other than 1, a number of levels, a height or a
/// width that is not allowed, at the end of a form that ends early, in a next leaf number over the end, in an end over
/// the number of leaves, or the first byte that follows.
pub fn read(bytes: &[u8]) -> Result<StoredKey, BadKey>
    ensures ok { IfOk result (λ stored. IsStoredKey (record_of stored) bytes.now) }
    ensures sound { OnOk result (first_wrong (stored_tests bytes.now) ≡ None) }
    ensures wrong { IfErr result (λ fault. IsWrong bytes.now (stored_tests bytes.now) fault.place fault.value) }
{
    let levels = read_levels(bytes)?;
    let count = levels.as_slice().len();
    let (next, end) = read_numbers(bytes, count, leaves_of(levels.as_slice()))?;
    let seed = array_at(bytes, 2 + 2 * count);
    let id = array_at(bytes, 2 + 2 * count + 32);
    let key = Key::of(levels, seed, id);
    Ok(StoredKey { key, next, end })
}
