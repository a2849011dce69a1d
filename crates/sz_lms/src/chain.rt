//! Chains of hashes (RFC 8554 section 4.3).

ghost use Rattle.std.specs.Prelude.{◌≡◌, ◌-◌, ◌++◌, ◌∷◌, take, drop};
ghost use Rattle.std.specs.Int.{w16, w32, to_be_bytes};
ghost use Rattle.sha2.specs.Sha256.{sha256};
ghost use Rattle.sz_lms.specs.Ots.{chain};

use crate::buffer::put;
use sha2::{Digest, Sha256};

// Where the step's number and the value stand in the bytes that a step hashes.
const STEP_PLACE: usize = 22;

const VALUE_PLACE: usize = 23;

// The bytes that step 0 of a chain hashes: I, q, the chain's number, the step's and the value.
fn step_input(id: &[u8; 16], q: u32, index: u16, value: &[u8; 32]) -> [u8; 55]
    ensures { result ≡ id.now ++ to_be_bytes w32 q ++ to_be_bytes w16 index ++ 0 ∷ value.now }
{
    let mut input = [0u8; 55];
    put(&mut input, 0, id);
    put(&mut input, 16, &q.to_be_bytes());
    put(&mut input, 20, &index.to_be_bytes());
    put(&mut input, VALUE_PLACE, value);
    input
}

// Hashes the value in the bytes as that of step `j`, and puts the next value in its place.
#[inline(always)]
fn take_step(input: &mut [u8; 55], j: u8)
    ensures head { take 22 input.new ≡ take 22 input.old }
    ensures value { drop 23 input.new ≡ sha256 (take 22 input.old ++ j ∷ drop 23 input.old) }
{
    input[STEP_PLACE] = j;
    let digest = Sha256::digest(input.as_slice());
    put(input, VALUE_PLACE, &digest);
}

/// Takes a value along chain `index` of leaf `q`, from step `from` on and before step `to` (RFC 8554 section
/// 4.3). Where `to` is not past `from`, the value stays.
pub fn run_chain(id: &[u8; 16], q: u32, index: u16, from: u8, to: u8, value: &[u8; 32]) -> [u8; 32]
    ensures { result ≡ chain id.now q index from (to - from) value.now }
{
    let mut input = step_input(id, q, index, value);
    for j in from..to {
        take_step(&mut input, j);
    }
    let mut end = [0; 32];
    end.copy_from_slice(&input[VALUE_PLACE..]);
    end
}
