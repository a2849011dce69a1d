//! Messages that are signed together, each with a leaf number of its own.

ghost use Rattle.std.specs.Prelude.{◌≡◌, ℕ, ◌++◌, ◌+◌, ◌%◌, ◌^◌, ◌<◌, ◌≤◌, List, IfOk, OnOk, length, map, slice_index_or, vec_len, Ok};
ghost use Rattle.sz_hss.specs.Signature.{last_of};

use crate::trees::sign_last;
use std::alloc::Global;
use std::thread::{Threads, for_each_mut};
use sz_base::{Bytes, OutOfMemory};
use sz_lms_tree::{Gate, Part, Tree, most_jobs};

// What came of an item of a batch.
type Signed = Result<Bytes, OutOfMemory>;

// Signs one item.
fn sign_item<G: Gate>(
    gate: &G,
    alloc: Global,
    front: &[u8],
    lowest: &Tree,
    n: u64,
    message: &[u8],
) -> Signed
    ensures { IfOk result (λ signature. signature ≡ front.now ++ last_of lowest.now n message.now) }
{
    gate.enter(Part::Item);
    sign_last(alloc, front, lowest, n, message)
}

// So many items, none signed yet.
fn unsigned(alloc: Global, count: usize) -> Result<Vec<Signed>, OutOfMemory>
    ensures { IfOk result (λ all. vec_len all ≡ count) }
{
    let mut all = Vec::with_capacity(alloc, count)?;
    'items: while all.len() < count {
        all.push(Err(OutOfMemory))?;
    }
    Ok(all)
}

/// Signs messages with leaf numbers from `n` on, all below one lowest tree, in at most as many jobs as `most_jobs`
/// gives: each job signs messages that follow one another.
pub(crate) fn sign_run<R: Threads + Sync, G: Gate + Sync>(
    rt: &R,
    gate: &G,
    alloc: Global,
    front: &[u8],
    lowest: &Tree,
    n: u64,
    messages: &[Bytes],
) -> Result<Vec<Signed>, OutOfMemory>
    requires { n + length messages.now < 2 ^ 64 }
    ensures count { IfOk result (λ all. vec_len all ≡ length messages.now) }
    ensures each { IfOk result (λ all. (i : ℕ) (d : _) (e : List ℕ) → i < length messages.now
        → IfOk (slice_index_or all.items i d)
        (λ signature. signature ≡ front.now ++ last_of lowest.now (n + i) (slice_index_or messages.now i e))) }
{
    let mut all = unsigned(alloc, messages.len())?;
    for_each_mut(
        rt,
        all.as_mut_slice(),
        most_jobs(rt),
        &|i, signed| {
            *signed = sign_item(
                gate,
                alloc,
                front,
                lowest,
                n + i as u64,
                messages[i].as_slice(),
            );
        },
    );
    Ok(all)
}

/// Puts the signatures last, unless one is missing.
pub(crate) fn keep(signatures: &mut Vec<Bytes>, all: Vec<Signed>) -> Result<(), OutOfMemory>
    ensures { OnOk result ((added : List (List ℕ)) × (signatures.new.items ≡ signatures.old.items ++ added)
        × (map Ok added ≡ all.items)) }
{
    let mut rest = all;
    rest.reverse();
    while let Some(signed) = rest.pop() {
        let signature = signed?;
        signatures.push(signature)?;
    }
    Ok(())
}

/// How many of so many messages can be signed from leaf number `n` on below this lowest tree.
pub(crate) fn run_length(lowest: &Tree, n: u64, left: usize) -> usize
    requires { 1 ≤ left }
    ensures some { 1 ≤ result }
    ensures most { result ≤ left }
    ensures within { n % 2 ^ lowest.now.height + result ≤ 2 ^ lowest.now.height }
{
    let leaves = 1u64 << lowest.height();
    let rest = leaves - n % leaves;
    if left as u64 <= rest {
        left
    } else {
        rest as usize
    }
}
