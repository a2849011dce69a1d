//! The nodes of a tree, of which the leaves are computed in halves, by as many jobs as there are processors.

ghost use Rattle.std.specs.Prelude.{◌+◌, ◌^◌, ◌<◌, ◌≤◌, IsTrue, IfOk};
ghost use Rattle.std.specs.Thread.{IsSync};
ghost use Rattle.sz_lms_tree.specs.Kept.{AreLeaves, IsKept};
ghost use Rattle.sz_lms_tree.specs.Tree.{is_height, is_width};
ghost use Rattle.sz_lms_tree.specs.View.{tree_secret};

use crate::gate::{Gate, Part};
use crate::jobs::most_jobs;
use crate::kept::{push_inner, push_leaves};
use crate::secrets::Secret;
use std::alloc::Global;
use std::thread::{Threads, join};
use sz_base::OutOfMemory;

/// The leaves of the smallest subtree, which is not halved.
const WHOLE: u32 = 32;

// So many leaves from one on, the last one first, in one thread.
fn leaves_in_turn(
    alloc: Global,
    secret: &Secret,
    from: u32,
    count: u32,
) -> Result<Vec<[u8; 32]>, OutOfMemory>
    requires height { IsTrue (is_height secret.now.height) }
    requires width { IsTrue (is_width secret.now.width) }
    requires within { from + count ≤ 2 ^ secret.now.height }
    requires room { from + count < 2 ^ 32 }
    ensures { IfOk result (λ values. AreLeaves (tree_secret secret.now) from count values.items) }
{
    let mut values = Vec::with_capacity(alloc, count as usize)?;
    push_leaves(&mut values, secret, from, from + count)?;
    Ok(values)
}

// So many leaves from one on, the last one first, in halves, by at most so many jobs. Each half enters the gate as it
// begins.
#[cycle(halves)]
fn leaves_from<R: Threads + Sync, G: Gate + Sync>(
    rt: &R,
    gate: &G,
    alloc: Global,
    secret: &Secret,
    from: u32,
    count: u32,
    jobs: usize,
) -> Result<Vec<[u8; 32]>, OutOfMemory>
    requires height { IsTrue (is_height secret.now.height) }
    requires width { IsTrue (is_width secret.now.width) }
    requires within { from + count ≤ 2 ^ secret.now.height }
    requires room { from + count < 2 ^ 32 }
    ensures { IfOk result (λ values. AreLeaves (tree_secret secret.now) from count values.items) }
{
    if count <= WHOLE || jobs < 2 {
        return leaves_in_turn(alloc, secret, from, count);
    }
    let low = count / 2;
    let high = count - low;
    let middle = from + low;
    let few = jobs / 2;
    let most = jobs - few;
    let left = move || -> Result<Vec<[u8; 32]>, OutOfMemory>
        requires { IsSync R.row × IsSync G.row × IsTrue (is_height secret.now.height)
            × IsTrue (is_width secret.now.width) × (from + low ≤ 2 ^ secret.now.height) × (from + low < 2 ^ 32) }
        ensures { IfOk result (λ values. AreLeaves (tree_secret secret.entry.now) from low values.items) }
    {
        gate.enter(Part::Half);
        leaves_from(rt, gate, alloc, secret, from, low, few)
    };
    let right = move || -> Result<Vec<[u8; 32]>, OutOfMemory>
        requires { IsSync R.row × IsSync G.row × IsTrue (is_height secret.now.height)
            × IsTrue (is_width secret.now.width) × (middle + high ≤ 2 ^ secret.now.height) × (middle + high < 2 ^ 32) }
        ensures { IfOk result (λ values. AreLeaves (tree_secret secret.entry.now) middle high values.items) }
    {
        gate.enter(Part::Half);
        leaves_from(rt, gate, alloc, secret, middle, high, most)
    };
    let (first, second) = join(rt, right, left);
    let mut values = first?;
    let mut rest = second?;
    values.append(&mut rest)?;
    Ok(values)
}

/// All nodes of the secret's tree, from the last leaf down to the root, with the leaves computed in halves.
pub(crate) fn nodes_by_halves<R: Threads + Sync, G: Gate + Sync>(
    rt: &R,
    gate: &G,
    alloc: Global,
    secret: &Secret,
) -> Result<Vec<[u8; 32]>, OutOfMemory>
    requires height { IsTrue (is_height secret.now.height) }
    requires width { IsTrue (is_width secret.now.width) }
    ensures { IfOk result (λ nodes. IsKept (tree_secret secret.now) nodes.items) }
{
    let count = secret.leaf_count();
    let mut nodes = leaves_from(rt, gate, alloc, secret, 0, count, most_jobs(rt))?;
    push_inner(&mut nodes, secret)?;
    Ok(nodes)
}
