//! The trees of a key that have been built, and what they sign.

ghost use Rattle.std.specs.Prelude.{◌≡◌, ◌++◌, ◌+◌, ◌^◌, ◌<◌, ◌≤◌, IfOk, OnOk, length, take, vec_len};
ghost use Rattle.sz_hss.specs.Built.{IsTreeAt};
ghost use Rattle.sz_hss.specs.Leaf.{lowest_at};
ghost use Rattle.sz_hss.specs.Signature.{AreSignatures, front_of, hss_public_of, hss_signature_of, last_of};
ghost use Rattle.sz_lms.specs.Hss.{HssOk};
ghost use Rattle.sz_lms_tree.specs.Tree.{IsAllowed, public_of, signature_of};
ghost use Rattle.sz_lms_tree.specs.View.{tree_secret};

use crate::batch::{keep, run_length, sign_run};
use crate::key::Key;
use crate::leaf::leaf_at;
use crate::level::heights_of;
use std::alloc::Global;
use std::marker::Model;
use std::thread::Threads;
use sz_base::{Bytes, Messages, OutOfMemory, Signatures};
use sz_lms_tree::{Gate, Secret, Tree, child, public_of};

/// A key, and on each level the tree that was built last, if any was. Contracts see it as the key.
#[derive(Drop)]
pub struct Trees {
    key: Key,
    trees: Vec<Tree>,
}

impl Model for Trees {
    ghost use Rattle.sz_hss.specs.Key.{HssKey};

    ghost Value = { HssKey };

    ghost view = { λ trees. trees.key };
}

// Makes the tree at a place that of the secret, unless it is already. Those before it stay, and any behind it is
// dropped once it changes.
fn stand<R: Threads + Sync, G: Gate + Sync>(
    rt: &R,
    gate: &G,
    alloc: Global,
    trees: &mut Vec<Tree>,
    at: usize,
    secret: &Secret,
) -> Result<(), OutOfMemory>
    requires allowed { IsAllowed (tree_secret secret.now) }
    requires place { at ≤ vec_len trees.old }
    ensures there { OnOk result (IsTreeAt trees.new.items at (tree_secret secret.now)) }
    ensures before { take at trees.new.items ≡ take at trees.old.items }
{
    if at < trees.len() && trees[at].is_of(secret) {
        return Ok(());
    }
    trees.truncate(at);
    let tree = Tree::build_halves(rt, gate, alloc, secret)?;
    trees.push(tree)?;
    Ok(())
}

// Puts last what leaf `q` of a tree signs the public key of the tree below it with, and that key.
fn append_pair(
    out: &mut Vec<u8>,
    alloc: Global,
    tree: &Tree,
    q: u32,
    below: &Tree,
) -> Result<(), OutOfMemory>
    requires { q < 2 ^ tree.now.height }
    ensures { OnOk result (out.new.items
        ≡ out.old.items ++ (signature_of tree.now q (public_of below.now) ++ public_of below.now)) }
{
    let key = below.public();
    let signature = tree.sign_leaf(alloc, q, &key)?;
    out.extend_from_slice(signature.as_slice())?;
    out.extend_from_slice(&key)?;
    Ok(())
}

// Builds those trees below the top one that leaf number `n` goes through and that don't stand yet, from the top, and
// gives what stands before the lowest tree's signature.
fn prepare_below<R: Threads + Sync, G: Gate + Sync>(
    rt: &R,
    gate: &G,
    alloc: Global,
    key: &Key,
    trees: &mut Vec<Tree>,
    n: u64,
) -> Result<Vec<u8>, OutOfMemory>
    requires { IsTreeAt trees.old.items 0 key.now.top }
    ensures front { IfOk result (λ out. out.items ≡ front_of key.now n) }
    ensures lowest { OnOk result
        (IsTreeAt trees.new.items (length key.now.below) (lowest_at key.now.top key.now.below n)) }
{
    let below = key.below();
    let mut secret = key.top();
    let mut heights = heights_of(below);
    let mut out = Vec::new(alloc);
    out.extend_from_slice(&(below.len() as u32).to_be_bytes())?;
    for (i, level) in below.iter().enumerate() {
        let q = leaf_at(secret.height, heights, n);
        let next = child(&secret, q, level.height, level.width);
        stand(rt, gate, alloc, trees, i + 1, &next)?;
        append_pair(&mut out, alloc, &trees[i], q, &trees[i + 1])?;
        heights -= u32::from(level.height);
        secret = next;
    }
    Ok(out)
}

// The same, with the top tree, which is built first unless it stands.
fn prepare<R: Threads + Sync, G: Gate + Sync>(
    rt: &R,
    gate: &G,
    alloc: Global,
    key: &Key,
    trees: &mut Vec<Tree>,
    n: u64,
) -> Result<Vec<u8>, OutOfMemory>
    ensures front { IfOk result (λ out. out.items ≡ front_of key.now n) }
    ensures lowest { OnOk result
        (IsTreeAt trees.new.items (length key.now.below) (lowest_at key.now.top key.now.below n)) }
{
    stand(rt, gate, alloc, trees, 0, &key.top())?;
    prepare_below(rt, gate, alloc, key, trees, n)
}

/// The signature of the message with leaf number `n`: the front, and what the lowest tree signs it with.
pub(crate) fn sign_last(
    alloc: Global,
    front: &[u8],
    lowest: &Tree,
    n: u64,
    message: &[u8],
) -> Result<Bytes, OutOfMemory>
    ensures { IfOk result (λ signature. signature ≡ front.now ++ last_of lowest.now n message.now) }
{
    let q = leaf_at(lowest.height(), 0, n);
    let last = lowest.sign_leaf(alloc, q, message)?;
    let mut signature = Bytes::from_slice(alloc, front)?;
    signature.append(last.as_slice())?;
    Ok(signature)
}

// Signs the next messages of a batch: as many as have leaf numbers of one lowest tree.
fn sign_more<R: Threads + Sync, G: Gate + Sync>(
    rt: &R,
    gate: &G,
    alloc: Global,
    key: &Key,
    trees: &mut Vec<Tree>,
    first: u64,
    messages: &[Bytes],
    signatures: &mut Vec<Bytes>,
) -> Result<(), OutOfMemory>
    requires left { vec_len signatures.old < length messages.now }
    requires room { first + length messages.now < 2 ^ 64 }
    requires so_far { AreSignatures key.now first (take (vec_len signatures.old) messages.now) signatures.old.items }
    ensures more { OnOk result (vec_len signatures.old < vec_len signatures.new) }
    ensures most { OnOk result (vec_len signatures.new ≤ length messages.now) }
    ensures so_far { OnOk result
        (AreSignatures key.now first (take (vec_len signatures.new) messages.now) signatures.new.items) }
{
    let done = signatures.len();
    let n = first + done as u64;
    let front = prepare(rt, gate, alloc, key, trees, n)?;
    let lowest = &trees[key.below().len()];
    let run = run_length(lowest, n, messages.len() - done);
    let now = &messages[done..done + run];
    let all = sign_run(rt, gate, alloc, front.as_slice(), lowest, n, now)?;
    keep(signatures, all)
}

// Signs a batch, one run after another.
fn sign_all<R: Threads + Sync, G: Gate + Sync>(
    rt: &R,
    gate: &G,
    alloc: Global,
    key: &Key,
    trees: &mut Vec<Tree>,
    first: u64,
    messages: &[Bytes],
) -> Result<Vec<Bytes>, OutOfMemory>
    requires room { first + length messages.now < 2 ^ 64 }
    ensures { IfOk result (λ signatures. AreSignatures key.now first messages.now signatures.items) }
{
    let mut signatures = Vec::with_capacity(alloc, messages.len())?;
    'runs: while signatures.len() < messages.len() {
        sign_more(
            rt,
            gate,
            alloc,
            key,
            trees,
            first,
            messages,
            &mut signatures,
        )?;
    }
    Ok(signatures)
}

impl Trees {
    /// The key, with no tree built. Takes no memory.
    pub fn of(alloc: Global, key: Key) -> Trees
        ensures { result ≡ key }
    {
        Trees {
            key,
            trees: Vec::new(alloc),
        }
    }

    /// The key with its top tree built.
    pub fn build<R: Threads + Sync, G: Gate + Sync>(
        rt: &R,
        gate: &G,
        alloc: Global,
        key: Key,
    ) -> Result<Trees, OutOfMemory>
        ensures { IfOk result (λ trees. trees ≡ key) }
    {
        let top = Tree::build_halves(rt, gate, alloc, &key.top())?;
        let mut trees = Vec::new(alloc);
        trees.push(top)?;
        Ok(Trees { key, trees })
    }

    /// The key.
    pub fn key(&self) -> &Key
        ensures { result.now ≡ self.now }
    {
        &self.key
    }

    // The top tree's public key: that tree's where it stands, and else all its leaves are computed, one after another.
    fn top_public(&self) -> [u8; 56]
        ensures { result ≡ public_of self.now.top }
    {
        let top = self.key.top();
        match self.trees.first() {
            Some(tree) if tree.is_of(&top) => tree.public(),
            _ => public_of(&top),
        }
    }

    /// The HSS public key, 60 bytes (RFC 8554 section 6.1). Takes no memory, also where no tree was built.
    pub fn public(&self) -> [u8; 60]
        ensures { result ≡ hss_public_of self.now }
    {
        let mut public = [0; 60];
        let levels = self.key.levels().len() as u32;
        public[..4].copy_from_slice(&levels.to_be_bytes());
        public[4..].copy_from_slice(&self.top_public());
        public
    }

    /// What leaf number `n` signs the message with (RFC 8554 section 6.2): the same bytes for the same key, `n` and
    /// message. Each leaf number is to sign one message only; the key does not keep count.
    pub fn sign<R: Threads + Sync, G: Gate + Sync>(
        &mut self,
        rt: &R,
        gate: &G,
        alloc: Global,
        n: u64,
        message: &[u8],
    ) -> Result<Bytes, OutOfMemory>
        ensures same { self.new ≡ self.old }
        ensures exact { IfOk result (λ signature. signature ≡ hss_signature_of self.old n message.now) }
        ensures verifies { IfOk result (λ signature. HssOk (hss_public_of self.old) message.now signature) }
    {
        let front = prepare(rt, gate, alloc, &self.key, &mut self.trees, n)?;
        let lowest = &self.trees[self.key.below().len()];
        sign_last(alloc, front.as_slice(), lowest, n, message)
    }

    /// What leaf numbers from `first` on sign the messages with, in order: of each message the bytes that `sign` gives.
    /// Leaf numbers count modulo the number of leaves.
    /// The messages that go through one lowest tree are shared out to at most as many jobs as `most_jobs` gives, and
    /// each message enters the gate as it is begun; the trees are built in their order.
    pub fn sign_batch<R: Threads + Sync, G: Gate + Sync>(
        &mut self,
        rt: &R,
        gate: &G,
        alloc: Global,
        first: u64,
        messages: &Messages,
    ) -> Result<Signatures, OutOfMemory>
        ensures same { self.new ≡ self.old }
        ensures exact { IfOk result (AreSignatures self.old first messages.now) }
    {
        let messages = messages.as_slice();
        let first = first % self.key.leaf_count();
        let signatures = sign_all(rt, gate, alloc, &self.key, &mut self.trees, first, messages)?;
        Ok(Signatures::from_vec(signatures))
    }
}
