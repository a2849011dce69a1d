//! Messages are signed, each with a leaf number of its own.

ghost use Rattle.std.specs.Prelude.{◌≡◌, ◌+◌, ◌<◌, ◌≤◌, IfOk, length};
ghost use Rattle.sz_hss.specs.Leaf.{leaf_count};
ghost use Rattle.sz_hss.specs.Signature.{AreSignatures, hss_public_of, hss_signature_of};
ghost use Rattle.sz_lms.specs.Hss.{HssOk};
ghost use Rattle.sz_signer.specs.Leaves.{VerifyEach, one_spent};

use crate::leaves::Leaves;
use crate::signer::Signer;
use std::alloc::Global;
use std::thread::Threads;
use sz_base::{Bytes, Messages, OutOfMemory, Signatures};
use sz_lms_tree::Gate;

impl Signer {
    /// Signs a message with the next of the leaf numbers, which is spent, also on refusal, and is one that the key has.
    /// The trees that it goes through are built where they do not stand yet, the top one too.
    pub fn sign<R: Threads + Sync, G: Gate + Sync>(
        &mut self,
        rt: &R,
        gate: &G,
        alloc: Global,
        leaves: &mut Leaves,
        message: &[u8],
    ) -> Result<Bytes, OutOfMemory>
        requires left { 1 ≤ leaves.old.left }
        requires key { leaves.old.key ≡ self.old.stored.key }
        ensures exact { IfOk result (λ signature.
            signature ≡ hss_signature_of self.old.stored.key leaves.old.first message.now) }
        ensures verifies { IfOk result (λ signature. HssOk (hss_public_of self.old.stored.key) message.now signature) }
        ensures within { leaves.old.first < leaf_count self.old.stored.key }
        ensures spent { leaves.new ≡ one_spent leaves.old }
        ensures same { self.new ≡ self.old }
    {
        let n = leaves.spend();
        self.trees.sign(rt, gate, alloc, n, message)
    }

    /// Signs each message with a leaf number of its own: item i with the i-th of them, all of which the key has. All
    /// are spent, also on refusal. The trees are built in their order; the messages below one lowest tree are shared
    /// out to at most as many jobs as `most_jobs` gives, and each enters the gate as it is begun.
    pub fn sign_batch<R: Threads + Sync, G: Gate + Sync>(
        &mut self,
        rt: &R,
        gate: &G,
        alloc: Global,
        leaves: Leaves,
        messages: &Messages,
    ) -> Result<Signatures, OutOfMemory>
        requires count { leaves.left ≡ length messages.now }
        requires key { leaves.key ≡ self.old.stored.key }
        ensures exact { IfOk result (AreSignatures self.old.stored.key leaves.first messages.now) }
        ensures verify { IfOk result (VerifyEach (hss_public_of self.old.stored.key) messages.now) }
        ensures within { leaves.first + length messages.now ≤ leaf_count self.old.stored.key }
        ensures same { self.new ≡ self.old }
    {
        let first = leaves.first();
        leaves.drop_rest();
        self.trees.sign_batch(rt, gate, alloc, first, messages)
    }
}
