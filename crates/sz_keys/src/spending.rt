//! A message is signed with the next leaf number of the key on a disk.
ghost use Rattle.sz_keys.specs.LeafSpent.{MaySpend, fails_at_disk};
ghost use Rattle.sz_keys.specs.View.{signed_of};
ghost use Rattle.sz_spec.specs.Cause.{HasCause};

use crate::signer_failure::failure_from;
use std::alloc::Global;
use std::thread::Threads;
use sz_base::Bytes;
use sz_commands::Failure;
use sz_disk::Disk;
use sz_lms_tree::Gate;
use sz_signer::Signer;

/// Signs the message with the next leaf number of the key on the disk, once the disk says that it is spent. Gives the
/// number and the signature. A number that was handed out is spent, also where memory runs out.
pub(crate) fn sign_with_next<'a, R: Threads + Sync, G: Gate + Sync, D: Disk>(
    rt: &R,
    gate: &G,
    alloc: Global,
    message: &[u8],
    disk: &mut D,
) -> Result<(u64, Bytes), Failure<'a>>
    ensures may { MaySpend D.seen message.now disk.old disk.new (signed_of result) }
    ensures cause { HasCause (D.seen disk.old).faults (D.seen disk.new).faults (fails_at_disk (signed_of result)) }
{
    let mut signer = match Signer::attach(rt, gate, alloc, disk) {
        Ok(signer) => signer,
        Err(fault) => return Err(failure_from(fault)),
    };
    let mut leaves = match signer.reserve(disk, 1) {
        Ok(leaves) => leaves,
        Err(fault) => return Err(failure_from(fault)),
    };
    let leaf = leaves.first();
    let signed = signer.sign(rt, gate, alloc, &mut leaves, message);
    leaves.drop_rest();
    match signed {
        Ok(signature) => Ok((leaf, signature)),
        Err(_) => Err(Failure::OutOfMemory),
    }
}
