//! A key is made on a disk, and its public key written to a file.
ghost use Rattle.sz_keys.specs.KeyMade.{KeyMade};
ghost use Rattle.sz_keys.specs.View.{beside, made_of};

use crate::signer_failure::failure_from;
use std::alloc::Global;
use std::thread::Threads;
use sz_base::{PutFault, Text};
use sz_commands::Failure;
use sz_disk::Disk;
use sz_hss::Levels;
use sz_io::{Entropy, Folder};
use sz_lms_tree::Gate;
use sz_signer::Signer;

/// Makes a key of these levels on the disk, of random bytes, and writes its public key to the file. Gives the end of
/// its leaf numbers. Where the file can't be written, the key stands nevertheless.
pub(crate) fn make_key<'a, R: Threads + Sync, G: Gate + Sync, D: Disk, F: Folder, E: Entropy>(
    rt: &R,
    gate: &G,
    alloc: Global,
    levels: &Levels,
    public: &'a Text,
    disk: &mut D,
    folder: &mut F,
    entropy: &mut E,
) -> Result<u64, Failure<'a>>
    ensures { KeyMade D.seen levels.now public.now disk.old disk.new
        (beside (F.faults folder.old) (F.files folder.old) (E.faults entropy.old) (E.bytes entropy.old))
        (beside (F.faults folder.new) (F.files folder.new) (E.faults entropy.new) (E.bytes entropy.new))
        (made_of result) }
{
    let signer = match Signer::create(rt, gate, alloc, disk, levels, entropy) {
        Ok(signer) => signer,
        Err(fault) => return Err(failure_from(fault)),
    };
    match folder.write(public, &signer.public()) {
        Ok(()) => Ok(signer.end()),
        Err(PutFault::Failed) => Err(Failure::FileFault(public)),
        Err(PutFault::OutOfMemory) => Err(Failure::OutOfMemory),
    }
}
