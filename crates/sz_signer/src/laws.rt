//! Laws of keys on disks. Each is a theorem, which the function of its name carries; a call does nothing.

ghost use Rattle.std.specs.Prelude.{List};
ghost use Rattle.sz_hss.specs.Key.{HssKey};
ghost use Rattle.sz_signer.specs.Life.{AreOnce, Begins, Life, Lives, Step};

use sz_disk::Disk;

/// Over every list of signers made and found on one disk, of sessions, refusals and power cuts, where the disk tells
/// what a crash may leave, all that is signed is signed by one key with leaf numbers that it has, and none of them
/// signs twice; so each leaf of each tree of each level signs one byte string.
pub fn leaf_numbers_sign_once<D: Disk>()
    ensures { (life : Life D) (steps : List Step) → Begins D.seen life → Lives D.seen life steps
        → (key : HssKey) × AreOnce key steps }
{}
