//! Leaf numbers are handed out, each once.

ghost use Rattle.std.specs.Prelude.{◌≡◌, ◌↔◌, ℕ, ◌+◌, ◌≤◌, Err, OnErr, false, nat_lt};
ghost use Rattle.sz_disk.specs.Disk.{LeavesOnly};
ghost use Rattle.sz_signer.specs.Answer.{MeansOldOrAdvanced, ReserveAnswers};
ghost use Rattle.sz_signer.specs.Fault.{disk_failed, is_exhausted};
ghost use Rattle.sz_signer.specs.KeyDisk.{least_size};
ghost use Rattle.sz_signer.specs.State.{HasLast, Holds};
ghost use Rattle.sz_spec.specs.Cause.{HasCause};

use crate::fault::SignFault;
use crate::leaves::Leaves;
use crate::signer::Signer;
use sz_disk::Disk;
use sz_hss::spell;

impl Signer {
    /// Hands out `n` leaf numbers, from the next one on, once the disk says that they are: a crash from then on leaves
    /// the key with its next leaf number behind them, and at any moment before it leaves that key or the one from
    /// before. After `Failed` and `CellExhausted` the signer hands out no more, and the key is attached again. At
    /// `Exhausted` and `CellExhausted` nothing was written. Builds no tree, and takes no memory.
    pub fn reserve<D: Disk>(&mut self, disk: &mut D, n: u64) -> Result<Leaves, SignFault>
        requires some { 1 ≤ n }
        requires size { least_size ≤ (D.seen disk.old).size }
        requires holds { Holds (D.seen disk.old) self.old }
        ensures exhausted { is_exhausted result ≡ nat_lt self.old.stored.end (self.old.stored.next + n) }
        ensures last { is_exhausted result ≡ false → (sequence : ℕ)
            → (result ≡ Err (SignFault.CellExhausted sequence)) ↔ HasLast self.old.cell sequence }
        ensures answer { ReserveAnswers n (D.seen disk.new) self.old self.new result }
        ensures any_moment { LeavesOnly (D.seen disk.old) (D.seen disk.new) (MeansOldOrAdvanced n self.old.stored) }
        ensures untouched { OnErr result (disk_failed result ≡ false → disk.new ≡ disk.old) }
        ensures cause { HasCause (D.seen disk.old).faults (D.seen disk.new).faults (disk_failed result) }
    {
        let next = self.next;
        let end = self.end;
        if n > end - next {
            return Err(SignFault::Exhausted { next, end });
        }
        let payload = spell(self.trees.key(), next + n, end);
        let Some(ready) = self.cell.take() else {
            unreachable!()
        };
        let ready = ready.replace(disk, payload.as_slice())?;
        self.cell = Some(ready);
        self.next = next + n;
        Ok(Leaves::of(self.trees.key().copy(), next, n))
    }
}
