//! Whether a disk has the size of a device disk.
ghost use Rattle.std.specs.Prelude.{◌≡◌, IfErr, OnErr, OnOk};
ghost use Rattle.sz_commands.specs.Failure.{SizeRefused};
ghost use Rattle.sz_commands.specs.View.{failure_of};
ghost use Rattle.sz_state.specs.Layout.{HasLayout};

use sz_commands::Failure;
use sz_disk::Disk;
use sz_state::layout;

/// Refuses a disk whose size is not that of a device disk.
pub(crate) fn check_size<'a, D: Disk>(disk: &D) -> Result<(), Failure<'a>>
    ensures ok { OnOk result (HasLayout (D.seen disk.now).size) }
    ensures refused { OnErr result (¬ (HasLayout (D.seen disk.now).size)) }
    ensures told { IfErr result (λ failure. failure_of failure ≡ SizeRefused (D.seen disk.now).size) }
{
    let size = disk.size();
    match layout(size) {
        Some(_) => Ok(()),
        None => Err(Failure::SizeRefused(size)),
    }
}
