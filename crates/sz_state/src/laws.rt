//! What stays true of a device's disk while an image is staged. Each function does nothing: its contract is the law.
//! A proof may also cite the lemma of `proofs/Elsewhere.antt` that proves it.

ghost use Rattle.std.specs.Prelude.{ℕ};
ghost use Rattle.sz_disk.specs.Disk.{LeavesOnly, TornIn};
ghost use Rattle.sz_record.specs.declared.device.Device.{Device as SomeDevice};
ghost use Rattle.sz_state.specs.Held.{IsHeld};
ghost use Rattle.sz_state.specs.Layout.{area_place, space_of};
ghost use Rattle.sz_state.specs.Ran.{NowStands};
ghost use Rattle.sz_state.specs.Stands.{Stands};
ghost use Rattle.sz_state.specs.Step.{other_area};
ghost use Rattle.sz_state.specs.declared.held.Held.{Held as SomeHeld};

use sz_disk::Disk;

/// A device that was found stays found, whatever is written in an image area, synced or not.
pub fn stays_found<D: Disk>()
    ensures { (before after : D) (held : SomeHeld) (area : ℕ) → IsHeld (D.seen before) held
        → TornIn (area_place (D.seen before).size area) (space_of (D.seen before).size) (D.seen before) (D.seen after)
        → IsHeld (D.seen after) held }
{}

/// Where each image stands for a device, whatever is written in the area that the device does not use leaves each image
/// standing for it, at every moment.
pub fn stands_while_staged<D: Disk>()
    ensures { (before after : D) (device : SomeDevice) → NowStands (D.seen before) device
        → TornIn (area_place (D.seen before).size (other_area device.image)) (space_of (D.seen before).size)
        (D.seen before) (D.seen after)
        → LeavesOnly (D.seen before) (D.seen after) (λ image. Stands image device) }
{}
