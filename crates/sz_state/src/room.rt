//! The room for an image that is to be put in place.

ghost use Rattle.std.specs.Prelude.{◌≡◌, ◌≤◌, IfOk, OnOk, is_err};
ghost use Rattle.sz_spec.specs.Cause.{HasCause};
ghost use Rattle.sz_disk.specs.Disk.{IsStill};
ghost use Rattle.sz_state.specs.Layout.{space_of};
ghost use Rattle.sz_state.specs.Staging.{IsFinished};

use crate::Staged;
use crate::areas::{area_place, space_of};
use sz_base::Failed;
use sz_disk::{Disk, Room};

/// The room over the area that a device's image does not use.
#[derive(Drop)]
pub struct Staging<'d, D: Disk> {
    pub(crate) disk: &'d mut D,
    pub(crate) area: u8,
    pub(crate) used: u64,
    ghost within: { used ≤ space_of (D.seen disk.now).size },
}

impl<D: Disk> Staging<'_, D> {
    /// Syncs what was put: from then on a crash leaves it.
    pub fn finish(self) -> Result<Staged, Failed>
        ensures area { IfOk result (λ staged. staged.area ≡ self.entry.area) }
        ensures size { IfOk result (λ staged. staged.size ≡ self.entry.used) }
        ensures finished { OnOk result (IsFinished (D.seen self.entry.disk.now) (D.seen self.exit.0.now)
            self.entry.area self.entry.used) }
        ensures still { IsStill (D.seen self.entry.disk.now) (D.seen self.exit.0.now) }
        ensures cause { HasCause (D.seen self.entry.disk.now).faults (D.seen self.exit.0.now).faults (is_err result) }
    {
        let Staging { disk, area, used } = self;
        finish_area(disk, area, used)
    }
}

// Syncs an area of which so many bytes were put.
fn finish_area<D: Disk>(disk: &mut D, area: u8, used: u64) -> Result<Staged, Failed>
    requires { used ≤ space_of (D.seen disk.old).size }
    ensures area { IfOk result (λ staged. staged.area ≡ area) }
    ensures size { IfOk result (λ staged. staged.size ≡ used) }
    ensures finished { OnOk result (IsFinished (D.seen disk.old) (D.seen disk.new) area used) }
    ensures still { IsStill (D.seen disk.old) (D.seen disk.new) }
    ensures cause { HasCause (D.seen disk.old).faults (D.seen disk.new).faults (is_err result) }
{
    disk.sync()?;
    Ok(Staged { area, size: used })
}

impl<D: Disk> Room for Staging<'_, D> {
    ghost use Rattle.sz_state.specs.Staging.{IsLed, room_of};
    ghost use Rattle.std.proofs.Common.{refl, ◌∙◌};
    ghost use Rattle.sz_state.specs.Laws.{led-on, led-same, staging_sound};

    ghost held = { λ staging. room_of (D.seen staging.disk.now) staging.area staging.used };

    ghost led = { λ old new. (new.disk.ghost_name ≡ old.disk.ghost_name)
        × IsLed (D.seen old.disk.now) (D.seen new.disk.now) old.area new.area };

    fn space(&self) -> u64 {
        space_of(self.disk.size())
    }

    fn used(&self) -> u64 {
        self.used
    }

    fn restart(&mut self) {
        self.used = 0;
    }

    fn put(&mut self, bytes: &[u8]) -> Result<(), Failed> {
        let at = area_place(self.disk.size(), self.area) + self.used;
        self.disk.write_at(at, bytes)?;
        self.used += bytes.len() as u64;
        Ok(())
    }

    ghost sound = { λ staging. staging_sound (D.seen staging.disk.now) staging.area staging.used
        (D.lawful staging.disk.now) staging.within };

    ghost led_same = { λ staging. (refl, led-same (D.seen staging.disk.now) staging.area) };

    ghost led_on = { λ first middle last one two. (
      two.0 ∙ one.0,
      led-on (D.seen first.disk.now) (D.seen middle.disk.now) (D.seen last.disk.now)
          first.area middle.area last.area one.1 two.1,
    ) };
}
