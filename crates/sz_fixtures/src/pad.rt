//! A room in memory.

ghost use Rattle.std.specs.Prelude.{◌≡◌, ◌<◌, ◌≤◌, ◌^◌, length, Some};

use std::alloc::Global;
use sz_base::Failed;
use sz_disk::Room;

/// A room in memory, whose puts are refused while it is broken.
#[derive(Drop)]
pub struct Pad {
    space: u64,
    bytes: Vec<u8>,
    broken: bool,
    faults: u64,
    ghost word: { space < 2 ^ 64 },
    ghost within: { length bytes.items ≤ space },
}

impl Pad {
    /// A room for so many bytes, which holds none.
    pub fn create(alloc: Global, space: u64) -> Pad {
        Pad {
            space,
            bytes: Vec::new(alloc),
            broken: false,
            faults: 0,
        }
    }

    /// What the room holds.
    pub fn bytes(&self) -> &[u8] {
        self.bytes.as_slice()
    }

    /// How many puts were refused.
    pub fn faults(&self) -> u64 {
        self.faults
    }

    /// From now on each put is refused.
    pub fn break_down(&mut self) {
        self.broken = true;
    }
}

impl Room for Pad {
    ghost use Rattle.std.proofs.Common.{refl};

    ghost held = { λ pad. record {
      space = pad.space;
      used = length pad.bytes.items;
      bytes = Some pad.bytes.items;
      faults = pad.faults;
    } };

    ghost led = { λ old new. new.space ≡ old.space };

    ghost sound = { λ pad. record {
      word = pad.word;
      within = pad.within;
      counted = λ bytes is. Prim.cc;
    } };

    ghost led_same = { λ pad. refl };

    ghost led_on = { λ first middle last a b. Prim.cc };

    fn space(&self) -> u64 {
        self.space
    }

    fn used(&self) -> u64 {
        self.bytes.len() as u64
    }

    fn restart(&mut self) {
        self.bytes.clear();
    }

    fn put(&mut self, bytes: &[u8]) -> Result<(), Failed> {
        if !self.broken && self.bytes.extend_from_slice(bytes).is_ok() {
            return Ok(());
        }
        self.faults = self.faults.saturating_add(1);
        Err(Failed)
    }
}
