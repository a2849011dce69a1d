//! The gate at which two jobs show that they run at once.

use std::sync::atomic::{AtomicBool, AtomicU64, Ordering};
use sz_lms_tree::{Gate, Part};

/// A gate at which the first job of a part waits until a second one has come.
#[derive(Drop)]
pub struct Meeting {
    part: Part,
    entered: AtomicU64,
    met: AtomicBool,
}

impl Meeting {
    /// A gate for jobs of this part, of which none has come.
    pub fn of(part: Part) -> Meeting {
        Meeting {
            part,
            entered: AtomicU64::new(0),
            met: AtomicBool::new(false),
        }
    }

    /// How many jobs of the part have come.
    pub fn entered(&self) -> u64 {
        self.entered.load(Ordering::SeqCst)
    }

    /// The first one did not wait in vain.
    pub fn met(&self) -> bool {
        self.met.load(Ordering::SeqCst)
    }
}

impl Gate for Meeting {
    fn enter(&self, part: Part) {
        if part != self.part || self.entered.fetch_add(1, Ordering::SeqCst) > 0 {
            return;
        }
        for _ in 0..1_000_000_000u32 {
            if self.entered() > 1 {
                self.met.store(true, Ordering::SeqCst);
                return;
            }
        }
    }
}
