//! Why a call of a cell is refused.
ghost use Rattle.std.specs.Prelude.{◌≡◌};
ghost use Rattle.sz_cell.specs.declared.fault.FormatFault.TheVariants.{Failed as format_fault};
ghost use Rattle.sz_cell.specs.declared.fault.AttachFault.TheVariants.{Failed as attach_fault};
ghost use Rattle.sz_cell.specs.declared.fault.ClearFault.TheVariants.{Failed as clear_fault};

use sz_base::Failed;

/// Why no cell was formatted.
#[derive(Clone, Copy, Debug, PartialEq, Eq)]
pub enum FormatFault {
    /// The disk failed.
    Failed,
    /// The gate of this slot, the first such one, is open: a cell may be there.
    InUse { slot: u8 },
}

impl From<Failed> for FormatFault {
    ghost from_gives = { λ _ e. e ≡ format_fault };

    fn from(_: Failed) -> Self {
        FormatFault::Failed
    }
}

/// Why there is no cell to use.
#[derive(Clone, Copy, Debug, PartialEq, Eq)]
pub enum AttachFault {
    /// The disk failed.
    Failed,
    /// No gate is open.
    NotFormatted,
    /// This slot is open, and its length exceeds the capacity or both slots are open with this sequence. It is
    /// the first such one.
    Damaged {
        slot: u8,
        sequence: u64,
        length: u32,
    },
}

impl From<Failed> for AttachFault {
    ghost from_gives = { λ _ e. e ≡ attach_fault };

    fn from(_: Failed) -> Self {
        AttachFault::Failed
    }
}

/// Why no slot was cleared.
#[derive(Clone, Copy, Debug, PartialEq, Eq)]
pub enum ClearFault {
    /// The disk failed.
    Failed,
    /// The value has the last sequence that there is.
    Exhausted { sequence: u64 },
}

impl From<Failed> for ClearFault {
    ghost from_gives = { λ _ e. e ≡ clear_fault };

    fn from(_: Failed) -> Self {
        ClearFault::Failed
    }
}
