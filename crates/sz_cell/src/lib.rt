//! A cell keeps one value on a disk, and replaces it whole: a crash at any moment leaves the value from before
//! or the new one.
//!
//! It has two slots, each with a gate, a sequence, a length and a payload, and its value is that of the open
//! slot with the greater sequence. A value is replaced in three steps, each with a type of its own: `clear`
//! closes the gate of the other slot, `fill` writes the next sequence and the payload behind that gate, and
//! `publish` opens it. Each step is synced before the next, so a gate that a crash tears can open only a value
//! that is whole. [`Ready::replace`] makes the three in one.
//!
//! The states [`Ready`], [`Cleared`] and [`Filled`] are plain values beside the disk, each consumed by its next
//! call. After a refusal the state is spent, and [`attach`] finds the cell again. No call takes memory.
#![tactic(auto)]

mod fault;
mod formatting;
mod header;
mod laws;
mod reading;
mod region;
mod slot;
mod standing;
mod state;

pub use fault::{AttachFault, ClearFault, FormatFault};
pub use formatting::format;
pub use laws::{stays_cleared, stays_filled, stays_ready};
pub use reading::attach;
pub use region::Region;
pub use state::{Cleared, Filled, Ready, read};
