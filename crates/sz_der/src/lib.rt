//! Items of the Distinguished Encoding Rules (X.690): read one at a time from a slice, and written one after
//! another.
//!
//! `next` answers an item exactly where one stands, as slices of the input, and else the first fault that
//! applies, with its place. `DerReader` walks the items that an item holds, with their places in the input.
//! The steps of `parts` walk a format whose items have to stand in their order, with faults of the format's kinds.
//! The readers of types answer exactly where the item is of the type. None of them takes memory, and none
//! looks into what an item holds, so depth costs nothing. `DerWriter` appends whole items in their one form.
//! The laws say that items are told apart, that a place has no fault exactly where an item stands, that what
//! is written is what is read, and that a content is read alone as it is in the bytes that hold it.
#![tactic(auto)]

mod fault;
mod integers;
mod item;
mod laws;
pub mod parts;
mod reader;
pub mod tag;
mod times;
mod typed;
mod writer;

pub use fault::{DerFault, DerKind};
pub use integers::{integer, integer_u32};
pub use item::{Item, next};
pub use laws::{
    contents_are_parts, fault_or_item, integers_have_one_content, items_are_apart, written_is_read,
};
pub use parts::{PartFault, PartKind};
pub use reader::DerReader;
pub use times::time;
pub use typed::{bit_string, boolean, content_of, named_bits, octet_string, oid};
pub use writer::DerWriter;
