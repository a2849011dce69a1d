//! JSON texts and their members: one reader of a member, exact both ways, and one writer of an object, for all
//! formats of the product. What a text means is said over the value that `serde_json` reads (RFC 8259); a
//! member is asked for by its name and in a form, and a refusal names the member.
#![tactic(auto)]

mod bounded;
mod document;
mod fault;
mod laws;
mod members;
mod name;
mod times;
mod writing;

pub use bounded::read_bounded;
pub use document::{read, write};
pub use fault::JsonFault;
pub use laws::{binary_is_base64, times_are_instants};
pub use members::{
    binary, flag, list, member, number, object, port, required_binary, required_object,
    required_string, required_text, string, text,
};
pub use name::Name;
pub use serde_json::Value;
pub use times::{date_time, required_time, time};
pub use writing::{Object, single};
