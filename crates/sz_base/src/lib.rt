//! The plain values that every crate passes around: lists that contracts see as lists, times, serial
//! numbers, hosts, targets, identities and evidence, with the readers of their texts and the shared
//! refusals. Each form of a text is one definition of `specs/`, and a reader answers exactly by it.
#![tactic(auto)]

mod encodings;
mod evidence;
mod fault;
mod host;
mod identity;
mod image;
mod laws;
mod line;
mod list;
mod moment;
mod numbers;
mod serial;
mod target;

pub use encodings::{base64_bytes, colon_hex};
pub use evidence::{Evidence, MOST_ARTIFACT_BYTES};
pub use fault::{BaseFault, Failed, OutOfMemory, PutFault};
pub use host::Host;
pub use identity::{Identity, MOST_ANCHOR_BYTES, MOST_ANCHORS, MOST_OS_BYTES};
pub use image::{ImageFault, ImageFaults};
pub use laws::{
    base64_reads_back, hosts_read_back, numbers_read_back, pairs_read_once, serials_read_back,
    targets_read_back,
};
pub use line::LineKind;
pub use list::{Bytes, Calls, Certs, Items, Messages, Numbers, Signatures, Text, Texts};
pub use moment::{Moment, Seconds};
pub use numbers::number;
pub use serial::{MOST_SERIAL_BYTES, Serial};
pub use target::{Target, Targets};
