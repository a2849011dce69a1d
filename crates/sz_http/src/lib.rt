//! HTTP/1.x messages in pieces (RFC 9112), as far as secure zero touch provisioning needs them.
//!
//! A `Reading` takes the bytes of one message, cut anywhere, and gives the bytes of its body as slices of the pieces.
//! It answers by the verdict on the bytes so far: more is needed, the message is whole, or it is refused, each told at
//! the byte that decides it. The verdict is a definition of a message's parts, and the laws say that it is one and that
//! it stands whatever follows.
//!
//! Of the parts, a `HeadReading` takes a head, or a trailer, looks at each byte once and says whether it is whole, can
//! still come, or can't; `Framing` says how a head's fields frame the body; a `ChunkedBody` takes a chunked body.
#![tactic(auto)]

mod chunk_fault;
mod chunk_laws;
mod chunk_place;
mod chunk_size;
mod chunked_body;
mod connection;
mod fault;
mod fed;
mod fed_chunks;
mod fields;
mod framing;
mod framing_laws;
mod head;
mod head_place;
mod head_reading;
mod kind;
mod laws;
mod parts;
mod progress;
mod reading;
mod side;

pub use chunk_fault::ChunkFault;
pub use chunk_laws::{chunked_bodies_read_once, refusals_are_one};
pub use chunk_place::MOST_LINE_BYTES;
pub use chunked_body::ChunkedBody;
pub use connection::asks_to_close;
pub use fault::HttpFault;
pub use fed::Fed;
pub use fed_chunks::FedChunks;
pub use framing::{Framing, FramingFault};
pub use framing_laws::fields_frame_once;
pub use head::{Fields, Head};
pub use head_place::MOST_FIELDS;
pub use head_reading::{HeadReading, MOST_BYTES};
pub use kind::Kind;
pub use laws::{verdicts_are_one, verdicts_stand};
pub use progress::{NoHead, Progress};
pub use reading::Reading;
pub use side::Side;
