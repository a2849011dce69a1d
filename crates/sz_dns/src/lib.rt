//! The bootstrap servers that DNS names to a device (RFC 8572 section 4.2): the SRV records of `_sztp._tcp` under a
//! domain, in a message as a resolver stored it (RFC 1035, RFC 2782).
//!
//! What a message means is a relation on its bytes: names through pointers, questions, records, and the order by
//! priority. Why it is refused is a table of rules. The reader answers exactly by the two.
#![tactic(auto)]

mod answer;
mod fault;
mod laws;
mod name;
mod record;
mod service;

pub use answer::targets;
pub use fault::{DnsFault, DnsKind};
pub use laws::answers_have_one_reading;
