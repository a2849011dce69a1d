//! The bootstrap servers that a DHCP server names to a device (RFC 8572 section 8): option 143 of a DHCPv4 message
//! and option 136 of a DHCPv6 message.
//!
//! A message is read whole or refused. What it means is a relation on its bytes, and why it is refused is a table of
//! rules in their order; the readers answer exactly by them, and the laws say that a message has one meaning or one
//! fault, and never both.
#![tactic(auto)]

mod fault;
mod front;
mod laws;
mod message4;
mod message6;
mod uri_list;

pub use fault::{DhcpFault, DhcpKind};
pub use laws::{messages4_have_one_reading, messages6_have_one_reading};
pub use message4::v4;
pub use message6::v6;
