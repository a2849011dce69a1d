//! One exchange with a server (RFC 9110 section 3.4): the connection is opened and the whole request sent, and what is
//! heard over it has one meaning for all who ask.
#![tactic(auto)]

mod opening;

pub use opening::open;
