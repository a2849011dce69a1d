//! A voucher, as a value.

use sz_base::{Bytes, Seconds, Text};

mod judgement;
mod laws;
mod reading;
mod writing;

pub use judgement::{VoucherFault, judge};
pub use laws::{faultless_values_are_vouchers, judged_vouchers_fit, nonces_have_their_moment};
pub use writing::write_voucher;

/// The fewest bytes of a nonce (RFC 8366 section 5.3).
pub const SHORTEST_NONCE: usize = 8;

/// The most bytes of a nonce.
pub const LONGEST_NONCE: usize = 32;

/// How the maker knows the owner (RFC 8366 section 5.3).
#[derive(Clone, Copy, Debug, PartialEq, Eq)]
pub enum Assertion {
    Verified,
    Logged,
    Proximity,
}

/// A voucher (RFC 8366 section 5.3).
#[derive(Debug, Drop)]
pub struct Voucher {
    /// The last second of its validity, where it has one.
    pub expires_on: Option<Seconds>,
    /// The serial number of the device that it is for.
    pub serial: Text,
    /// The certificate of the owner's domain, in DER.
    pub pinned: Bytes,
    /// Whether the owner's certificates are to be looked up in revocation lists.
    pub revocation: bool,
    /// `SHORTEST_NONCE` to `LONGEST_NONCE` bytes, where it was read.
    pub nonce: Option<Bytes>,
    pub assertion: Assertion,
    pub created_on: Seconds,
}
