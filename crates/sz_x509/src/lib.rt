//! Certificates and revocation lists (RFC 5280) with HSS/LMS keys and signatures (RFC 8708), read from a slice without
//! taking memory.
//!
//! `Cert::read` answers a certificate, and `Crl::read` a revocation list, exactly where the bytes are one, as slices
//! of them, and else the first fault, with its place. `Crl::lists` tells whether an entry has a serial number. The laws
//! say that bytes have no fault exactly where they are those of a certificate, or of a list.
#![tactic(auto)]

mod cert;
mod crl;
mod entries;
mod extensions;
mod fault;
pub mod identifier;
mod laws;
mod parts;
pub mod tag;
mod tbs;
mod tbs_list;

pub use cert::Cert;
pub use crl::Crl;
pub use fault::{CertFault, CertKind};
pub use laws::{fault_or_certificate, fault_or_list};
