//! Certificates and revocation lists (RFC 5280) with HSS/LMS keys and signatures (RFC 8708), written.
//!
//! `write_tbs` and `write_crl_tbs` write what an issuer signs: a TBSCertificate, and a TBSCertList, of given values, in
//! one form alone. `write_cert` and `write_crl` add a signature; `sz_x509` reads what they give as the certificate, or
//! the list, that says these values.
#![tactic(auto)]

mod cert;
mod extensions;
mod laws;
mod list;
mod parts;
mod times;

pub use cert::{CertSpec, write_cert, write_tbs};
pub use laws::written_once;
pub use list::{CrlSpec, write_crl, write_crl_tbs};
pub use times::is_writable;
