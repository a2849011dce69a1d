//! A message, and what is kept of it.

use crate::{Kind, Signer};
use arrayvec::ArrayVec;

/// The most certificates that a message may have.
pub const MOST_CERTS: usize = 16;
/// The most revocation lists that a message may have.
pub const MOST_CRLS: usize = 8;
/// The most signers that a message may have.
pub const MOST_SIGNERS: usize = 4;

/// A message (RFC 5652 section 3), as slices of its bytes.
#[derive(Debug, Drop)]
pub enum Info<'a> {
    /// A content that is not signed.
    Plain {
        /// Its type.
        kind: Kind<'a>,
        /// The content, which is empty where it is enveloped.
        content: &'a [u8],
    },
    /// Signed data.
    Signed(Signed<'a>),
}

/// Signed data (RFC 5652 section 5.1), as slices of its bytes. No signature has been checked.
#[derive(Debug, Drop)]
pub struct Signed<'a> {
    /// The type of the content.
    pub kind: Kind<'a>,
    /// The content, where there is one.
    pub content: Option<&'a [u8]>,
    /// The certificates, each a whole item that is not looked into.
    pub certs: ArrayVec<&'a [u8], MOST_CERTS>,
    /// The revocation lists, each a whole item that is not looked into.
    pub crls: ArrayVec<&'a [u8], MOST_CRLS>,
    /// The signers.
    pub signers: ArrayVec<Signer<'a>, MOST_SIGNERS>,
}
