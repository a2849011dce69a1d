//! Why a message is not taken as signed.

/// Why no chain leads to a signer.
#[derive(Clone, Copy, Debug, PartialEq, Eq)]
pub enum Why {
    /// No certificate fits a signer whose digest fits.
    NoCandidate,
    /// Certificates fit, and none has a key under which the signer's signature verifies.
    Signature,
    /// Signatures verify, and no chain leads up to an anchor, whatever the revocation lists say.
    Path,
    /// Chains lead up to an anchor, and the revocation lists clear none.
    Revoked,
}

/// Why a message is not taken as signed.
#[derive(Clone, Copy, Debug, PartialEq, Eq)]
pub enum ChainFault {
    /// There is no content or no signer.
    NoSigner,
    /// No signer's digest is that of the content.
    BadDigest,
    /// No chain leads to a signer whose digest fits.
    NoChain {
        /// What is missing.
        why: Why,
    },
}
