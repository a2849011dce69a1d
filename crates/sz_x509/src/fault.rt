//! Why a certificate or a revocation list was not read.

use sz_der::{PartFault, PartKind};

/// Why a certificate or a revocation list was not read.
#[derive(Clone, Copy, Debug, PartialEq, Eq)]
pub enum CertKind {
    /// An item breaks the encoding rules or has a content that is not of its type, or another part has to stand there.
    Der,
    /// The version is another one.
    Version,
    /// An algorithm is not HSS/LMS, or has parameters.
    Algorithm,
    /// The key is no HSS public key.
    Key,
    /// A time is of another type, or not written as its type is, or not real.
    Time,
    /// An extension stands twice, is critical and not known, or has a path length that is not of 32 bits.
    Extension,
}

impl PartKind for CertKind {
    ghost use Rattle.sz_x509.specs.declared.fault.CertKind.TheVariants.{Der};

    ghost BROKEN = { Der };

    const BROKEN: CertKind = CertKind::Der;
}

/// A fault, and where it is.
pub type CertFault = PartFault<CertKind>;
