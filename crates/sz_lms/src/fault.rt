//! Why a signature is refused.

/// Which rule a signature breaks, the first one in the order of the rules.
#[derive(Clone, Copy, Debug, PartialEq, Eq)]
pub enum HssFault {
    /// A part is too short, or bytes are left over.
    Length,
    /// The number of levels is not 1 to 8, or the signature has another number than the public key.
    Levels,
    /// A type is unknown, or is not the one that the public key names.
    Scheme,
    /// The leaf's number is past the last leaf of its tree.
    LeafNumber,
    /// A one-time signature and its path do not lead to the root.
    Root,
}
