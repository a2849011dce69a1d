//! What is told of a head after each piece.

/// How far a head has come.
#[derive(Clone, Copy, Debug, PartialEq, Eq)]
pub enum Progress {
    /// All of the piece belongs to the head, which is not whole yet.
    More,
    /// The head is whole.
    Whole {
        /// How many bytes of the piece belong to it.
        used: usize,
    },
}

/// No head can come of the bytes, whatever follows: `httparse` takes none that begins with them, or none within
/// 64 fields and 65,536 bytes.
#[derive(Clone, Copy, Debug, PartialEq, Eq)]
pub struct NoHead;
