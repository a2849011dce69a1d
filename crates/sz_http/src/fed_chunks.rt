//! What was taken of a piece.

/// What was taken of a piece of a chunked body.
#[derive(Clone, Copy)]
pub struct FedChunks<'a> {
    /// How many bytes of the piece were taken: none only where it has none or the body is whole.
    pub used: usize,
    /// The bytes of the body among them.
    pub body: &'a [u8],
    /// Whether the body is whole.
    pub done: bool,
}
