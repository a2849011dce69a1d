//! What was taken of a piece.

/// What was taken of a piece of a message.
#[derive(Clone, Copy, Debug, PartialEq, Eq)]
pub struct Fed<'a> {
    /// How many bytes of the piece were taken: none only where it has none or the message is whole.
    pub used: usize,
    /// The bytes of the body among them.
    pub body: &'a [u8],
    /// Whether the message is whole.
    pub done: bool,
}
