//! An image that was put into an area.

/// An image that was put into an area, and synced.
#[derive(Clone, Copy, Debug, PartialEq, Eq)]
pub struct Staged {
    pub area: u8,
    /// The number of its bytes.
    pub size: u64,
}
