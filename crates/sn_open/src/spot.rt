//! Places in a window.

/// A node of a window: its column and its row, counted from the first.
#[derive(Clone, Copy, Debug, PartialEq, Eq)]
pub(crate) struct Spot {
    pub(crate) column: u32,
    pub(crate) row: u32,
}
