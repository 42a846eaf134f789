//! Nodes of a window by columns and rows, and lines and runs of them.

/// A node of a window: its column and its row, counted from the first.
#[derive(Clone, Copy, Debug, PartialEq, Eq)]
pub(crate) struct Spot {
    pub(crate) column: usize,
    pub(crate) row: usize,
}

/// A row or a column of a window, and the direction in which it is gone over.
#[derive(Clone, Copy, Debug, PartialEq, Eq)]
pub(crate) enum Line {
    /// A row, in rising columns.
    Rising(usize),
    /// A row, in falling columns.
    Falling(usize),
    /// A column, in rising rows.
    Up(usize),
}

/// Nodes of a row or a column, from one to another.
#[derive(Clone, Copy, Debug, PartialEq, Eq)]
pub(crate) struct Run {
    pub(crate) from: Spot,
    pub(crate) to: Spot,
}
