//! The counts of a part.

use sqlite_items::Items;

/// The counts of an executed step.
#[derive(Clone, Copy, Debug, PartialEq, Eq)]
pub struct CountRow {
    /// The instance number of the workingstep.
    pub ws: u32,
    /// The number of the tool in the program, from 1.
    pub tool: u32,
    /// How many strokes each of its layers has, and 0 where it has no moves.
    pub strokes: u64,
    pub layers: u64,
    /// How often the tool is lifted.
    pub lifts: u64,
    /// How many cells of material it removes.
    pub cells: u64,
}

/// Rows of counts, seen as their list.
pub type CountRows = Items<CountRow>;

/// The counts of a part: how many nodes its window has across and up, and a row for each executed step.
#[derive(Debug, Drop)]
pub struct Counts {
    pub across: u32,
    pub up: u32,
    pub rows: CountRows,
}
