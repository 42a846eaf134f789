//! What a line of a program says, and what the machine that runs it does (after RS274/NGC version 3, NISTIR 6556).

use crate::units::{Pt3, Um};

/// A word of a line: its letter as a capital byte, and its value.
///
/// X, Y and Z are in units of length, G words are counted in tenths, all others in ones.
#[derive(Clone, Copy, Debug, PartialEq, Eq)]
pub struct Word {
    pub letter: u8,
    pub value: i32,
}

/// A motion of the tip.
#[derive(Clone, Copy, Debug, PartialEq, Eq)]
pub enum Motion {
    /// In rapid to a height, while the place in X and Y is unknown.
    Enter(Um),
    /// In rapid at a height to a point, from an unknown place in X and Y.
    Locate(Pt3),
    /// In rapid from a point to a point, with the number of the tool.
    Rapid(Pt3, Pt3, u32),
    /// At feed from a point to a point, with the feed in mm/min, the speed in rev/min and the number of the tool.
    Feed(Pt3, Pt3, u32, u32, u32),
}

/// What a line does, in this order: its mark names a workingstep, a tool is put into the spindle, the tip moves, the
/// program ends.
#[derive(Clone, Copy, Debug, PartialEq, Eq)]
pub struct Acts {
    pub mark: Option<u32>,
    pub tool: Option<u32>,
    pub motion: Option<Motion>,
    pub end: bool,
}

/// Why the machine does not accept a line. Of several causes the first in this order is told.
#[derive(Clone, Copy, Debug, PartialEq, Eq)]
pub enum MachFault {
    /// A percent line that is not the first line, in a file whose first line is none.
    Percent,
    /// A word or a mark after the end of the program.
    AfterEnd,
    /// Axis words with no motion active, or a motion word without axis words.
    NoMotion,
    /// A tool change with no T word so far, or a motion with no tool or tool 0.
    NoTool,
    /// A length offset of another tool than that in the spindle, or an H word without G43.
    WrongOffset,
    /// A motion before all modes were set.
    ModeUnset,
    /// A motion without an applied length offset.
    NoOffset,
    /// A motion that needs a coordinate that is not known.
    LostAxis,
    /// A motion that changes Z together with X or Y.
    Slanted,
    /// A motion at feed with F unset or 0.
    NoFeed,
    /// A motion at feed with the spindle not turning clockwise, or S unset or 0.
    SpindleOff,
}
