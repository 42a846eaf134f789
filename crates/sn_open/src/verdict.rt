//! The verdict on a program for a job, and the causes of a line at fault.

use sn_geom::{Cell, LineFault, MachFault};

/// Why a line of a program is at fault for a job. Of several causes the first in this order is told.
#[derive(Clone, Copy, Debug, PartialEq, Eq)]
pub enum Cause {
    /// The line is not read.
    LineFault(LineFault),
    /// The machine does not accept the line.
    MachFault(MachFault),
    /// A mark that does not name the next executed step.
    WrongMark,
    /// A motion from an unknown place that ends below the security height.
    LowEntry,
    /// A motion at feed before the first mark.
    Early,
    /// A motion at feed with another tool than the step's, or one in rapid with none of the job's tools.
    OtherTool,
    /// A motion at feed with another feed than the step's.
    OtherFeed,
    /// A motion at feed with another speed than the step's.
    OtherSpeed,
    /// A motion at feed that touches a material cell which is not allowed for the step: the first such cell.
    Gouge(Cell),
    /// A motion at feed, other than one of Z alone, that touches material deeper than the step's axial depth: the first
    /// such cell.
    Deep(Cell),
    /// A motion in rapid that touches a material cell: the first such cell.
    Crash(Cell),
}

/// The verdict on a program for a job: good, or the first line at fault, or else what the whole program lacks.
#[derive(Clone, Copy, Debug, PartialEq, Eq)]
pub enum Verdict {
    /// The program is good for the job.
    Yes,
    /// The first line at fault, counted from 1, and its first cause.
    Line(u64, Cause),
    /// The program does not end by M2 or M30.
    NoEnd,
    /// The first executed step without a mark, by its workingstep.
    Missing(u32),
    /// The first feature by first execution that has a required cell left, and its first such cell.
    Uncovered(u32, Cell),
}
