//! Limits of jobs and of outlines.

/// The greatest number of executed steps in a job.
pub const MOST_STEPS: usize = 1_000;

/// The greatest number of points in the polyline of an outline.
pub const MOST_POINTS: usize = 1_000;

const _: () = prove!(MOST_STEPS == 1_000 && MOST_POINTS == 1_000);
