//! Outlines and jobs: what the executed steps of a part cut, in the frame of the setup (after ISO 14649-10 and ISO 14649-11).
//!
//! Lengths are whole tenths of a micrometre.
#![tactic(auto)]

mod job;
pub mod laws;
mod limits;
mod membership;
mod outline;
mod polygon;
mod proper;
mod rule;
mod same;

pub use job::{Bottom, Job, Numbers, StepJob, Steps, Way};
pub use limits::{MOST_POINTS, MOST_STEPS};
pub use membership::inside;
pub use outline::{Outline, Points, Shape, Shapes};
pub use proper::{is_proper, tip_floor};
