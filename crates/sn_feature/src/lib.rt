//! What an executed machining workingstep means: its feature in the setup, its tool, and the step of a job that it gives, or
//! why it is refused.
#![tactic(auto)]

mod bad;
mod entities;
mod fault;
pub mod laws;
mod parts;
mod placement;
mod site;
mod sketch;
mod steps;
mod tooling;

pub use fault::StepFault;
pub use parts::StepParts;
pub use placement::{plane_height, read_placement, security_of};
pub use steps::step;
