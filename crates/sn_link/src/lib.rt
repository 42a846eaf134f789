//! Moves of the executed steps of a job: how each step is cut, over the material that the steps before it leave.
//!
//! Lengths are whole tenths of a micrometre.
#![tactic(auto)]

mod free_way;
pub mod laws;
mod layers;
mod material;
mod moves;
mod planes;
mod planner;
mod span;
mod step_plan;

pub use moves::{Move, Moves, over};
pub use planner::{PlannedStep, Plans, plan};
pub use step_plan::{Planned, plan_step};
