//! The walk over a sound model: conditions, and the machining workingsteps that are executed.
#![tactic(auto)]

mod condition;
mod fault;
pub mod laws;
mod limits;
mod node;
mod project;
mod walk;

pub use fault::WalkFault;
pub use limits::MOST_VISITS;
pub use node::{Comparison, Node};
pub use project::{main_setup, main_workplan};
pub use walk::{Numbers, executed};
