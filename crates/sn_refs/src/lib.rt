//! The references of a model: the instances that its project leads to, whether they are sound, and cycles.
#![tactic(auto)]

mod checked;
mod fault;
mod instance;
pub mod laws;
mod reference;
mod walk;

pub use checked::{Checked, check};
pub use fault::RefFault;
