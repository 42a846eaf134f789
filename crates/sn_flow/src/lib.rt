//! From a sound model to a job: the workpiece and its raw box, the security height, and the executed steps with their tools.
#![tactic(auto)]

mod fault;
mod jobs;
pub mod laws;
mod parts;
mod raw;
mod security;
mod setup;
mod steps;

pub use fault::JobFault;
pub use jobs::job;
