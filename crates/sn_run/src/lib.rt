//! What the words of a command ask for: reading and judging parts, their programs and counts, verdicts, and the top call.
#![tactic(auto)]

mod compile;
mod find;
mod generated;
mod judge;
pub mod laws;
mod loading;
mod prepare;
mod program_reading;
mod reading;
mod report;
mod status;
mod top_call;
mod verify;

pub use status::Status;
pub use top_call::{run, run_steadily};
