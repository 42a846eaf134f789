//! The program of a job: its text, what the machine does by it, and that it is good for the job.
//!
//! Lengths are whole tenths of a micrometre.
#![tactic(auto)]

pub mod laws;
mod numbers;
mod program;
mod writer;

pub use numbers::instance_numbers;
pub use program::write_program;
pub use sn_gwrite::END;
