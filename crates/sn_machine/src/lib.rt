//! The machine that runs the lines of a program (after RS274/NGC version 3, NISTIR 6556, in this project's profile).
#![tactic(auto)]

pub mod laws;
mod machine;
mod motion;
mod state;
mod words;

pub use machine::Machine;
pub use sn_geom::{Acts, Block, MachFault, Motion};
