//! Lines of programs for RS274/NGC version 3 (NISTIR 6556), read by this project's profile.
//!
//! `read_line` gives what a line says, or its first fault. It takes no memory.
#![tactic(auto)]

mod byte;
mod line;
mod mark;
mod number;
mod run;
mod said;
mod table;
mod word;

pub use line::read_line;
pub use sn_geom::{Block, LineFault, LineWords, Word};
