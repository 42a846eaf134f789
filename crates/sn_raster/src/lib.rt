//! Grids of jobs, and planes of nodes over them.
//!
//! Lengths are whole tenths of a micrometre.
#![tactic(auto)]

mod beside;
mod bits;
mod filling;
mod grid;
pub mod height_laws;
mod heights;
pub mod laws;
mod leads;
mod outlines;
mod places;
mod reach;
mod segments;
mod shapes;
mod tops;
mod turns;

pub use bits::Bits;
pub use filling::{add_near, fill};
pub use grid::{Big, Grid};
pub use heights::Heights;
pub use outlines::fill_row;
