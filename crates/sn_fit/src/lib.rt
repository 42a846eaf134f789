//! The strokes of steps that follow a trail or that drill.
//!
//! Lengths are whole tenths of a micrometre.
#![tactic(auto)]

mod drill;
pub mod laws;
mod trail;

pub use drill::drill_strokes;
pub use trail::trail_strokes;
