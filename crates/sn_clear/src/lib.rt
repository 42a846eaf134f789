//! Strokes that clear an area: runs of useful centres over selected rows, then columns for what the rows leave.
#![tactic(auto)]

mod clearing;
mod columns;
mod cover;
mod field;
pub mod laws;
mod planes;
mod rows;
mod runs;
mod spot;
mod swept;
mod window;

pub use clearing::strokes;
