//! Regions of steps: where a step may cut, what it opens, and what has to be cut.
//!
//! Lengths are whole tenths of a micrometre.
#![tactic(auto)]

mod allowed;
mod centres;
mod dilation;
pub mod good_laws;
mod gouges;
pub mod laws;
mod least;
mod morphology;
mod opening;
mod planes;
mod reach;
mod required;
mod spot;
mod spread;
mod stroke;
mod verdict;
pub mod verdict_laws;
mod widths;
mod window;

pub use allowed::Allowed;
pub use centres::Centres;
pub use dilation::dilated;
pub use gouges::Gouges;
pub use opening::Opening;
pub use reach::{first_small, first_unreached};
pub use required::Required;
pub use stroke::{Stroke, Strokes};
pub use verdict::{Cause, Verdict};
pub use window::{columns_of, has_at, put_at, rows_of};
