//! Frames: signed rotations with a shift, composed and applied exactly.
#![tactic(auto)]

mod direction;
mod frame;
pub mod laws;
mod place;

pub use direction::{Axis, Direction, Sign};
pub use frame::{Frame, FrameFault};
