//! Whole numbers for milling: lengths, points, tool bodies and cells; and what a line of a program says and does.
//!
//! Every length is a whole number of tenths of a micrometre, and no floating-point number is used.
#![tactic(auto)]

mod axis_words;
mod block;
mod decimal;
pub mod laws;
mod limits;
mod line_laws;
mod machine;
mod offset;
mod sweep;
mod tip;
mod units;

pub use block::{Block, LineFault, LineWords, MOST_LINE, MOST_WORDS, ModalWord};
pub use decimal::{Dec, DecFault, one_reading, one_rounding, read_dec};
pub use limits::{
    DECIMALS, FEED_SCALE, GAP, LEAST_DIAMETER, LEAST_PITCH, MOST_DIAMETER, MOST_EDGE, MOST_NODES,
    MOST_PITCH, MOST_RATE, MOST_TOOL, MOST_VALUE, NO_DEPTH, PER_MM, PER_ONE, REACH, SPEED_SCALE,
};
pub use line_laws::{line_readings, marks, word_numbers};
pub use machine::{Acts, MachFault, Motion, Word};
pub use offset::{Difference, Offset};
pub use sweep::{half_width, near, touches};
pub use tip::{MotionMode, Tip};
pub use units::{Body, Cell, Memory, Pt, Pt3, Seg, Um};
