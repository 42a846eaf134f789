//! The writer of programs for RS274/NGC version 3 (NISTIR 6556).
//!
//! An `Emitter` writes a program to a sink, call by call. Its contracts say which bytes each call adds, what they
//! do in the machine that runs them, and what a call may follow.
#![tactic(auto)]

mod emitter;
mod kept;
mod laws;
mod parts;
mod ranges;
mod text;

pub use emitter::Emitter;
pub use kept::{Spindle, Stage};
pub use laws::{
    forms_are_read, forms_text_is_lines, kept_values, length_text_shows_length, parts_are_forms,
    parts_in_a_row, parts_mean, states_agree, text_shows_one_length,
};
pub use parts::END;
