//! The check of a program for a part: line by line, in pieces, to its verdict.
//!
//! Lengths are whole tenths of a micrometre.
#![tactic(auto)]

mod acts;
mod causes;
mod checker;
mod feed;
mod finish;
mod left;
mod pieces;
mod planes;

pub use checker::Checker;
pub use sn_open::{Cause, Verdict};
