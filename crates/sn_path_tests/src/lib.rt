//! Tests of the libraries that plan paths, by their public calls: strokes, moves, and what is counted of them.
#![tactic(auto)]

#[cfg(test)]
mod clear;
#[cfg(test)]
mod fit;
#[cfg(test)]
mod link;
#[cfg(test)]
mod report;
