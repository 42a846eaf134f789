//! Tests of the libraries that read a part, by their public calls: from files and tokens to the model and its references.
#![tactic(auto)]

#[cfg(test)]
mod entity;
pub mod fixtures;
#[cfg(test)]
mod io;
#[cfg(test)]
mod lex;
#[cfg(test)]
mod model;
#[cfg(test)]
mod p21;
#[cfg(test)]
mod refs;
