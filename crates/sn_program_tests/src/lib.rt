//! Tests of the libraries of programs, by their public calls: lines, the machine, the checker, the writer, and the texts of answers.
#![tactic(auto)]

#[cfg(test)]
mod block;
#[cfg(test)]
mod gwrite;
#[cfg(test)]
mod machine;
#[cfg(test)]
mod message;
#[cfg(test)]
mod sweep;
