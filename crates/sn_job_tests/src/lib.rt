//! Tests of the libraries that make the job of a part, by their public calls: words, the walk, frames, steps and jobs.
#![tactic(auto)]

#[cfg(test)]
mod feature;
#[cfg(test)]
mod flow;
#[cfg(test)]
mod frame;
#[cfg(test)]
mod walk;
#[cfg(test)]
mod words;
