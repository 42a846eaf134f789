//! Why a command has no answer, and what is said of that and of a verdict.
#![tactic(auto)]

mod message;
mod refusal;
mod verdict_message;

pub use message::write_refusal;
pub use refusal::{Refusal, TextFault};
pub use verdict_message::write_verdict;
