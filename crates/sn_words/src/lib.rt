//! The words of a command line: what they ask for, or the place of the first that cannot stand there.
#![tactic(auto)]

mod command_line;
mod fault;
pub mod laws;
mod limits;
mod number;
mod options;
mod seen;
mod setting;
mod words;

pub use command_line::values;
pub use fault::WordFault;
pub use limits::{DEFAULT_PITCH, MOST_SEED, PER_UM};
pub use options::{Assign, Assigns, Command, Opts, RawBox};
pub use words::Words;
