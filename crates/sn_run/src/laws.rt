//! Laws of the definitions. Each function's contract states laws, and the function does nothing.

pub mod command;
pub mod outcome;
