//! Laws of the definitions. Each function's contract states laws, and the function does nothing.

pub mod good;
pub mod layout;
pub mod line;
pub mod text;
