//! The instances of a part, each by its row of the table of entities.
#![tactic(auto)]

mod fault;
mod laws;
mod model;

pub use fault::ModelFault;
pub use laws::{kept_by_row, kept_within_limits, one_model, project_has_row, rows_have_numbers};
pub use model::{Entry, Kept, Model, build};
