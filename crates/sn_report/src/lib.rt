//! The counts of a part, and the part that is generated from a number.
#![tactic(auto)]

mod common;
mod counts;
mod draws;
mod feature;
mod generated;
mod job_rows;
mod laws;
mod params;
mod report;

pub use counts::{CountRow, CountRows, Counts};
pub use generated::make_part;
pub use job_rows::job_counts;
pub use laws::{one_count, seed_none_begins_so, seeds_give_sixteen, slots_are_written};
pub use report::summary;
