//! The text of a part: ISO 10303-21 clear text in this project's profile, read into a file and written from one.
#![tactic(auto)]

mod fault;
mod file;
mod grammar;
mod instances;
mod laws;
mod limits;
mod read;
mod write;

pub use fault::P21Fault;
pub use file::{Bytes, Entities, Entity, File, Instance, Param, Params, Section, Sections};
pub use instances::Instances;
pub use laws::{instances_are_spelled, numbers_have_text, reads_canonical};
pub use limits::MAX_OPEN_LISTS;
pub use read::{one_fault, one_file, read_file};
pub use write::{write_file, write_instances};
