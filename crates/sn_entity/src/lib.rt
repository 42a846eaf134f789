//! The table of the entities that a part program may use (after ISO 14649-10 and ISO 14649-11, in this project's own
//! profile), and what an instance shows by it.
#![tactic(auto)]

mod fault;
mod keywords;
mod laws;
mod limits;
mod measure;
mod param;
mod reads;
mod refusal;
mod row;
mod shown;
mod table;
mod value;

pub use fault::EntFault;
pub use laws::{given_where_wanted, in_group_or_not, one_row, shows_shape};
pub use limits::{kinds_have_borders, shows_within_limits};
pub use row::{Group, Kind, Read, Row, RowId};
pub use shown::{fields, one_showing, row_of};
pub use table::{Reads, reads_of};
pub use value::{Bytes, Fields, Refs, Triple, Value, Values};
