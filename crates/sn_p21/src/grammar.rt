//! The grammar of a part text, read one token after another.

mod fixed;
mod list;
mod place;
mod reader;
mod value;

pub(crate) use reader::Reader;
