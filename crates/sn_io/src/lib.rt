//! Files that are read and sinks that are written, with what each call may do to them.
//!
//! Programs are generic over both, so that their contracts can name the bytes that were read and written. Files and
//! sinks in memory tell their content; the machine's files and outputs do not.
#![tactic(auto)]

mod bytes;
mod calls;
mod count_sink;
mod disk_files;
mod files;
pub mod laws;
mod mem_files;
mod mem_sink;
mod out_sink;
mod sink;
mod steady_files;
mod steady_sink;

pub use count_sink::CountSink;
pub use disk_files::DiskFiles;
pub use files::{Failed, Files};
pub use mem_files::MemFiles;
pub use mem_sink::MemSink;
pub use out_sink::OutSink;
pub use sink::{Sink, WriteFault, write_all};
pub use steady_files::SteadyFiles;
pub use steady_sink::SteadySink;
