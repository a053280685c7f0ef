//! How the program reads and writes: sources and sinks of bytes, and files by their names, each over the system and in
//! memory, and the calls that read or write all of one.
#![tactic(auto)]

mod adapters;
mod counts;
mod disk_files;
mod file_sources;
mod memory;
mod memory_files;
mod named;
mod streams;
mod whole;
mod whole_files;

pub use adapters::{ReadSource, WriteSink};
pub use disk_files::DiskFiles;
pub use file_sources::FileSource;
pub use memory::{MemSink, MemSource};
pub use memory_files::MemFiles;
pub use named::{FileFault, Files};
pub use streams::{Sink, Source};
pub use whole::{ReadStop, read_all, write_all};
pub use whole_files::{FileStop, read_file};
