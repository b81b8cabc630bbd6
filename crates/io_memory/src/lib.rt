//! Objects of the outside in memory, with scripts of the calls that fail. They tell what they hold. Files in memory,
//! by their names, are tables: changes of a file, reads, and the names in a folder.
#![tactic(auto)]

mod list_clocks;
mod list_controls;
mod listing;
mod memory_files;
mod memory_links;
mod memory_sinks;
mod memory_sources;
mod scripts;
mod tables;
mod told_looks;

pub use list_clocks::ListClock;
pub use list_controls::ListControl;
pub use listing::list_in;
pub use memory_files::{MemoryFiles, Showing};
pub use memory_links::{ConnState, ConnectionEvent, MemoryLinks};
pub use memory_sinks::MemorySink;
pub use memory_sources::{MemorySource, SourceEvent};
pub use scripts::Script;
pub use tables::{
    FileTable, append_in, bytes_in, copy, copy_from, cut_in, length_in, remove_in, write_in,
};
