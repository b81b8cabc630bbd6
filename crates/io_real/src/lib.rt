//! Objects of the outside on the real machine.
//!
//! They tell nothing of what they hold, so that of the clauses of their traits those on content hold
//! of themselves, and a method repeats the others. Each keeps its counts, and raises one in each call
//! that answers a fault or a not-yet: an error that a call gets over is counted nowhere.
#![tactic(auto)]

mod connections;
mod fault_counts;
mod file_stores;
mod folders;
mod go_controls;
mod kept_files;
mod known_folders;
mod listeners;
mod opened_files;
mod paths;
mod real_files;
mod stdin_sources;
mod system_clocks;
mod tcp_links;
mod write_sinks;

pub use file_stores::FileStore;
pub use go_controls::GoControl;
pub use real_files::RealFiles;
pub use stdin_sources::StdinSource;
pub use system_clocks::SystemClock;
pub use tcp_links::TcpLinks;
pub use write_sinks::WriteSink;
