//! Lines of watched files and of standard input, as events: the bytes of a file or a stream as they come, and of a file
//! the position that says how much of it was taken, in a position file.
//!
//! `specs/Looks` has what a poll and a line are of a reading, `specs/Streams` the same of a stream, `specs/Openings` where
//! a reading begins, `specs/Positions` what a stop leaves recorded, and `specs/Watching` which files a path stands for. In a path `*` stands for any bytes
//! ([`is_match`]).
#![tactic(auto)]

mod faults;
mod input;
pub mod laws;
mod line_buffer;
mod matching;
mod opening;
mod plan;
mod reading;
mod stdin;
mod watching;

pub use faults::OpenFault;
pub use input::FileInput;
pub use matching::is_match;
pub use plan::FilePlan;
pub use stdin::StdinInput;
pub use watching::watched_paths;
