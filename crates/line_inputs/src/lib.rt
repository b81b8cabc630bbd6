//! The inputs of a pipeline as its line has them: standard input, generators, watched files and connections, opened by their settings,
//! polled, and their events taken; and of watched files the places behind the lines of rows, so that positions are recorded up to a front.
#![tactic(auto)]

mod generated;
pub mod laws;
mod open_input;
mod opening;
mod settings;
mod source;
mod starting;
mod watched;
mod watched_file;

pub use generated::{GeneratedInput, POLL_LIMIT};
pub use open_input::OpenInput;
pub use opening::{open_files, position_path};
pub use settings::{event_settings, generator};
pub use source::InputSource;
pub use watched::WatchedFiles;
pub use watched_file::{RowPlace, WatchedFile};
