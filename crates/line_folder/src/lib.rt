//! What a pipeline has in its folder on a store: its queue, its dead letters, and its output files, of which the folder has the
//! positions alone.
//!
//! [`LineFolder`] has all of it, and its calls are those of its parts ([`queue_core::Queue`], [`line_outputs::StoredOutputs`]):
//! each does what the part's own call does, and leaves the others ready.
//!
//! `specs/FileNames` says of each file by its name to which part it belongs; `specs/Readiness` when all parts are ready, and
//! which calls of others, as of the inputs that record their positions in the folder, leave them so; `specs/Openings` what a stop
//! leaves while the folder is opened.
#![tactic(auto)]

mod folder;
pub mod laws;
mod opening;
mod output_calls;
mod queue_calls;

pub use folder::LineFolder;
