//! The outputs of a pipeline and its dead letters.
//!
//! - [`StoredOutputs`] has what stands in the folder of the pipeline: the position files of its output files
//!   ([`OutputFiles`]), which are one for each path, and the dead letters.
//! - [`write_flushed`] writes to standard output.
//! - [`BoxedOutputs`] are the boxed outputs by their numbers: each ([`BoxedOutput`]) takes events, says which
//!   of them it rejected, and is closed once.
//! - [`append_letters`] appends letters, made by [`new_letters`], to the dead letters of the pipeline.
//!
//! `specs/OpenFiles` says when output files are ready, and what a delivery and a stop leave of them;
//! `specs/NewLetters` which letters are made of events; `specs/BoxTables` what calls by a number leave of
//! boxes; `specs/Readiness` when all is ready that stands in one folder, and that others on the store leave
//! it so.
#![tactic(auto)]

mod box_table;
mod boxes;
mod files;
pub mod laws;
mod letters;
mod open_file;
mod stdout;
mod stored;

pub use box_table::BoxedOutputs;
pub use boxes::{BoxedOutput, OutputCall};
pub use files::OutputFiles;
pub use letters::{LetterFault, append_letters, new_letters};
pub use stdout::write_flushed;
pub use stored::StoredOutputs;
