//! The reader of a queue of dead letters: it sends the letters that stand in the queue of a folder on a link, to
//! whoever listens on the address `dlq:` with the id of the pipeline, and records how far they were answered.
//!
//! - [`DeadSender`] is opened on a folder with the end of a link, and each of its steps hears an answer or sends a
//!   parcel ([`SendOutcome`]).
//!
//! `specs/Parcels` says which events the parcels of a link have by their answers, and `specs/Work` how these stand to
//! the letters; `specs/Steps` has what each call makes of that by its answer, and what holds behind any list of calls.
//! `specs/Marks` has the event of a letter, `specs/Places` the place that is recorded, `specs/Names` the names.
//! `specs/Ready` says when a reader is ready for a step and what a stop leaves of it, `specs/Opening` what an opening
//! finds.
#![tactic(auto)]

pub mod laws;
mod marks;
mod names;
mod opening;
mod place;
mod recording;
mod sender;

pub use sender::{DeadSender, SendOutcome};
