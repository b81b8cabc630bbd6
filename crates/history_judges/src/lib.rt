//! Judges of histories, for tests: plain code that reads as the definitions of `history_book` do. It is proved to be safe
//! and to end, and it is tested; no clause ties it to the definitions.
//!
//! - [`State::step`] is the rule of each entry, and where a pipeline stands behind it ([`Reason`] says why one isn't legal);
//!   [`state_after`] goes through a history ([`history_of`] a book).
//! - [`rejections`] and its like say which letters events have that a box rejects.
//! - [`Meaning`] is what a judge has to be told of configurations.
//!
//! What stands around a run is judged by `run_judges`.
#![tactic(auto)]

mod history;
mod meaning;
mod reason;
pub mod rejections;
mod state;
mod steps;

pub use history::{history_of, state_after};
pub use meaning::{Derived, Due, DueEvents, Given, Meaning, Plan, SourceLook};
pub use reason::{Fault, Illegal, Judged, Reason, want};
pub use state::{Between, Input, Limits, Out, Shed, State, Written};
