//! One regular expression with all that its searches need, and lists of them.
//!
//! A [`Pattern`] is read by the grammar of the crate `regex`, and finds what that crate's
//! definitions say. It owns its tables, so it can be sent to another thread, and gives their memory
//! back when it is dropped. A search writes to tables that were made with the pattern.
#![tactic(auto)]

mod fault;
mod matcher;
mod pattern;
mod replacement;
mod searcher;

pub use fault::PatternFault;
pub use pattern::{Pattern, Patterns, Spans};
pub use replacement::{Replacement, ReplacementPart};
