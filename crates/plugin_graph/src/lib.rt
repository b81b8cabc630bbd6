//! Configurations made ready to be run, and batches that run through them.
//!
//! A [`Kit`] is all that one worker has: filters with their settings read, conditions with their
//! patterns, and outputs with their places. A [`Graph`] is the statements, laid out flat. [`run`] takes a
//! batch through both, and does what the configuration means. [`walk`] does the same with one event and
//! the configuration itself, and reads the filters without patterns from it again.
#![tactic(auto)]

mod counting;
mod graph;
mod kit;
mod kit_filter;
mod loading;
mod parts;
mod passage;
mod walker;
mod walking;

pub use graph::{Graph, run};
pub use kit::Kit;
pub use kit_filter::KitFilter;
pub use passage::{Passage, Sent};
pub use walking::walk;
