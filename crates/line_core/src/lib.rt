//! A running pipeline of one configuration: its inputs, its queue and what else stands in its folder, its workers' batches and
//! its outputs.
//!
//! Each call of a [`Line`] is one step of the machine that `line_machine` describes. Its arguments are the parts of the
//! outside that the step needs. Behind `Store`, `Output`, `DeadFull`, and `Memory` from a delivery, a line takes no
//! further call and is opened again.
#![tactic(auto)]

mod accepting;
mod batches;
mod delivering;
mod generation;
pub mod laws;
mod line;
mod marking;
mod opening;
mod reading;
mod summing;

pub use line::{Line, LineLimits};
