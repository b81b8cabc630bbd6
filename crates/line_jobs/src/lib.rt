//! What workers do for a pipeline.
//!
//! - A [`Job`] is a batch of events with all that a worker needs for it: a kit, the graph, and the outputs with their
//!   codecs. Its work takes the batch through the graph, and makes of what came of it what is due, with the bytes that
//!   stdout and files get. [`JobDone`] brings the kit home.
//! - [`Kits`] are the kits of one generation that are at home; their boxes are closed with it ([`Close`]).
//! - [`laws`] has that the result of a batch is what a configuration says is due of it.
#![tactic(auto)]

mod batch_result;
mod closing;
mod job;
mod kits;
pub mod laws;
mod sorting;

pub use batch_result::{BatchResult, DueDelivery};
pub use closing::{Close, close_kit};
pub use job::{Job, JobDone};
pub use kits::Kits;
