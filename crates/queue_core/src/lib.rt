//! The persistent queue of a pipeline, as its callers have it: it is opened in a folder, rows are written, given in
//! batches and acknowledged, a mark records that, and a purge removes pages of which nothing is left.
#![tactic(auto)]

mod acknowledged;
mod batch;
mod keeping;
mod kept;
pub mod laws;
mod limits;
mod marking;
mod opening;
mod page_rows;
mod pages;
mod purging;
mod queue;
mod rolling;
mod taking;
mod words;
mod writing;

pub use acknowledged::Acknowledged;
pub use batch::Batch;
pub use keeping::Unwritten;
pub use limits::{Limits, Numbers};
pub use page_rows::{BatchReader, QueueRow};
pub use queue::Queue;
pub use writing::WriteFault;
