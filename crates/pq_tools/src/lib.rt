//! Tools for the queue of a pipeline, for a folder that no pipeline has open.
//!
//! [`pqcheck`] says how many rows a queue has, or how it is damaged, and changes nothing. [`pqrepair`] writes what is
//! intact of a queue into a new one beside it.
#![tactic(auto)]

mod checking;
mod counting;
mod fault;
pub mod laws;
mod orders;
mod printing;
mod repairing;
mod salvaging;
mod status;
mod taking;

pub use checking::pqcheck;
pub use repairing::pqrepair;
pub use status::ToolStatus;
