//! The steps of a pipeline's line as one machine: what each call, by its answer, makes of what the line keeps, what
//! it tells, and what a stop within it may leave. And which step of a line comes next.
//!
//! The machine is plain data (`specs/Steps`), and knows no store, no source and no thread. What holds of all that it
//! allows stands in [`laws`]: each history is legal, the line stands where its history does, and each image that a
//! stop leaves, at each moment, is sound with the history before or behind the call.
//!
//! [`next`] chooses a step by a summary of what the line can do, the first in a fixed order. What the summary shows, by
//! where the line stands, what was refused in a turn and where parcels show, is a definition (`specs/Summaries`), and
//! what follows for the steps that are chosen stands in [`turn_laws`].
#![tactic(auto)]

mod calls;
pub mod laws;
mod summary;
pub mod turn_laws;

pub use calls::{Accepted, Act, Call, Delivered, LineFault, ReadOut};
pub use summary::{Summary, next};
