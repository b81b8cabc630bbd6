//! Files beside which two slots, written in turn, say how much of them counts: position files, checkpoints of a
//! queue's pages, and output files. And changes of one file of a store that are settled before the call returns.
//!
//! - [`append_settled`], [`cut_settled`] and [`write_slot`] change one file: each tells what a stop at any moment may
//!   leave of it (`specs/Changes`, `specs/Slots`), beside which all others stay, and once it is done, all files of
//!   the store are at rest. Of several files, appends are settled together, and removals are not (`specs/Each`).
//! - [`record_position`] and [`read_position`]: a position file says how much of another file counts, so that a stop at
//!   any moment leaves what was recorded or what is being recorded (`specs/Positions`, `specs/PositionWrites`,
//!   and `specs/Names` for the names of such files). [`number_of`] reads the number in a file's name.
//! - [`Checkpoint`] says how a page of a queue stands, by the newest intact one of two slots (`specs/Checkpoints`,
//!   `specs/CheckpointWrites`).
//! - [`OutFile`]: bytes are appended batch by batch, and a position file says how much of a file counts, so that a stop
//!   at any moment leaves the batches so far, or these and the one that is being appended (`specs/Contents`, `specs/Outputs`).
#![tactic(auto)]

mod changes;
mod checkpoint;
pub mod checkpoint_laws;
mod checkpoint_slot;
mod each;
mod name;
mod number;
mod opening;
mod output;
pub mod output_laws;
pub mod position_laws;
mod position_slot;
mod positions;
mod recorded;
mod slots;

pub use changes::{append_settled, cut_settled};
pub use checkpoint::{Checkpoint, Slots};
pub use each::{append_each, remove_each};
pub use name::{PositionOf, position_name};
pub use number::number_of;
pub use output::OutFile;
pub use positions::{read_position, record_position, settle_and_read};
pub use recorded::Recorded;
pub use slots::{broken_slot, write_slot};
