//! What a program sees of the outside: sources and sinks of bytes, clocks, files, connections, stores of
//! files, and who says whether it goes on; all together as a [`World`].
//!
//! A contract sees an object of the outside through its ghost members. What the object holds is told
//! as an `Option` of a list: an object in memory tells it, a real one tells None, and then no clause
//! speaks of its content. Clauses say by what a list grew or shrank in the call, never what it is, so
//! that callers can share an object. A count never falls, and each failure has its cause in a count
//! that rose in that very call, or that stands at the last value of u64. A count counts answers: it
//! stands as it was in a call that answers neither a fault nor a not-yet, also where something went wrong
//! inside that call which it got over.
//!
//! A [`Store`] is a map from names to bytes with a clock of moments. At each moment it has images, which
//! are the maps that a stop may leave: between two syncs what was written may stand in part, after a
//! sync that succeeds there is one image, which is what reads give. Contracts of the layers above
//! speak of the images at each moment of a call; the lemmas by which those compose stand in
//! `proofs/Moments` and `proofs/Beside`. [`QueueFault`] says why something that is kept in files of a
//! store was not read, and [`PageState`] what a checkpoint says of a page of a queue.
#![tactic(auto)]

mod clocks;
mod controls;
mod faults;
mod files;
mod links;
mod pages;
mod queue_faults;
mod sinks;
mod sources;
mod store_laws;
mod stores;
mod tails;
mod worlds;

pub use clocks::Clock;
pub use controls::{Control, Said};
pub use faults::{Failed, ListFault};
pub use files::Files;
pub use links::{Come, Links};
pub use pages::PageState;
pub use queue_faults::{Damage, QueueFault};
pub use sinks::{Sink, write_all};
pub use sources::{Source, Step};
pub use store_laws::{
    a_file_at_rest_has_no_frame_by_chance, moments_of_two_runs_join,
    two_runs_leave_the_files_beside_both, what_was_written_stands_there,
};
pub use stores::Store;
pub use tails::{append_and_settle, append_to_tail, cut_and_settle, settle_and_mark};
pub use worlds::World;
