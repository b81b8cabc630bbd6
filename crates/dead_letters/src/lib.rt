//! Dead letter queues: events that were not delivered, each with the kind and the id of the plugin where it
//! failed, why, and when. A queue is a list of segments, which are files of records.
//!
//! - [`DeadLetters`] is the queue of a folder: it is opened, letters are appended by its policy, and its
//!   entries are read, also with their places ([`DeadRow`]).
//! - [`DeadLetter`] is one letter; [`write_record`] writes it, and [`read_records`] reads those of a segment.
//! - [`shed`] says which letters leave a queue, and which do not enter it, where there is no room for all.
//! - [`segment_name`] names the file of a segment, and [`pieces`] says which segments new records join.
//! - [`read_segments`] and [`count_segments`] read and write which segments count, in two slots of a file.
//!
//! `specs/Letters` has the bytes of a letter and of its record, as a grammar; `specs/Places` says where bytes stop
//! being a letter, and `specs/Records` reads the records of a segment, with the place and the two numbers of each
//! damage. `specs/Shedding` has what is shed, `specs/Queues` the names of a queue's files and the rule by which a
//! record begins the next segment, and `specs/Segments` the slots. `specs/Found` has what a folder holds, `specs/Rows`
//! its letters with their places, `specs/Appends` what an append makes of it, `specs/Ready` when a queue is ready for one, and what a stop leaves, and `specs/Opening`
//! what a stop leaves of an opening.
#![tactic(auto)]

mod append_plan;
mod appending;
mod entries;
mod faults;
mod keeping;
pub mod laws;
mod letter;
mod listing;
mod moment;
mod naming;
mod opened;
mod opening;
mod queue;
mod reading;
mod records;
mod rows;
mod segment_slot;
mod segments;
mod shedding;
mod trimming;
mod writing;

pub use faults::{DeadFault, ReadFault, RecordFault};
pub use letter::{DeadLetter, Letters};
pub use naming::{count_segments, read_segments};
pub use opened::DeadLetters;
pub use queue::{pieces, segment_name};
pub use records::read_records;
pub use rows::{DeadRow, DeadRows};
pub use segments::{Counted, Segments};
pub use shedding::{Shedding, shed};
pub use writing::write_record;
