//! Judges of what stands around runs, for tests: plain code that reads as the definitions of `history_book` and `history_book`
//! do. It is proved to be safe and to end, and it is tested; no clause ties it to the definitions.
//!
//! - [`Judge`] judges one pipeline: what a stop left of its queue, its output files, its dead letters and the recorded
//!   positions of the files that it watches.
//! - [`found`] says what files of a store hold.
//! - [`Run`] judges several pipelines: what they told, sent and heard, the links between them ([`LinkTraffic`]), what came to
//!   inputs, what stdout and boxes took, and whether a pipeline is done or has stopped.
#![tactic(auto)]

mod contents;
mod dead;
mod ends;
pub mod found;
mod judge;
mod links;
mod positions;
mod run;

pub use contents::FilePlace;
pub use dead::{AppendedLetters, HeldLetters};
pub use ends::InputLooks;
pub use judge::{Judge, Places, Unsound, Witnesses, queue_is_sound};
pub use links::LinkTraffic;
pub use positions::{FileReading, WatchedFile};
pub use run::{ClosedAddress, Deed, Line, Run, SentParcel};
