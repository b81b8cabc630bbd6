//! Links between pipelines: parcels of events go one way, and an answer to each comes back.
//!
//! - [`Link::pair`] makes a link: the end of the pipeline that sends, and the end of the one that listens. Each
//!   may move to a thread of its own.
//! - [`LinkSender`] pushes parcels and hears answers, [`LinkTaker`] takes parcels and tells answers. None of their
//!   calls waits or takes memory: where the ring has no room a value comes back, and where it has nothing there
//!   is none; each such call is counted.
//! - [`Link::beside`] looks at both ends, where they are in one thread: what was taken and what is on its way are
//!   what was sent, in order, and the answers likewise.
//! - [`CountedEnd`] is one end of a ring of `rtrb`, with the count of the calls in which that ring showed nothing.
//!
//! In contracts an end is the list of what went through it: `sending` of a sender and `taking` of a taker
//! (`specs/Ends`). Both rings number what goes through them, so each side knows from its own end alone which
//! parcel has which number, and which parcel an answer is of (`specs/Numbers`).
#![tactic(auto)]

mod counted;
mod ends;
mod link;
mod parcel;
mod room;

pub use counted::CountedEnd;
pub use ends::{Addresses, LinkEnds, Listener};
pub use link::{Link, LinkSender, LinkTaker};
pub use parcel::{Answer, Heard, InTurn, Numbered, Parcel};
