//! What a pipeline tells of its steps: its entries, the books that are told them, and what holds of every such history.
//!
//! The definitions of entries, of where a pipeline stands after some, and of which histories are legal stand in
//! `specs/Entries`, `specs/States` and `specs/Legal`; each type here says which of them it is. When everything around the
//! pipelines of a run agrees with what they did (their stores, what came to their inputs, the files that these watch, and
//! stdout and boxes), and what a run has done where it ends, stands beside them. Their laws are the contracts of [`laws`] and
//! [`source_laws`].
#![tactic(auto)]

mod blank;
mod book;
mod copies;
mod entry;
mod full;
mod kept;
pub mod laws;
pub mod source_laws;

pub use blank::BlankBook;
pub use book::Book;
pub use entry::{Entry, ParcelAt};
pub use full::{FullBook, Told};
pub use kept::KeptEntry;
