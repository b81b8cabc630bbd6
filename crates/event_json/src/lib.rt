//! Values as JSON, both ways, and instants as text.
//!
//! `specs/Grammar` has the grammar of JSON texts (RFC 8259), `specs/JsonValues` their values and where bytes stop being
//! the front of one; their laws stand in `proofs/`, and [`hex`] and [`short`] are what single bytes of an escape say.
#![tactic(auto)]

mod escapes;
mod fault;
mod front;
mod json;
pub mod laws;
mod read;
mod scan;
mod string;
mod time;

pub use escapes::{hex, short};
pub use fault::JsonFault;
pub use json::write_json;
pub use read::{number_of, read_json};
pub use time::time_text;
