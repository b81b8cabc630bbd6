//! Events and rows as bytes, one spelling each.
#![tactic(auto)]

mod decoding;
mod encoding;
mod fault;
pub mod laws;
mod reading;
mod row;
mod tags;
mod testing;
mod utf8;

pub use decoding::decode;
pub use encoding::encode;
pub use fault::ElementFault;
pub use row::{Origin, Row, decode_row, encode_row};
pub use testing::{event_fault, row_fault};
