//! The filters `json`, `csv` and `kv`: a text becomes fields.
//!
//! [`one_row`] reads the fields of a text that is one row of CSV (RFC 4180), by the crate `csv`; [`Splits`] finds the keys and
//! values that a text of pairs writes.
#![tactic(auto)]

mod csv_filter;
mod csv_laws;
mod csv_row;
mod json_filter;
mod kv_filter;
mod kv_text;
mod target;

pub use csv_filter::{Column, Csv};
pub use csv_laws::rows_are_text;
pub use csv_row::one_row;
pub use filter_settings::Applied;
pub use json_filter::Json;
pub use kv_filter::Kv;
pub use kv_text::{Splits, trimmed};
