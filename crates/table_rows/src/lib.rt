//! What the programs over tables share: tables printed row by row, the words of a row, and bytes in base 16.
#![tactic(auto)]

mod bytes;
mod tables;
mod words;

pub use bytes::{add_bytes, bytes_of};
pub use tables::{AnswerRows, print_table, print_tables};
pub use words::{first_number, first_word, part};
