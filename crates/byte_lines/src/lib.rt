//! The lines of a stream of bytes that comes in pieces, and text from bytes that may be no text.
//!
//! - A line ends at `\n`, and one `\r` just before that `\n` is no part of the line.
//! - A line of `limit` bytes without `\n` ends there, and a `\r` at its end stays. So `limit` bytes and then `\n`
//!   are two lines, the second of them empty.
//! - At the end of the input a rest that is not empty is a line, and a `\r` at its end stays. An empty line is a line.
//! - In the text of a line each byte that begins no character of UTF-8 becomes one U+FFFD.
//!
//! `LineReader` gives the lines in time linear in the bytes, however they are cut into pieces.
#![tactic(auto)]

mod by_byte;
mod find;
mod laws;
mod reader;
mod text;

pub use by_byte::lines_of_bytes;
pub use find::{FoundLine, find_line};
pub use laws::{
    cutting_changes_nothing, lines_are_those_of_the_bytes, lines_come_one_by_one,
    text_is_that_of_the_bytes,
};
pub use reader::{LineReader, remove_front};
pub use text::text_of_bytes;
