//! The events of lines by the codecs of inputs, and the lines of samples.

use crate::objects::new_year;
use crate::written::{bytes_of, cut};
use byte_lines::text_of_bytes;
use event_tree::{Event, Value};
use in_lines::{Codec, event_by_codec, next_number, sample_line, write_row};
use std::alloc::AllocError;
use std::str;

/// The most bytes of a line that is read.
const LINE_LEN: usize = 1_048_576;

/// Adds the fields and the metadata of the event of a line.
pub fn add_decoded(to: &mut String, row: &str) -> Result<(), AllocError> {
    let alloc = *to.allocator();
    let (name, written) = cut(row, " | ");
    let line = text_of_bytes(alloc, &bytes_of(alloc, written)?)?;
    match Codec::named(name) {
        Some(codec) if line.len() <= LINE_LEN => {
            let event = event_by_codec(alloc, codec, line.as_str(), new_year())?;
            add_event(to, &event)
        }
        _ => to.push_str("no line"),
    }
}

fn add_event(to: &mut String, event: &Event) -> Result<(), AllocError> {
    add_json(to, event.fields())?;
    to.push(' ')?;
    add_json(to, event.meta())
}

fn add_json(to: &mut String, value: &Value) -> Result<(), AllocError> {
    let mut row = Vec::new(*to.allocator());
    write_row(value, &mut row)?;
    to.push_str(str::from_utf8(&row).unwrap_or("no text").trim_end())
}

/// Adds a line of a sample: the number that it begins with, and how manieth it is.
pub fn add_sample(to: &mut String, row: &str) -> Result<(), AllocError> {
    let (from, count) = cut(row, " ");
    let mut number = from.parse().unwrap_or(0);
    let count: u16 = count.parse().unwrap_or(0);
    for _ in 0..count {
        number = next_number(number);
    }
    let line = sample_line(*to.allocator(), number)?;
    to.push_str(line.as_str())
}
