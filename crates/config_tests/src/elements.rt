// Encodings of events, written in base 16.
use crate::json;
use element_code::{decode, encode};
use event_tree::Event;
use std::alloc::{AllocError, Global};
use table_rows::bytes_of;

/// Whether an event is written as these bytes, behind others that are there, and has their number as its size.
fn is_written(alloc: Global, event: &Event, bytes: &[u8]) -> Result<bool, AllocError> {
    let mut written = Vec::new(alloc);
    written.extend_from_slice(b"before")?;
    encode(event, &mut written)?;
    Ok(written.strip_prefix(b"before") == Some(bytes) && event.size() == bytes.len() as u64)
}

/// Adds the two objects of an event, its size, and whether it is written as these bytes.
fn add_event(to: &mut String, event: &Event, bytes: &[u8]) -> Result<(), AllocError> {
    json::add(to, event.fields())?;
    to.push('|')?;
    json::add(to, event.meta())?;
    let again = if is_written(*to.allocator(), event, bytes)? {
        "again"
    } else {
        "otherwise"
    };
    write!(to, ", {} bytes, written {again}", event.size())
}

/// Adds the event that the bytes in base 16 are read as, or their fault.
pub fn read_back(to: &mut String, line: &str) -> Result<(), AllocError> {
    let bytes = bytes_of(*to.allocator(), line)?;
    match decode(*to.allocator(), &bytes) {
        Ok(event) => add_event(to, &event, &bytes),
        Err(fault) => write!(to, "{fault}"),
    }
}
