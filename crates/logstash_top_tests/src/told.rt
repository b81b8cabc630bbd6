//! What a sink holds, as it is told.

use io_memory::MemorySink;
use std::alloc::AllocError;
use std::str;

/// How often a character stands in a row where it is told by its count.
const MANY: usize = 8;

/// Adds how many calls of a sink were made and failed, whether all that it took is flushed, and what it took.
pub fn add_sink(to: &mut String, name: &str, sink: &MemorySink) -> Result<(), AllocError> {
    let made = sink.script().made();
    let faults = sink.script().faults();
    write!(to, "; {name} {made} calls {faults} faults")?;
    to.push_str(if sink.flushed() == sink.taken().len() {
        " flushed: "
    } else {
        " not flushed: "
    })?;
    add_bytes(to, sink.taken())
}

/// Adds bytes as text.
pub fn add_bytes(to: &mut String, bytes: &[u8]) -> Result<(), AllocError> {
    match str::from_utf8(bytes) {
        Ok(text) => add_text(to, text),
        Err(_) => to.push_str("no text"),
    }
}

fn add_text(to: &mut String, text: &str) -> Result<(), AllocError> {
    let mut last = '\n';
    let mut count = 0usize;
    for next in text.chars() {
        if next != last {
            add_run(to, last, count)?;
            last = next;
            count = 0;
        }
        count = count.saturating_add(1);
    }
    add_run(to, last, count)
}

fn add_run(to: &mut String, character: char, count: usize) -> Result<(), AllocError> {
    if count > MANY {
        return write!(to, "%{count}*{character};");
    }
    for _ in 0..count {
        match character {
            '\n' => to.push_str("%0a;")?,
            _ => to.push(character)?,
        }
    }
    Ok(())
}
