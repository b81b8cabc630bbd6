// Polls of an input of a stream in memory.
use crate::connection_calls::text_of;
use crate::events::add_event;
use crate::words::{codec_of, moment_of, number, numbers_of};
use in_file::StdinInput;
use io_memory::{MemorySource, Script};
use io_traits::Source;
use std::alloc::AllocError;
use table_rows::{bytes_of, first_word, part};

/// Adds what the calls of a row answer.
pub fn add_stream(to: &mut String, row: &str) -> Result<(), AllocError> {
    let alloc = *to.allocator();
    let (words, rest) = part(row);
    let (failing, rest) = part(rest);
    let (waiting, rest) = part(rest);
    let (digits, calls) = part(rest);
    let (codec, most) = first_word(words);
    let script = Script::new(
        alloc,
        &numbers_of(alloc, failing)?,
        &numbers_of(alloc, waiting)?,
    )?;
    let bytes = bytes_of(alloc, digits)?;
    let mut source = MemorySource::new(alloc, &bytes, number(most) as usize, script)?;
    let mut input = StdinInput::new(alloc, codec_of(codec));
    let mut polls = 0_u64;
    for call in calls.split_whitespace() {
        if call == "p" {
            polls = polls.saturating_add(1);
        }
        add_call(to, &mut source, &mut input, polls, call)?;
        to.push_str("; ")?;
    }
    Ok(())
}

// Of any source and without clauses, so that nothing is said of one in memory where it is called.
fn add_call<I: Source>(
    to: &mut String,
    source: &mut I,
    input: &mut StdinInput,
    polls: u64,
    call: &str,
) -> Result<(), AllocError> {
    match call {
        "p" => to.push_str(text_of(input.poll(source, moment_of(polls)))),
        "n" => match input.next()? {
            Some(event) => add_event(to, &event),
            None => to.push_str("none"),
        },
        "h" => to.push_str(if input.holds() { "held" } else { "none held" }),
        _ => to.push_str(if input.is_ended() {
            "at its end"
        } else {
            "open"
        }),
    }
}
