// Rows of calls.

use crate::ends::{Ends, add_answer, close, hear, note, poll, send};
use event_tree::{Event, Path, Value};
use line_links::Polled;
use pipeline_bus::Heard;
use std::alloc::AllocError;

/// Adds what each call of a row answers.
pub fn add_run(to: &mut String, row: &str) -> Result<(), AllocError> {
    let alloc = *to.allocator();
    let mut ends = Ends::new(alloc)?;
    for word in row.split_whitespace() {
        if word == "t" {
            let (turned, is_free) = ends.turned(alloc)?;
            ends = turned;
            add_bool(to, is_free)?;
        } else {
            add_call(to, &mut ends, word)?;
        }
        to.push(' ')?;
    }
    Ok(())
}

fn add_call(to: &mut String, ends: &mut Ends, word: &str) -> Result<(), AllocError> {
    let (call, value) = word.split_once(':').unwrap_or((word, ""));
    let number = value.parse().unwrap_or(0);
    match call {
        "s" => {
            let sent = send(*to.allocator(), &mut ends.sender, value)?;
            add_number(to, sent)
        }
        "l" => {
            let is_sent = ends.sender.push_last();
            add_bool(to, is_sent)
        }
        "h" => add_heard(to, hear(&mut ends.sender, number)),
        "r" => {
            let is_noted = note(&mut ends.taker, number);
            add_bool(to, is_noted)
        }
        "a" => add_answer(to, ends.taker.assure(number)),
        _ => add_taken(to, ends, call),
    }
}

fn add_taken(to: &mut String, ends: &mut Ends, call: &str) -> Result<(), AllocError> {
    match call {
        "p" => {
            let found = poll(&mut ends.taker)?;
            add_polled(to, found)
        }
        "n" => match ends.taker.next() {
            Some(event) => add_message(to, &event),
            None => to.push('-'),
        },
        "c" => {
            let is_closed = close(&mut ends.taker);
            add_bool(to, is_closed)
        }
        "x" => add_answer(to, ends.taker.refuse()),
        "e" => {
            let is_at_end = ends.taker.is_at_end();
            add_bool(to, is_at_end)
        }
        "f" => {
            let is_free = ends.taker.is_free();
            add_bool(to, is_free)
        }
        _ => to.push('?'),
    }
}

/// Adds what a poll found; None stands for one that may not be made.
pub fn add_polled(to: &mut String, found: Option<Polled>) -> Result<(), AllocError> {
    to.push_str(match found {
        Some(Polled::Events) => "events",
        Some(Polled::NotYet) => "nothing",
        Some(Polled::Ended) => "ended",
        None => "no",
    })
}

/// Adds the message of an event.
pub fn add_message(to: &mut String, event: &Event) -> Result<(), AllocError> {
    if let Ok(path) = Path::read(*to.allocator(), "message") {
        if let Some(Value::Text(text)) = event.get(&path) {
            return to.push_str(text.as_str());
        }
    }
    to.push('?')
}

/// Adds what was heard.
pub fn add_heard(to: &mut String, heard: Option<Heard>) -> Result<(), AllocError> {
    to.push_str(match heard {
        Some(Heard::Assured) => "assured",
        Some(Heard::NotListening) => "refused",
        None => "-",
    })
}

/// Adds the number of a parcel that was sent.
pub fn add_number(to: &mut String, number: Option<u64>) -> Result<(), AllocError> {
    match number {
        Some(number) => write!(to, "sent:{number}"),
        None => to.push_str("full"),
    }
}

/// Adds yes or no.
pub fn add_bool(to: &mut String, is: bool) -> Result<(), AllocError> {
    to.push_str(if is { "yes" } else { "no" })
}
