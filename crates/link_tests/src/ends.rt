// Both ends of a link, called where they may be.

use event_tree::{Event, Path, Value};
use line_links::{AddressSender, AddressTaker, Polled};
use pipeline_bus::{Answer, Heard, Link};
use plain_data::{Items, Text};
use std::alloc::{AllocError, Global};

/// The sender to an address, and its taker.
#[derive(Drop)]
pub struct Ends {
    pub sender: AddressSender,
    pub taker: AddressTaker,
}

impl Ends {
    /// Both ends of a new link to the address `q`.
    pub fn new(alloc: Global) -> Result<Ends, AllocError> {
        let (sends, takes) = Link::pair(alloc)?;
        let sender = match AddressSender::new(alloc, Text::of(alloc, "q")?, sends) {
            Ok(sender) => sender,
            Err((_end, error)) => return Err(error),
        };
        let taker = AddressTaker::new(alloc, Text::of(alloc, "q")?, takes);
        Ok(Ends { sender, taker })
    }

    /// The same sender, with a new taker over the end of the old one; None where that isn't free.
    pub fn turned(self, alloc: Global) -> Result<(Ends, bool), AllocError> {
        let Ends { sender, taker } = self;
        if !taker.is_free() {
            return Ok((Ends { sender, taker }, false));
        }
        let taker = AddressTaker::new(alloc, Text::of(alloc, "q")?, taker.into_end());
        Ok((Ends { sender, taker }, true))
    }
}

/// Sends an event for each letter of a text.
pub fn send(
    alloc: Global,
    sender: &mut AddressSender,
    text: &str,
) -> Result<Option<u64>, AllocError> {
    let mut events = Items::new(alloc);
    for letter in text.chars() {
        let mut message = String::new(alloc);
        message.push(letter)?;
        events.push(with_message(alloc, Text::from_string(message))?)?;
    }
    if events.is_empty() {
        return Ok(None);
    }
    sender.send(events.as_slice())
}

fn with_message(alloc: Global, message: Text) -> Result<Event, AllocError> {
    let mut event = Event::new(alloc);
    if let Ok(path) = Path::read(alloc, "message") {
        if event.put(&path, Value::Text(message)).is_err() {
            return Err(AllocError);
        }
    }
    Ok(event)
}

/// What was answered to a parcel that was sent.
pub fn hear(sender: &mut AddressSender, number: u64) -> Option<Heard> {
    if number == 0 || number > sender.sent() {
        return None;
    }
    sender.hear(number)
}

/// Polls, where that may be.
pub fn poll(taker: &mut AddressTaker) -> Result<Option<Polled>, AllocError> {
    if !taker.may_poll() {
        return Ok(None);
    }
    Ok(Some(taker.poll()?))
}

/// Notes a row, where an event was given that has none.
pub fn note(taker: &mut AddressTaker, number: u64) -> bool {
    if !taker.has_given() {
        return false;
    }
    taker.note_row(number);
    true
}

/// Closes the input, where it listens.
pub fn close(taker: &mut AddressTaker) -> bool {
    if !taker.listens() {
        return false;
    }
    taker.close();
    true
}

/// Adds an answer.
pub fn add_answer(to: &mut String, answer: Option<Answer>) -> Result<(), AllocError> {
    match answer {
        None => to.push('-'),
        Some(Answer { number, answer }) => match answer {
            Heard::Assured => write!(to, "assured:{number}"),
            Heard::NotListening => write!(to, "refused:{number}"),
        },
    }
}
