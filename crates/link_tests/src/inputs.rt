// Rows of calls of an input that listens, to which two senders send.

use crate::calls::{add_bool, add_heard, add_message, add_number, add_polled};
use crate::ends::{Ends, add_answer, hear, send};
use line_links::{AddressInput, AddressSender};
use std::alloc::{AllocError, Global};

/// Two senders to an address, and the input that listens there.
#[derive(Drop)]
struct Senders {
    first: AddressSender,
    second: AddressSender,
    input: AddressInput,
}

impl Senders {
    fn new(alloc: Global) -> Result<Senders, AllocError> {
        let Ends {
            sender: first,
            taker: of_first,
        } = Ends::new(alloc)?;
        let Ends {
            sender: second,
            taker: of_second,
        } = Ends::new(alloc)?;
        let mut takers = Vec::new(alloc);
        takers.push(of_first)?;
        takers.push(of_second)?;
        Ok(Senders {
            first,
            second,
            input: AddressInput::new(takers),
        })
    }
}

/// Adds what each call of a row answers.
pub fn add_run(to: &mut String, row: &str) -> Result<(), AllocError> {
    let alloc = *to.allocator();
    let mut senders = Senders::new(alloc)?;
    for word in row.split_whitespace() {
        if word == "alone" {
            senders.input = AddressInput::new(Vec::new(alloc));
        } else {
            add_call(to, &mut senders, word)?;
            to.push(' ')?;
        }
    }
    Ok(())
}

fn add_call(to: &mut String, senders: &mut Senders, word: &str) -> Result<(), AllocError> {
    let (call, value) = word.split_once(':').unwrap_or((word, ""));
    let number = value.parse().unwrap_or(0);
    match call {
        "s0" => add_sent(to, &mut senders.first, value),
        "s1" => add_sent(to, &mut senders.second, value),
        "h0" => add_heard(to, hear(&mut senders.first, number)),
        "h1" => add_heard(to, hear(&mut senders.second, number)),
        "l0" => {
            let is_sent = senders.first.push_last();
            add_bool(to, is_sent)
        }
        "l1" => {
            let is_sent = senders.second.push_last();
            add_bool(to, is_sent)
        }
        _ => add_taken(to, &mut senders.input, call, number),
    }
}

fn add_sent(to: &mut String, sender: &mut AddressSender, text: &str) -> Result<(), AllocError> {
    let sent = send(*to.allocator(), sender, text)?;
    add_number(to, sent)
}

fn add_taken(
    to: &mut String,
    input: &mut AddressInput,
    call: &str,
    number: u64,
) -> Result<(), AllocError> {
    match call {
        "p" => {
            let found = input.poll()?;
            add_polled(to, Some(found))
        }
        "n" => match input.next() {
            Some(event) => add_message(to, &event),
            None => to.push('-'),
        },
        "o" => add_bool(to, input.holds()),
        "r" => {
            input.note_row(number);
            to.push_str("noted")
        }
        "e" => {
            let is_at_end = input.is_at_end();
            add_bool(to, is_at_end)
        }
        _ => add_due(to, input, call, number),
    }
}

fn add_due(
    to: &mut String,
    input: &mut AddressInput,
    call: &str,
    front: u64,
) -> Result<(), AllocError> {
    match call {
        "d0" => add_bool(to, input.is_due(0, front)),
        "d1" => add_bool(to, input.is_due(1, front)),
        "a0" => add_answer(to, input.answer(0, front)),
        "a1" => add_answer(to, input.answer(1, front)),
        "a2" => add_answer(to, input.answer(2, front)),
        _ => to.push('?'),
    }
}
