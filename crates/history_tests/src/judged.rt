//! Histories, one a row, and what the judges say of each: a name, and behind `:` entries with `;` between them. Events are
//! written as their `message`, configurations by the names of what they have (see `configs`).

use crate::configs::{ADDRESS, BOX, FILE, config_of, draws, draws_of};
use crate::meaning::OneOutput;
use element_code::Origin;
use event_tree::{DeadList, DeadPart, Event, Events, Number, Path, Text, Value};
use foreign_parts::{Fate, Fates, Place, Verdict};
use history_book::{KeptEntry, ParcelAt, Told};
use history_judges::{Judged, history_of, state_after};
use plain_data::Items;
use queue_core::QueueRow;
use settings_lines::Policy;
use std::alloc::{AllocError, Global};

/// How many bytes the dead letters may have in each history.
pub const LIMIT: u64 = 180;

/// What the judges say of the history of a row.
pub fn add_judged(to: &mut String, row: &str) -> Result<(), AllocError> {
    let alloc = *to.allocator();
    let (name, told) = row.split_once(':').unwrap_or((row, ""));
    let told = told_of(alloc, told)?;
    let meaning = OneOutput { alloc };
    let history = unless_memory(history_of(alloc, told.as_slice(), 0))?;
    match unless_memory(state_after(alloc, &meaning, history.as_slice()))? {
        Ok(_state) => write!(to, "{name}: legal"),
        Err(illegal) => write!(to, "{name}: {} {:?}", illegal.place, illegal.reason),
    }
}

/// What a judge says. Where it doesn't go on, that is for want of memory: what isn't legal is said before.
pub fn unless_memory<T: Drop>(judged: Judged<T>) -> Result<T, AllocError> {
    match judged {
        Ok(said) => Ok(said),
        Err(_) => Err(AllocError),
    }
}

fn told_of(alloc: Global, entries: &str) -> Result<Vec<Told>, AllocError> {
    let mut told = Vec::new(alloc);
    for text in entries.split(';') {
        let entry = entry_of(alloc, text)?;
        told.push(Told { line: 0, entry })?;
    }
    Ok(told)
}

pub fn first_word(line: &str) -> (&str, &str) {
    line.split_once(' ').unwrap_or((line, ""))
}

pub fn first_number(line: &str) -> (u64, &str) {
    let (word, rest) = first_word(line);
    (word.parse().unwrap_or(0), rest)
}

pub fn entry_of(alloc: Global, text: &str) -> Result<KeptEntry, AllocError> {
    let (kind, rest) = first_word(text);
    match kind {
        "hold" => opened(alloc, rest, Policy::Hold),
        "drop_newer" => opened(alloc, rest, Policy::DropNewer),
        "drop_older" => opened(alloc, rest, Policy::DropOlder),
        "adopt" | "undrawn" | "overdrawn" => adopt(alloc, kind, rest),
        "accept" => accept(alloc, rest),
        "read" => read(alloc, rest),
        _ => later_entry(alloc, kind, rest),
    }
}

fn later_entry(alloc: Global, kind: &str, rest: &str) -> Result<KeptEntry, AllocError> {
    let (number, rest) = first_number(rest);
    match kind {
        "back" => back(alloc, number, rest),
        "shed" => shed(alloc, number, rest),
        "deliver" => deliver(alloc, number, Place::Stdout, rest),
        "file" => deliver(alloc, number, Place::File(Text::of(alloc, FILE)?), rest),
        "address" => deliver(
            alloc,
            number,
            Place::Address(Text::of(alloc, ADDRESS)?),
            rest,
        ),
        "nowhere" => deliver(alloc, number, Place::Discard, rest),
        "box" => deliver(alloc, number, Place::Foreign(BOX), rest),
        "letters" => letters(alloc, number, rest),
        "ack" => Ok(KeptEntry::Ack { batch: number }),
        "mark" => Ok(KeptEntry::Mark { front: number }),
        "assure" => Ok(KeptEntry::Assure {
            input: 0,
            front: number,
        }),
        _ => Ok(KeptEntry::Purge { page: 0 }),
    }
}

/// An event whose `message` is this text, or the number that it writes.
pub fn event_of(alloc: Global, text: &str) -> Result<Event, AllocError> {
    let mut event = Event::new(alloc);
    let value = match Number::read(text) {
        Some(number) => Value::Num(number),
        None => Value::Text(Text::of(alloc, text)?),
    };
    match event.put(&message(alloc)?, value) {
        Ok(()) => Ok(event),
        Err(_) => Err(AllocError),
    }
}

pub fn message(alloc: Global) -> Result<Path, AllocError> {
    match Path::read(alloc, "message") {
        Ok(path) => Ok(path),
        Err(_) => Err(AllocError),
    }
}

fn numbers_of(alloc: Global, text: &str) -> Result<Items<u64>, AllocError> {
    let mut numbers = Items::new(alloc);
    for word in text.split(',') {
        if let Ok(number) = word.parse::<u64>() {
            numbers.push(number)?;
        }
    }
    Ok(numbers)
}

fn places_of(alloc: Global, text: &str) -> Result<Items<usize>, AllocError> {
    let mut places = Items::new(alloc);
    for word in text.split(',') {
        if let Ok(place) = word.parse::<usize>() {
            places.push(place)?;
        }
    }
    Ok(places)
}

pub fn events_of(alloc: Global, text: &str) -> Result<Events, AllocError> {
    let mut events = Events::new(alloc);
    for word in text.split(',') {
        events.push(event_of(alloc, word)?)?;
    }
    Ok(events)
}

// `NUMBER=TEXT` for each row, with blanks between them; and behind it `=ID`, where it names its input.
fn opened(alloc: Global, text: &str, policy: Policy) -> Result<KeptEntry, AllocError> {
    let mut rows = Items::new(alloc);
    for word in text.split(' ') {
        if let Some((number, row)) = word.split_once('=') {
            rows.push(row_of(alloc, number.parse().unwrap_or(0), row)?)?;
        }
    }
    Ok(KeptEntry::Opened {
        rows,
        limit: LIMIT,
        policy,
    })
}

fn row_of(alloc: Global, number: u64, row: &str) -> Result<QueueRow, AllocError> {
    let (text, origin) = match row.split_once('=') {
        Some((text, id)) => (text, Origin::Id(Text::of(alloc, id)?)),
        None => (row, Origin::Unknown),
    };
    let event = event_of(alloc, text)?;
    Ok(QueueRow {
        number,
        origin,
        event,
    })
}

// `GENERATION`, and behind it the configuration: with the box that its output has, with none, or with one in any case.
fn adopt(alloc: Global, kind: &str, text: &str) -> Result<KeptEntry, AllocError> {
    let (generation, config) = first_number(text);
    let config = config_of(alloc, config)?;
    let draws = match kind {
        "undrawn" => Items::new(alloc),
        "overdrawn" => draws(alloc)?,
        _ => draws_of(alloc, &config)?,
    };
    Ok(KeptEntry::Adopt {
        generation,
        config,
        draws,
    })
}

// `NUMBER TEXT`, and behind it `INPUT`, and `parcel` where the event came in one.
fn accept(alloc: Global, text: &str) -> Result<KeptEntry, AllocError> {
    let (number, rest) = first_number(text);
    let (message, rest) = first_word(rest);
    let (input, way) = first_word(rest);
    Ok(KeptEntry::Accept {
        input: input.parse().unwrap_or(0),
        parcel: parcel_of(way),
        number,
        event: event_of(alloc, message)?,
    })
}

fn parcel_of(way: &str) -> Option<ParcelAt> {
    if way == "parcel" {
        return Some(ParcelAt {
            place: 0,
            number: 1,
        });
    }
    None
}

fn read(alloc: Global, text: &str) -> Result<KeptEntry, AllocError> {
    let (batch, rest) = first_number(text);
    let (generation, rest) = first_number(rest);
    Ok(KeptEntry::Read {
        batch,
        generation,
        numbers: numbers_of(alloc, rest)?,
    })
}

// So many verdicts, each of no events.
fn back(alloc: Global, batch: u64, text: &str) -> Result<KeptEntry, AllocError> {
    let (count, _) = first_number(text);
    let mut verdicts = Items::new(alloc);
    for _ in 0..count {
        verdicts.push(Verdict {
            events: Events::new(alloc),
            matched: true,
        })?;
    }
    Ok(KeptEntry::Back { batch, verdicts })
}

fn shed(alloc: Global, batch: u64, text: &str) -> Result<KeptEntry, AllocError> {
    let (older, rest) = first_number(text);
    Ok(KeptEntry::Shed {
        batch,
        older,
        newer: places_of(alloc, rest)?,
    })
}

// Events, and behind them what a box answers of each: `took`, or a status and what is said of it, as `400=bad`.
fn deliver(alloc: Global, batch: u64, place: Place, text: &str) -> Result<KeptEntry, AllocError> {
    let (events, fates) = first_word(text);
    let events = events_of(alloc, events)?;
    let fates = fates_of(alloc, fates)?;
    Ok(KeptEntry::Deliver {
        batch,
        place,
        events,
        fates,
    })
}

fn fates_of(alloc: Global, text: &str) -> Result<Fates, AllocError> {
    let mut fates = Fates::new(alloc);
    for word in text.split(',') {
        if !word.is_empty() {
            fates.push(fate_of(alloc, word)?)?;
        }
    }
    Ok(fates)
}

fn fate_of(alloc: Global, word: &str) -> Result<Fate, AllocError> {
    match word.split_once('=') {
        Some((status, said)) => Ok(Fate::Rejected(
            status.parse().unwrap_or(0),
            Text::of(alloc, said)?,
        )),
        None => Ok(Fate::Took),
    }
}

fn letters(alloc: Global, batch: u64, text: &str) -> Result<KeptEntry, AllocError> {
    let mut letters = DeadList::new(alloc);
    for word in text.split(',') {
        if !word.is_empty() {
            letters.push(part_of(alloc, word)?)?;
        }
    }
    Ok(KeptEntry::Letters { batch, letters })
}

// `TEXT`, an event whose condition was wrong; or `TEXT=STATUS=SAID`, one that the box rejected.
pub fn part_of(alloc: Global, word: &str) -> Result<DeadPart, AllocError> {
    match word.split_once('=') {
        Some((text, answer)) => rejected(alloc, text, answer),
        None => Ok(DeadPart {
            kind: Text::of(alloc, "if")?,
            id: Text::of(alloc, "filter_if_1")?,
            reason: Text::of(alloc, "order of text and number")?,
            event: event_of(alloc, word)?,
        }),
    }
}

fn rejected(alloc: Global, text: &str, answer: &str) -> Result<DeadPart, AllocError> {
    let (status, said) = answer.split_once('=').unwrap_or((answer, ""));
    Ok(DeadPart {
        kind: Text::of(alloc, "box")?,
        id: Text::of(alloc, "output_1")?,
        reason: Text::from_string(format!(in alloc; "status {status}: {said}")?),
        event: event_of(alloc, text)?,
    })
}
