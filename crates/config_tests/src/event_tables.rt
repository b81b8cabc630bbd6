//! The tables of calls on events. Their answers come from the formats' rules and examples, worked out by hand, and from
//! Python's `json` (which prefixes of a text it can still complete, and what it reads) and `datetime`.

use crate::cases::cases_of;
use crate::{calls, elements, json, numbers, paths};
use element_code::ElementFault;
use event_json::JsonFault;
use event_tree::{Event, PathFault, PutFault};
use std::alloc::AllocError;
use std::{fs, io};
use table_rows::bytes_of;

/// What the cases of a table are.
#[derive(Clone, Copy)]
enum EventTable {
    /// Texts that are read as JSON.
    JsonTexts,
    /// The same in base 16.
    JsonBytes,
    /// Events as bytes in base 16.
    Elements,
    /// A path.
    Paths,
    /// Two paths, each in its word.
    SamePaths,
    /// The digits of a number and how many of them are decimals.
    Numbers,
    /// A text that is read as a number.
    NumberTexts,
    /// The digits of a number before and behind its point.
    Digits,
    /// A moment, in seconds and nanoseconds.
    Times,
    /// Calls on one event, one after another.
    Calls,
}

const TABLES: [(&str, EventTable); 24] = [
    ("json_texts", EventTable::JsonTexts),
    ("json_faults", EventTable::JsonTexts),
    ("json_levels", EventTable::JsonTexts),
    ("json_bytes", EventTable::JsonBytes),
    ("elements", EventTable::Elements),
    ("element_faults", EventTable::Elements),
    ("cut_elements", EventTable::Elements),
    ("nested_elements", EventTable::Elements),
    ("large_elements", EventTable::Elements),
    ("paths", EventTable::Paths),
    ("same_paths", EventTable::SamePaths),
    ("numbers", EventTable::Numbers),
    ("number_texts", EventTable::NumberTexts),
    ("digits", EventTable::Digits),
    ("times", EventTable::Times),
    ("calls", EventTable::Calls),
    ("deep_calls", EventTable::Calls),
    ("large_calls", EventTable::Calls),
    ("event_values", EventTable::Calls),
    ("event_fields", EventTable::Calls),
    ("dates", EventTable::Calls),
    ("no_moment", EventTable::Calls),
    ("no_fields", EventTable::Calls),
    ("days", EventTable::Calls),
];

/// Prints what is answered in each case of the tables of events.
pub fn print_tables(rt: &HostRuntime) -> io::Result<()> {
    for (name, table) in &TABLES {
        let text = fs::read_to_string(rt, *name)?;
        println!(rt; "# {name}")?;
        print_answers(rt, *table, text.as_str())?;
    }
    println!(rt; "# want of memory")?;
    print_want_of_memory(rt)
}

fn print_answers(rt: &HostRuntime, table: EventTable, text: &str) -> io::Result<()> {
    let mut event = Event::new(rt.alloc());
    for case in cases_of(rt.alloc(), text)? {
        let mut answer = String::new(rt.alloc());
        add_answer(&mut answer, &mut event, table, case)?;
        println!(rt; "{answer}")?;
    }
    Ok(())
}

/// Adds what is answered in a case of a table.
fn add_answer(
    to: &mut String,
    event: &mut Event,
    table: EventTable,
    case: &str,
) -> Result<(), AllocError> {
    match table {
        EventTable::JsonTexts => json::read_back(to, case.as_bytes()),
        EventTable::JsonBytes => json::read_back(to, &bytes_of(*to.allocator(), case)?),
        EventTable::Elements => elements::read_back(to, case),
        EventTable::Paths => paths::add_parts(to, case),
        EventTable::SamePaths => paths::add_comparison(to, case),
        EventTable::Numbers => numbers::add_least(to, case),
        EventTable::NumberTexts => numbers::add_read(to, case),
        EventTable::Digits => numbers::add_from_digits(to, case),
        EventTable::Times => numbers::add_moment(to, case),
        EventTable::Calls => calls::call(to, event, case),
    }
}

/// What each of the faults says that memory ran out.
fn print_want_of_memory(rt: &HostRuntime) -> io::Result<()> {
    println!(rt; "{}", JsonFault::Memory)?;
    println!(rt; "{}", ElementFault::Memory)?;
    println!(rt; "{}", PathFault::Memory)?;
    println!(rt; "{}", PutFault::Memory)
}
