//! Prints what filters make of events, and the first faults of configurations, in each row of the tables in `data/`,
//! table by table.
//!
//! A table is a file, and each of its lines is a row:
//!
//! - `FILTER on EVENT`: a filter as it stands in a configuration, and an event as JSON, in which `@metadata` is the
//!   event's metadata. Behind it any number of ` with PATH VALUE` put values into the event: JSON, `COUNT*TEXT` for a
//!   text of so many times that text, or `@SECONDS` for a time. A path may be written as a text is, too.
//! - `FILTER` alone: whether its settings are read, or why they are refused.
//! - `BOXES: CONFIGURATION` or `BOXES and WORKERS: CONFIGURATION`, in the tables of `CHECKS`. The boxes that are handed
//!   in are written `filter NAME REFUSES` or `output NAME REFUSES`, with commas between them, or as `none`: a box
//!   refuses the setting of the one name, if one is written. A link is written `link ADDRESS`. There are two workers where
//!   no number stands.
//! - The same in the table `plans`, where the configuration is compiled to a plan, which is given back, and then compiled
//!   again and run.
//! - `CONFIGURATION on EVENT`, with any number of further events behind ` and `, in the table `passages`: what becomes of
//!   these events, by the program `data/passages.py`.
//! - The same in the table `walks`: what becomes of each event by itself, by the configuration as it is written, and how many
//!   filters and patterns were read from text for them; and then the same of all events as a batch.
//!
//! The answers in `stdout` were worked out by hand from the tables of the plugins and of faults: whether the filter
//! matched, and the events that stand in the event's place. Those of `json`, `csv` and `kv` were made with Python's
//! `json`, `csv` and `re`, and then looked through. Those of `grok` and `grok_library` are what Python's `re` finds by
//! the same regular expressions. Behind the tables it prints whether a rack counts and draws its boxes as it should.
//!
//! With the words of `timing` it applies one filter many times over instead, to be timed from outside.
#![tactic(auto)]

mod batches;
mod boxes;
mod by_hand;
mod checks;
mod crossing;
mod events;
mod passages;
mod plans;
mod racks;
mod rows;
mod timing;
mod walks;

use std::alloc::AllocError;
use std::{env, io};
use table_rows::{AnswerRows, print_table};

/// Tables of filters.
const FILTERS: [&str; 29] = [
    "settings",
    "clone",
    "split",
    "drop",
    "json_settings",
    "json",
    "csv_settings",
    "csv",
    "kv_settings",
    "kv",
    "json_kv_hostile",
    "options",
    "tags",
    "refused",
    "mutate_settings",
    "mutate_fills",
    "mutate_convert",
    "mutate_texts",
    "mutate_lists",
    "mutate_moves",
    "mutate_order",
    "mutate_refused",
    "date_settings",
    "date",
    "worked",
    "grok",
    "grok_library",
    "grok_settings",
    "grok_hostile",
];

/// Tables of configurations.
const CHECKS: [&str; 5] = ["worked_checks", "inputs", "statements", "boxes", "orders"];

/// What the rows of a table are.
#[derive(Clone, Copy)]
enum FilterTable {
    Filters,
    Checks,
    Plans,
    Passages,
    Walks,
}

fn main(rt: HostRuntime) -> io::Result<()> {
    let words: Vec<String> = env::args(&rt)?.skip(1).collect(rt.alloc())?;
    if words.is_empty() {
        print_tables(&rt)
    } else {
        print_timed(&rt, &words)
    }
}

fn print_timed(rt: &HostRuntime, words: &[String]) -> io::Result<()> {
    match timing::run(rt, words) {
        Some(done) => println!(rt; "{done}"),
        None => println!(rt;
            "the words are a filter, a condition, a configuration, `copies` or `calls`, a file, and rounds"
        ),
    }
}

fn print_tables(rt: &HostRuntime) -> io::Result<()> {
    for name in &FILTERS {
        print_table(rt, name, &FilterTable::Filters)?;
    }
    for name in &CHECKS {
        print_table(rt, name, &FilterTable::Checks)?;
    }
    print_table(rt, "plans", &FilterTable::Plans)?;
    print_table(rt, "passages", &FilterTable::Passages)?;
    print_table(rt, "walks", &FilterTable::Walks)?;
    let answer = racks::answer(rt.alloc())?;
    println!(rt; "# rack\n{answer}")
}

impl AnswerRows for FilterTable {
    fn add_answer(&self, to: &mut String, row: &str) -> Result<(), AllocError> {
        match self {
            FilterTable::Filters => rows::add_answer(to, row),
            FilterTable::Checks => checks::add_answer(to, row, false),
            FilterTable::Plans => checks::add_answer(to, row, true),
            FilterTable::Passages => passages::add_answer(to, row),
            FilterTable::Walks => walks::add_answer(to, row),
        }
    }
}
