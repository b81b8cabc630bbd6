//! Prints what the calls of the program leave of objects of the outside that stand in memory, for each row of the tables in
//! `data/`, table by table.
//!
//! A table is a file, and each of its lines is a row:
//!
//! - A run: `STDIN, STDOUT, STDERR, SECONDS | WORDS | BYTES`: a run with these words, to whose stdin these bytes come, over an
//!   empty store. Of stdin there are the most bytes that a read gives, the reads that fail and those that find nothing yet; of stdout
//!   and stderr the most bytes that a write takes, and the calls that fail. Calls are counted from 0, commas stand between numbers,
//!   and `-` is none. The clock shows 2024-01-01T00:00:00Z, and where there are seconds these moments behind it, one at each look.
//!   Where the configuration writes the rows of its lines alone, they are compared with those that the definition gives.
//! - Runs over one store: `STORE, FILES | PATH=BYTES & .. | PATHS`, and then runs, with ` ;; ` between all of them. Of the store, over
//!   all runs, and of the files, in each run, there are the calls that fail; the files that others wrote; and the files whose bytes
//!   the store is asked for when all runs are done.
//! - `tests`: `STDOUT, STDERR | WORDS | PATH=BYTES & ..`: the test of the configuration that the words name, with the files that others
//!   wrote.
//! - `calls`: words, and the call that they are for, with how many workers they want.
//! - `decoded`: a codec of inputs, ` | ` and a line, and the fields and the metadata of its event.
//! - `samples`: the number that a sample begins with, a blank and how manieth line it is.
//! - `words`: the words of a command line, around blanks, and what they order. A row without bytes has no words.
//! - `pipelines`: a text that is read as `pipelines.yml`, with the orders of no words.
//! - `defaults`: words, ` => `, and such a text, with the orders of those words.
//! - `paths`: a pattern, a blank and a name, and whether the pattern stands for the name.
//!
//! In all but the last four words have ` & ` between them. In words and bytes `%HEX;` are bytes in base 16, and `%COUNT*TEXT;` is a
//! text so many times; in what is told `%0a;` is a line feed, and a character that stands more than eight times in a row is told as
//! such a text.
//!
//! No box is handed in. `data/rows.py` made the tables and `stdout` from the rules of lines and rows, of batches, and of what is
//! flushed when, with `data/flow.py` for what configurations make of lines; but for the last four. In their rows `%n`, `%r`, `%t` and
//! `%s` are a line feed, a carriage return, a tab and a blank, `%e` is nothing, `%p` is `%`, `%x` is the byte 255, which is no text,
//! and `%(N*TEXT)` is a text so many times, and their answers were worked out by hand from the tables of options and keys in
//! `docs/settings.md`, and from what a `*` stands for.
#![tactic(auto)]

ghost use Rattle.std.specs.Prelude.{◌≡◌};

mod decoded;
mod marked;
mod objects;
mod runs;
mod settings;
mod stored;
mod told;
mod words;
mod written;

use foreign_parts::{BoxPool, FilterCall, Rack};
use line_jobs::Close;
use line_outputs::OutputCall;
use std::alloc::AllocError;
use std::rt::Clock as RuntimeClock;
use std::sync::Wait;
use std::{fs, io};

/// What the rows of a table are.
#[derive(Clone, Copy)]
enum RunTable {
    Runs,
    Configured,
    Stored,
    Tests,
    Calls,
    Decoded,
    Samples,
    Words,
    Pipelines,
    Defaults,
    Paths,
}

const TABLES: [(&str, RunTable); 28] = [
    ("texts", RunTable::Runs),
    ("lines", RunTable::Runs),
    ("words_refused", RunTable::Runs),
    ("words_run", RunTable::Runs),
    ("texts_refused", RunTable::Runs),
    ("long_texts", RunTable::Runs),
    ("faults", RunTable::Runs),
    ("pauses", RunTable::Runs),
    ("long_lines", RunTable::Runs),
    ("defined", RunTable::Runs),
    ("worked", RunTable::Configured),
    ("configurations", RunTable::Configured),
    ("inputs", RunTable::Configured),
    ("failing", RunTable::Configured),
    ("named", RunTable::Configured),
    ("moments", RunTable::Configured),
    ("config_files", RunTable::Stored),
    ("file_outputs", RunTable::Stored),
    ("several_runs", RunTable::Stored),
    ("tests", RunTable::Tests),
    ("refused", RunTable::Configured),
    ("calls", RunTable::Calls),
    ("decoded", RunTable::Decoded),
    ("samples", RunTable::Samples),
    ("words", RunTable::Words),
    ("pipelines", RunTable::Pipelines),
    ("defaults", RunTable::Defaults),
    ("paths", RunTable::Paths),
];

fn main(rt: HostRuntime) -> io::Result<()> {
    let mut rack = Rack::new(rt.alloc());
    for (name, table) in &TABLES {
        let rows = fs::read_to_string(&rt, *name)?;
        println!(rt; "# {name}")?;
        for row in rows.lines() {
            let mut answer = String::new(rt.alloc());
            add_answer(&rt, &mut answer, *table, row, &mut rack)?;
            println!(rt; "{answer}")?;
        }
    }
    Ok(())
}

fn add_answer<
    R: Wait + RuntimeClock,
    F: FilterCall + Close,
    X: OutputCall,
    B: BoxPool<Filter = F, Output = X>,
>(rt: &R, to: &mut String, table: RunTable, row: &str, rack: &mut B) -> Result<(), AllocError>
    requires { B.output_number ≡ X.number }
{
    match table {
        RunTable::Runs => runs::add_run(rt, to, row, rack),
        RunTable::Configured => runs::add_configured(rt, to, row, rack),
        RunTable::Stored => stored::add_stored(rt, to, row, rack),
        RunTable::Tests => words::add_test(to, row, rack),
        RunTable::Calls => words::add_call(to, row),
        RunTable::Decoded => decoded::add_decoded(to, row),
        RunTable::Samples => decoded::add_sample(to, row),
        RunTable::Words => settings::add_words(to, row),
        RunTable::Pipelines => settings::add_pipelines(to, "", row),
        RunTable::Defaults => settings::add_defaults(to, row),
        RunTable::Paths => settings::add_match(to, row),
    }
}
