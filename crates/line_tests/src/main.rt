//! Prints what comes of pipelines that run over a store, files, a source and a sink in memory.
//!
//! A table is a file of `data/`, and each of its lines is a row, but for one that begins with `#`, which says what the row
//! behind it shows and is its own answer.
//!
//! - `runs`: what each run is given, with `;` between runs over one store, and behind the first bar the configuration of all of
//!   them. A run is words: `stdin:LINES` with commas between lines, `file:PATH=LINES` for a file that inputs read,
//!   `conn:NUMBER=TEXT` for what a connection gives next, with commas for the ends of lines; `batch:NUMBER`, `page:BYTES`,
//!   `max:BYTES`, `writes:NUMBER` and `acks:NUMBER` of the line's limits, `dead:BYTES` and `policy:NAME` of its dead letters;
//!   `steps:NUMBER` behind which it is cut off, and `left:CHOICE` of what a stop before it left of the store. `out:NUMBER` and
//!   `in:NUMBER` are the calls of stdout and of stdin that fail, from 0. In the first run `opening:NUMBER` is the call of the store
//!   that fails, from 0 over all runs, or `store:NUMBER` that call from 0 behind the first opening. Behind `!` stands what is shown
//!   then: `at:PATH` the position that is recorded of an input's file, `out:PATH` the bytes of an output's file and the position
//!   that is recorded of it, `letters` the dead letters with their events' messages, and `names` the files of the pipeline. The
//!   answer has of each run how it ended, its rows, batches and deliveries, how often the queue had no room and how many pages
//!   went, and what stdout took, with commas for the ends of lines.
//!
//! The answers in `stdout` were worked out by hand.
#![tactic(auto)]

mod answers;
mod opened;
mod outside;
mod runs;
mod serving;
mod setups;
mod shown;

use std::alloc::AllocError;
use std::io;
use table_rows::{AnswerRows, print_tables};

/// What the rows of the table are.
#[derive(Clone, Copy)]
struct RunTable;

impl AnswerRows for RunTable {
    fn add_answer(&self, to: &mut String, row: &str) -> Result<(), AllocError> {
        if row.starts_with('#') {
            return to.push_str(row);
        }
        runs::add_runs(to, row)
    }
}

fn main(rt: HostRuntime) -> io::Result<()> {
    print_tables(&rt, &[("runs", RunTable)])
}
