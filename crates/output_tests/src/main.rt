//! Prints what comes of calls of the outputs of a pipeline, table by table.
//!
//! A table is a file of `data/`, and each of its lines is a row, but for one that begins with `#`, which says what the row
//! behind it shows and is its own answer.
//!
//! - `deliveries`: the number of the call of the store that fails, from 0, and deliveries in order, `a=TEXT` to the file
//!   `a.log` and `b=TEXT` to `b.log`. The answer has that of each, and whether its file is open then; and each file, with
//!   what its position file records.
//! - `letters`: a policy, a limit, and behind semicolons batches of empty events by their fates: `+` was taken, and
//!   `STATUS:TEXT` rejected. The rejected ones are appended to the dead letters, with an opening before each batch. The answer
//!   has that of each append, and the letters that are held then.
//! - `boxes`: numbers of boxed outputs, and behind a bar the calls of these in order: `d:NUMBER` delivers an event, which each
//!   answers to with `Later`, and `c:NUMBER` closes the output. The answer tells of each what its output counted.
//!
//! The answers in `stdout` were worked out by hand: a record of a letter has 45 bytes and those of its reason, of which
//! `status CODE: ` are 12; an opening of a new output file makes five calls of the store, and each append four.
#![tactic(auto)]

mod boxes;
mod deliveries;
mod letters;

use std::alloc::AllocError;
use std::io;
use table_rows::{AnswerRows, print_tables};

/// What the rows of a table are.
#[derive(Clone, Copy)]
enum OutputTable {
    Deliveries,
    Letters,
    Boxes,
}

const TABLES: [(&str, OutputTable); 3] = [
    ("deliveries", OutputTable::Deliveries),
    ("letters", OutputTable::Letters),
    ("boxes", OutputTable::Boxes),
];

impl AnswerRows for OutputTable {
    fn add_answer(&self, to: &mut String, row: &str) -> Result<(), AllocError> {
        if row.starts_with('#') {
            return to.push_str(row);
        }
        match self {
            OutputTable::Deliveries => deliveries::add_run(to, row),
            OutputTable::Letters => letters::add_run(to, row),
            OutputTable::Boxes => boxes::add_run(to, row),
        }
    }
}

fn main(rt: HostRuntime) -> io::Result<()> {
    print_tables(&rt, &TABLES)
}
