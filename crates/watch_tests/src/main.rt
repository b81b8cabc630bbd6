//! Prints what the watched files of an input give and record, over several openings.
//!
//! A table is a file of `data/`, and each of its lines is a row, but for one that begins with `#`, which says what the row
//! behind it shows and is its own answer.
//!
//! - `openings`: files of the folder `w`, each `NAME=LINES` with commas between its lines, and behind a bar the calls of an
//!   input of the path `w/*`, read from the beginning up to the end: `o` opens it, with what it watched let go, `p` polls, `n:NUMBER`
//!   takes the next event and notes the row that it became, `a:NUMBER` assures the rows up to a front, and `e` asks whether it
//!   is at its end. The answer has that of each call, and the position that is recorded of each file then.
//!
//! The answers in `stdout` were worked out by hand: a line has its letters and one byte for its end.
#![tactic(auto)]

mod files;
mod openings;

use std::alloc::AllocError;
use std::io;
use table_rows::{AnswerRows, print_tables};

/// What the rows of the table are.
#[derive(Clone, Copy)]
struct OpeningTable;

impl AnswerRows for OpeningTable {
    fn add_answer(&self, to: &mut String, row: &str) -> Result<(), AllocError> {
        if row.starts_with('#') {
            return to.push_str(row);
        }
        openings::add_run(to, row)
    }
}

fn main(rt: HostRuntime) -> io::Result<()> {
    print_tables(&rt, &[("openings", OpeningTable)])
}
