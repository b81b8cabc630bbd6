//! Prints what comes of calls of both ends of a link, table by table.
//!
//! A table is a file of `data/`, and each of its lines is a row, but for one that begins with `#`, which says what the row
//! behind it shows and is its own answer.
//!
//! - `calls`: calls of a sender to the address `q` and of its taker, in order. `s:TEXT` sends an event for each letter of a
//!   text, `l` a last parcel, and `h:NUMBER` hears the answer to a parcel. `p` polls, `n` takes the next event, and `r:NUMBER`
//!   notes the row of the oldest that was taken; `a:NUMBER` assures the oldest parcel up to a row, `c` closes the input, `x`
//!   refuses a parcel, `e` asks whether the input is at its end, `f` whether the end is free, and `t` gives the end to a new
//!   taker. The answer has that of each; `no` stands for a call that may not be made then.
//!
//! - `inputs`: calls of an input that listens on an address to which two senders send, `0` and `1`, in order. `s0:TEXT`, `l0` and
//!   `h0:NUMBER` are the calls `s`, `l` and `h` of the first sender, and `s1`, `l1` and `h1` those of the second. `p` polls, `n`
//!   takes the next event, `o` asks whether one is held, `r:NUMBER` notes a row and `e` asks whether the input is at its end.
//!   `d0:NUMBER` asks whether an answer is due to the first sender for what stands in rows up to one, and `a0:NUMBER` gives it;
//!   `d1` and `a1` are of the second sender, and `a2` of none. A row that begins with `alone` is of an input without senders.
//!
//! The answers in `stdout` were worked out by hand: a ring has 16 slots.
#![tactic(auto)]

mod calls;
mod ends;
mod inputs;

use std::alloc::AllocError;
use std::io;
use table_rows::{AnswerRows, print_tables};

/// What the rows of a table are.
#[derive(Clone, Copy)]
enum LinkTable {
    Calls,
    Inputs,
}

impl AnswerRows for LinkTable {
    fn add_answer(&self, to: &mut String, row: &str) -> Result<(), AllocError> {
        if row.starts_with('#') {
            return to.push_str(row);
        }
        match self {
            LinkTable::Calls => calls::add_run(to, row),
            LinkTable::Inputs => inputs::add_run(to, row),
        }
    }
}

fn main(rt: HostRuntime) -> io::Result<()> {
    let tables = [("calls", LinkTable::Calls), ("inputs", LinkTable::Inputs)];
    print_tables(&rt, &tables)
}
