//! Prints what inputs take of files that change and of connections, and what a stop leaves recorded, table by table.
//!
//! A table is a file of `data/`, and each of its lines is a row, whose parts stand between bars. Bytes are written in base 16,
//! where `COUNT*DIGITS` stands for so many times these, and `-` for no file.
//!
//! - `reads`: the plan of an input (`tail` or `read`, `end` or `start`, and its codec), the number of the call of the store and
//!   of that of the files which fails; the bytes of the position file; those of the watched file, each with the number of the
//!   call of the files from which on they stand; and runs of calls of the input, with an opening before each: `p` polls,
//!   with the number of the poll as the seconds of its moment, `P` the same without showing the answer, `n` gives the next
//!   event, `f` gives it and tells its `[log][file][path]`, `h` tells whether a line is held, `b` tells the place behind the last line and the recorded position, `a` records the place behind the last line, and
//!   `a:PLACE` this one. The answer has that of each call, the message of an event with the seconds of its moment, and what the
//!   position file records behind them. A call that doesn't go well ends its run.
//! - `stops`: such a row. The answer is what the position file may record where a stop comes, for each moment of the store.
//! - `paths`: a path, the files that earlier inputs watch, those that are there, and the number of the call that fails. The
//!   answer is the files that are watched.
//! - `polls`: how many connections come, one at each look; the numbers of the calls of the connections that fail; the pieces
//!   that they give, each with the number of its connection, where `+` joins two such and `end` ends it; and calls of an input
//!   of connections: `p` polls, with the number of the poll as the seconds of its moment, `P` with a number polls so often, and
//!   shows the last answer, `n` gives the next event, `c` tells how many connections came, and `s` with a number whether that
//!   connection is open.
//!
//! - `streams`: the codec of an input of a stream, and how many bytes a read of it gives at most; the numbers of the reads that fail, and of
//!   those that find nothing yet; the bytes of the stream; and calls: `p` polls, with the number of the poll as the seconds of its moment,
//!   `n` gives the next event, `h` tells whether a line is held, and `e` whether the stream was read to its end.
//!
//! `data/rows.py`, over `data/polls.py`, made the tables and `stdout`: the lines by their definition, on all bytes joined, and
//! the slots with the CRC-32 of Python's `zlib`.
#![tactic(auto)]

mod calls;
mod connection_calls;
mod connection_rows;
mod events;
mod paths;
mod reads;
mod streams;
mod words;

use std::alloc::AllocError;
use std::io;
use table_rows::{AnswerRows, print_tables};

/// What the rows of a table are.
#[derive(Clone, Copy)]
enum InputTable {
    Reads,
    Stops,
    Paths,
    Polls,
    Streams,
}

const TABLES: [(&str, InputTable); 5] = [
    ("reads", InputTable::Reads),
    ("stops", InputTable::Stops),
    ("paths", InputTable::Paths),
    ("polls", InputTable::Polls),
    ("streams", InputTable::Streams),
];

impl AnswerRows for InputTable {
    fn add_answer(&self, to: &mut String, row: &str) -> Result<(), AllocError> {
        match self {
            InputTable::Reads => reads::add_read(to, row),
            InputTable::Stops => reads::add_stops(to, row),
            InputTable::Paths => paths::add_watched(to, row),
            InputTable::Polls => connection_rows::add_case(to, row),
            InputTable::Streams => streams::add_stream(to, row),
        }
    }
}

fn main(rt: HostRuntime) -> io::Result<()> {
    print_tables(&rt, &TABLES)
}
