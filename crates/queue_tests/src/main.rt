//! Prints what is read of the files of a queue and of an output, and what is written into them, table by table.
//!
//! A table is a file of `data/`, and each of its lines is a row. Numbers are decimal, and what is left of a line are bytes in
//! base 16, where blanks don't count and `COUNT*DIGITS` stands for so many times these bytes:
//!
//! - `pages`, `prefixes`, `heads`: `head` or `sealed`, the least number, the count and the length that are recorded of a page,
//!   and the bytes of its file. All its rows are shown, and whether the page spells them again.
//! - `failing`: the number of the call of the store that fails, and such a row.
//! - `appends`: an origin, such a row, and the bytes of the file behind an append of an empty event with that origin.
//! - `slots`: the bytes of a checkpoint file.
//! - `turns`: a turn, the number of a page, its first open number, its least number, its count and its length, and the bytes of
//!   a checkpoint file, into which the slot that says this is written.
//! - `names`: `in` or `out`, and a path, which has no line feed. The answer is the name of its position file.
//! - `positions`, `outputs`: the bytes of a position file, and of the output file that it belongs to, between bars. There is no
//!   file where there are no bytes. The first tells what the position file records, the others the two files once the output
//!   is open.
//! - `batches`: the number of the call of the store that fails, such a row, and a batch that is appended to the open output. The
//!   files are those behind one more opening.
//! - `images`: a moment of the store, a choice of what a stop leaves of its changes, and such a row with a batch. The files are
//!   those of the image behind an opening.
//! - `letters`: the bytes of a segment of dead letters. The letters are shown, and whether they are written so.
//! - `sheds`: a policy, a limit, the bytes of segments, and those of new records behind a bar.
//! - `segments`: the bytes of a file that names the segments of dead letters.
//! - `counts`: a turn, a first segment, a last one, its length, and the bytes of such a file, into which the slot that says
//!   this is written.
//! - `queues`: a policy, a limit, the files of a folder between bars, each with its name in front, and behind semicolons
//!   batches of letters, as the bytes of a segment. They are appended, with an opening before each. The answer tells what
//!   comes of each, the ids of the letters that the queue holds then, or its damage, and the files.
//! - `stops`: such a row. The answer is all that its queue may hold where a stop comes at any moment, with any choice, or
//!   where one call of the store fails.
//! - `senders`: the files of a folder of dead letters between bars, and behind semicolons runs of their reader, with an opening
//!   and a new link before each: `s` makes a step, `a` takes a parcel and answers `Assured`, `n` `NotListening`, and `t` takes one
//!   without an answer. The answers of steps and the parcels are shown, and at the end what the file of the place says.
//! - `runs`: how many bytes a page may have, and a queue, the files of a folder, and behind semicolons runs of calls of the
//!   persistent queue in that folder, with an opening before each: `w:ORIGIN` writes an empty event, `k:ORIGIN` does so and
//!   keeps its row for the batch, `t:COUNT` takes a batch, `a:FIRST-BEHIND` acknowledges rows by their numbers, `m` marks,
//!   `p` purges, and `u` asks how many rows are unread. The answer has that of each call, and the lengths and sums of the
//!   files. A call that doesn't go well ends its run.
//! - `halts`: such a row. The answers are those of its last run behind a stop, at each change of the store in the runs before,
//!   with each choice of what it leaves; those that stand there already, or before, are left out.
//! - `faults`: such a row. The answers are those of its last run behind such a stop, where a call of the store in the runs
//!   before fails, each once; in front of them stands how many answers those gave.
//! - `tools`: words of a command line, and behind a semicolon the files of a store between bars, each with its name in front. The
//!   answer is the status of the tool for queues that has these words, what it prints, and the lengths and sums of all files then.
//! - `frames`: bytes, of which the CRC-32 is computed, and which are read as a frame.
//!
//! `data/rows.py`, with `data/queue_rows.py` and `data/tool_rows.py`, made the tables and `stdout`, by the tables of the formats and with the CRC-32 of Python's `zlib`.
#![tactic(auto)]

mod calls;
mod files;
mod frames;
mod letters;
mod open_queues;
mod outputs;
mod pages;
mod queues;
mod senders;
mod slots;
mod tools;

use std::alloc::AllocError;
use std::io;
use table_rows::{AnswerRows, print_tables};

/// What the rows of a table are.
#[derive(Clone, Copy)]
enum QueueTable {
    Pages,
    Failing,
    Appends,
    Slots,
    Turns,
    Names,
    Positions,
    Outputs,
    Batches,
    Images,
    Letters,
    Sheds,
    Segments,
    Counts,
    Queues,
    Stops,
    Senders,
    Runs,
    Halts,
    Faults,
    Tools,
    Frames,
}

const TABLES: [(&str, QueueTable); 24] = [
    ("pages", QueueTable::Pages),
    ("prefixes", QueueTable::Pages),
    ("heads", QueueTable::Pages),
    ("failing", QueueTable::Failing),
    ("appends", QueueTable::Appends),
    ("slots", QueueTable::Slots),
    ("turns", QueueTable::Turns),
    ("names", QueueTable::Names),
    ("positions", QueueTable::Positions),
    ("outputs", QueueTable::Outputs),
    ("batches", QueueTable::Batches),
    ("images", QueueTable::Images),
    ("letters", QueueTable::Letters),
    ("sheds", QueueTable::Sheds),
    ("segments", QueueTable::Segments),
    ("counts", QueueTable::Counts),
    ("queues", QueueTable::Queues),
    ("stops", QueueTable::Stops),
    ("senders", QueueTable::Senders),
    ("runs", QueueTable::Runs),
    ("halts", QueueTable::Halts),
    ("faults", QueueTable::Faults),
    ("tools", QueueTable::Tools),
    ("frames", QueueTable::Frames),
];

impl AnswerRows for QueueTable {
    fn add_answer(&self, to: &mut String, row: &str) -> Result<(), AllocError> {
        match self {
            QueueTable::Pages => pages::add_opened(to, u64::MAX, row),
            QueueTable::Failing => pages::add_failing(to, row),
            QueueTable::Appends => pages::add_appended(to, row),
            QueueTable::Slots => slots::add_newest(to, row),
            QueueTable::Turns => slots::add_written(to, row),
            QueueTable::Names => outputs::add_name(to, row),
            QueueTable::Positions => outputs::add_position(to, row),
            QueueTable::Outputs => outputs::add_opened(to, row),
            QueueTable::Batches => outputs::add_appended(to, row),
            QueueTable::Images => outputs::add_image(to, row),
            QueueTable::Letters => letters::add_read(to, row),
            QueueTable::Sheds => letters::add_shed(to, row),
            QueueTable::Segments => letters::add_counted(to, row),
            QueueTable::Counts => letters::add_written(to, row),
            QueueTable::Queues => queues::add_run(to, row),
            QueueTable::Stops => queues::add_stops(to, row),
            QueueTable::Senders => senders::add_runs(to, row),
            QueueTable::Runs => open_queues::add_run(to, row),
            QueueTable::Halts => open_queues::add_halts(to, row),
            QueueTable::Faults => open_queues::add_faults(to, row),
            QueueTable::Tools => tools::add_call(to, row),
            QueueTable::Frames => frames::add_read(to, row),
        }
    }
}

fn main(rt: HostRuntime) -> io::Result<()> {
    print_tables(&rt, &TABLES)
}
