//! Prints what the output `elasticsearch` makes of replies, which a peer in memory gives.
//!
//! Each line of `data/deliveries` is a row, whose parts stand between bars: the settings as a JSON object; the events, each as a
//! JSON object, with the seconds of its moment and `@` in front where it has one; the numbers of the calls of the peer that fail; its
//! replies; and the calls:
//!
//! - `d` with the numbers of events, each of one digit, delivers these.
//! - `q` tells how many requests were sent, and the host and the body of the last; `Q` tells the last one whole.
//! - `c` tells the counts: faults of the peer, replies that were neither good nor of another status, and delays.
//! - `s` reads the settings again.
//!
//! Parts of a part stand between blanks. In replies `\r`, `\n`, `\s`, `\t`, `\b` and `\k` stand for the two bytes of a line end, a
//! blank, a tab, a bar and a backslash, and `\(COUNT*TEXT)` for so many times the text. A row that begins with `statuses` has a reply in
//! which `\S` stands for each status from 200 to 599, and tells what becomes of one event by it.
//!
//! `data/rows.py` has the rows, with the answers to most as they were worked out by hand, and makes `deliveries` and `stdout` by a
//! model of its own, with Python's `json`.
//!
//! With a host and a number it delivers two events that often to that host instead, over TCP. With the words of `timing` it delivers a
//! batch many times over, to be timed from outside.
#![tactic(auto)]

mod calls;
mod live;
mod parts;
mod replies;
mod rows;
mod statuses;
mod timing;

use std::{env, fs, io};

fn main(rt: HostRuntime) -> io::Result<()> {
    let words: Vec<String> = env::args(&rt)?.skip(1).collect(rt.alloc())?;
    match words.as_slice() {
        [host, count] => live::run(&rt, host, count),
        [_, _, _] => print_timed(&rt, &words),
        _ => print_rows(&rt),
    }
}

fn print_timed(rt: &HostRuntime, words: &[String]) -> io::Result<()> {
    match timing::run(rt, words) {
        Some(done) => println!(rt; "{done}"),
        None => println!(rt;
            "the words are a file of events, a file with a reply or `json`, and rounds"
        ),
    }
}

fn print_rows(rt: &HostRuntime) -> io::Result<()> {
    let rows = fs::read_to_string(rt, "deliveries")?;
    for row in rows.lines() {
        let mut answer = String::new(rt.alloc());
        rows::add_answer(&mut answer, row)?;
        println!(rt; "{answer}")?;
    }
    Ok(())
}
