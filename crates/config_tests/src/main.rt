//! Prints what the calls on events, and those on configurations and conditions, answer in each case of the tables in `data/`,
//! table by table.
//!
//! A table is a file. Its cases are what stands between lines `---`, or its lines where there is no such line.
#![tactic(auto)]

mod again;
mod calls;
mod cases;
mod codecs;
mod config_tables;
mod elements;
mod event_tables;
mod json;
mod laws;
mod marks;
mod numbers;
mod paths;
mod printed;
mod readers;
mod rows;
mod show;
mod truths;

use std::io;

fn main(rt: HostRuntime) -> io::Result<()> {
    laws::examples();
    laws::derivations();
    laws::open_levels();
    event_tables::print_tables(&rt)?;
    config_tables::print_tables(&rt)
}
