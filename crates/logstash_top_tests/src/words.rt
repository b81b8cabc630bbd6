//! Configurations that are tested alone, and what words are for.

use crate::objects::{files, sink};
use crate::told::add_sink;
use crate::written::{cut, words_of};
use foreign_parts::Boxes;
use io_memory::MemorySink;
use logstash_top::{test_config, which, workers_wanted};
use std::alloc::AllocError;

/// Adds what a test of a configuration leaves.
pub fn add_test<B: Boxes>(to: &mut String, row: &str, rack: &mut B) -> Result<(), AllocError> {
    let alloc = *to.allocator();
    let (sinks, words) = cut(row, " | ");
    let (out, err) = cut(sinks, ", ");
    let (words, written) = cut(words, " | ");
    let words = words_of(alloc, words)?;
    let mut files = files(alloc, "", written)?;
    let mut stdout = sink(alloc, out)?;
    let mut stderr = sink(alloc, err)?;
    let status = test_config(alloc, &words, &mut files, &mut stdout, &mut stderr, rack);
    add_left(to, status.number(), &stdout, &stderr)
}

fn add_left(
    to: &mut String,
    status: u8,
    stdout: &MemorySink,
    stderr: &MemorySink,
) -> Result<(), AllocError> {
    write!(to, "{status}")?;
    add_sink(to, "stdout", stdout)?;
    add_sink(to, "stderr", stderr)
}

/// Adds the call that words are for, and how many workers they want.
pub fn add_call(to: &mut String, row: &str) -> Result<(), AllocError> {
    let alloc = *to.allocator();
    let words = words_of(alloc, row)?;
    let call = which(alloc, &words)?;
    let workers = workers_wanted(alloc, &words)?;
    write!(to, "{call:?} {workers}")
}
