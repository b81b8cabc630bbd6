// Polls of a watched file, and what may be recorded at each stop.
use crate::calls::{PATH, SLOT, add_runs};
use crate::words::{codec_of, files_with, number};
use in_file::FilePlan;
use io_memory::{MemoryFiles, Script, Showing};
use io_traits::{Failed, Store};
use slot_files::{Recorded, read_position};
use std::alloc::{AllocError, Global};
use store_memory::MemoryStore;
use table_rows::{bytes_of, first_word, part};

/// What a row is tried on.
struct ReadCase {
    store: MemoryStore,
    files: MemoryFiles,
    plan: FilePlan,
}

// Written out, so that it is one call wherever an error is handed on.
impl Drop for ReadCase {
    fn drop(self) {
        let ReadCase {
            store: _store,
            files: _files,
            plan: _,
        } = self;
    }
}

/// Adds what the calls of a row answer, and what is recorded behind them.
pub fn add_read(to: &mut String, row: &str) -> Result<(), AllocError> {
    let (mut case, runs) = case_of(*to.allocator(), row)?;
    add_runs(to, &mut case.store, &mut case.files, case.plan, runs)?;
    add_recorded(to, &mut case.store)
}

/// Adds what may be recorded where a stop comes, for each moment of the store in the calls of a row.
pub fn add_stops(to: &mut String, row: &str) -> Result<(), AllocError> {
    let (mut case, runs) = case_of(*to.allocator(), row)?;
    let mut answers = String::new(*to.allocator());
    add_runs(
        &mut answers,
        &mut case.store,
        &mut case.files,
        case.plan,
        runs,
    )?;
    for moment in 0..=case.store.moment() {
        write!(to, "{moment}:")?;
        add_moment(to, &case.store, moment)?;
        to.push_str("; ")?;
    }
    Ok(())
}

// What may be recorded at a moment, each once.
fn add_moment(to: &mut String, store: &MemoryStore, moment: u64) -> Result<(), AllocError> {
    let mut seen = String::new(*to.allocator());
    for choice in 0..4 {
        if moment <= store.moment() {
            let mut image = store.images(moment, choice)?;
            let mut recorded = String::new(*to.allocator());
            add_recorded(&mut recorded, &mut image)?;
            add_new(&mut seen, recorded.as_str())?;
        }
    }
    to.push_str(seen.as_str())
}

fn add_new(seen: &mut String, text: &str) -> Result<(), AllocError> {
    if seen.contains(text) {
        return Ok(());
    }
    seen.push(' ')?;
    seen.push_str(text)
}

fn add_recorded(to: &mut String, store: &mut MemoryStore) -> Result<(), AllocError> {
    match recorded(store) {
        Ok(Recorded::Nothing) => to.push_str("[nothing]"),
        Ok(Recorded::Position(turn, position)) => write!(to, "[{position} in turn {turn}]"),
        Ok(Recorded::Damaged(found, expected)) => write!(to, "[{found}, not {expected}]"),
        Err(_) => to.push_str("[fault]"),
    }
}

// Of any store and without clauses, so that nothing is said of one in memory where it is called.
fn recorded<S: Store>(store: &mut S) -> Result<Recorded, Failed> {
    read_position(store, SLOT)
}

// What a row is tried on, and its runs.
fn case_of(alloc: Global, row: &str) -> Result<(ReadCase, &str), AllocError> {
    let (words, row) = part(row);
    let (slots, row) = part(row);
    let (contents, runs) = part(row);
    let (mode, words) = first_word(words);
    let (start, words) = first_word(words);
    let (codec, words) = first_word(words);
    let (of_store, of_files) = first_word(words);
    let plan = FilePlan {
        from_start: start == "start",
        ends: mode == "read",
        codec: codec_of(codec),
    };
    let case = ReadCase {
        store: store_with(alloc, slots, number(of_store))?,
        files: files_of(alloc, contents, number(of_files))?,
        plan,
    };
    Ok((case, runs))
}

fn store_with(alloc: Global, slots: &str, failing: u64) -> Result<MemoryStore, AllocError> {
    let files = files_with(alloc, SLOT, slots)?;
    MemoryStore::new(files, Script::new(alloc, &[failing], &[])?, u64::MAX)
}

// Files that change at calls.
fn files_of(alloc: Global, contents: &str, failing: u64) -> Result<MemoryFiles, AllocError> {
    let mut showings = Vec::new(alloc);
    for content in contents.split_whitespace() {
        let (from, digits) = content.split_once(':').unwrap_or(("0", content));
        showings.push(Showing {
            from: number(from),
            files: files_with(alloc, PATH, digits)?,
        })?;
    }
    Ok(MemoryFiles::new(alloc, showings, Script::new(alloc, &[failing], &[])?))
}
