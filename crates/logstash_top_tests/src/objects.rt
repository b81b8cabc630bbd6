//! The objects of the outside that a row names.

ghost use Rattle.std.specs.Prelude.{None};

use crate::written::{bytes_of, cut, text_of};
use io_memory::{
    FileTable, ListClock, MemoryFiles, MemoryLinks, MemorySink, MemorySource, Script, Showing,
};
use io_traits::Clock;
use plain_data::{Instant, Items, Text};
use std::alloc::{AllocError, Global};
use store_memory::MemoryStore;

/// 2024-01-01T00:00:00Z, in nanoseconds from 1970 on.
const NEW_YEAR: i128 = 1_704_067_200_000_000_000;

/// The nanoseconds of a second.
const SECOND: i128 = 1_000_000_000;

/// A clock that shows the moments of a list, and counts how often it is paused.
#[derive(Drop)]
pub struct PausedClock {
    moments: ListClock,
    pauses: u64,
}

impl PausedClock {
    /// A clock that shows moments so many seconds behind the new year, with commas between them: one at each look, and then the
    /// last again. Where none is written it shows the new year.
    pub fn new(alloc: Global, seconds: &str) -> Result<PausedClock, AllocError> {
        let mut moments = Vec::new(alloc);
        for second in seconds.split(',') {
            moments.push(moment_behind(second.parse().unwrap_or(0)))?;
        }
        Ok(PausedClock {
            moments: ListClock::new(alloc, &moments)?,
            pauses: 0,
        })
    }

    pub fn pauses(&self) -> u64 {
        self.pauses
    }
}

impl Clock for PausedClock {
    ghost given = { λ _. None };

    fn now(&mut self) -> Instant {
        self.moments.now()
    }

    fn pause(&mut self) {
        self.pauses = self.pauses.saturating_add(1);
    }
}

fn moment_behind(seconds: u32) -> Instant {
    let nanos = NEW_YEAR + i128::from(seconds) * SECOND;
    Instant::from_nanos(nanos).unwrap_or(Instant::epoch())
}

/// The moment that a clock shows where a row has no other.
pub fn new_year() -> Instant {
    moment_behind(0)
}

/// `FAILING`: an empty store, of which these calls fail.
pub fn store(alloc: Global, failing: &str) -> Result<MemoryStore, AllocError> {
    MemoryStore::new(FileTable::new(alloc), script(alloc, failing)?, u64::MAX)
}

/// `FAILING`, and `PATH=BYTES` of each file, with ` & ` between them.
pub fn files(alloc: Global, failing: &str, written: &str) -> Result<MemoryFiles, AllocError> {
    let mut table = FileTable::new(alloc);
    for file in written.split(" & ") {
        if let Some((path, bytes)) = file.split_once('=') {
            let path = Text::from_string(text_of(alloc, path)?);
            let _ = table.insert(path, Items::from_vec(bytes_of(alloc, bytes)?))?;
        }
    }
    let mut contents = Vec::new(alloc);
    contents.push(Showing {
        from: 0,
        files: table,
    })?;
    Ok(MemoryFiles::new(alloc, contents, script(alloc, failing)?))
}

/// No connection ever comes.
pub fn links(alloc: Global) -> MemoryLinks {
    MemoryLinks::new(alloc, 0, Vec::new(alloc), Script::empty(alloc))
}

/// `MOST FAILING WAITING`, and the bytes that come.
pub fn source(alloc: Global, calls: &str, bytes: &[u8]) -> Result<MemorySource, AllocError> {
    let (most, scripted) = cut(calls, " ");
    MemorySource::new(alloc, bytes, most_of(most), script(alloc, scripted)?)
}

/// `MOST FAILING`.
pub fn sink(alloc: Global, calls: &str) -> Result<MemorySink, AllocError> {
    let (most, scripted) = cut(calls, " ");
    Ok(MemorySink::new(alloc, most_of(most), script(alloc, scripted)?))
}

/// `FAILING WAITING`.
fn script(alloc: Global, calls: &str) -> Result<Script, AllocError> {
    let (failing, waiting) = cut(calls, " ");
    Script::new(alloc, &numbers(alloc, failing)?, &numbers(alloc, waiting)?)
}

fn numbers(alloc: Global, written: &str) -> Result<Vec<u64>, AllocError> {
    let mut numbers = Vec::new(alloc);
    for digits in written.split(',') {
        if let Ok(number) = digits.parse() {
            numbers.push(number)?;
        }
    }
    Ok(numbers)
}

fn most_of(word: &str) -> usize {
    word.parse().unwrap_or(usize::MAX)
}
