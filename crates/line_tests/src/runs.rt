// Runs of a row, over one store.
use crate::answers::{add_bytes, add_ran};
use crate::opened::run;
use crate::outside::{clock_of, files_of, links_of, stdin_of, stdout_of};
use crate::serving::Around;
use crate::setups::{Setup, WORKERS};
use crate::shown::add_shown;
use config_parse::parse;
use config_tree::Config;
use foreign_parts::Rack;
use graph_checks::compile;
use io_memory::{ListClock, MemoryFiles, MemoryLinks, MemorySink, MemorySource, Script};
use std::alloc::{AllocError, Global};
use store_memory::{FileTable, MemoryStore};
use table_rows::part;

type RunAround = Around<MemorySource, MemoryFiles, MemoryLinks, MemorySink, ListClock>;

/// Adds what comes of the runs of a row, and what is shown then.
pub fn add_runs(to: &mut String, row: &str) -> Result<(), AllocError> {
    let (runs, config) = part(row);
    let (runs, shown) = runs.split_once('!').unwrap_or((runs, ""));
    let alloc = *to.allocator();
    let (first, _) = runs.split_once(';').unwrap_or((runs, ""));
    let mut store = failing_store(alloc, first, config)?;
    let mut setup = Setup::of_words(first);
    for words in runs.split(';') {
        setup = Setup::of_words(words);
        if let Some(choice) = setup.left {
            store = store.images(store.moment(), choice)?;
        }
        add_run(to, &mut store, words, &setup, config)?;
    }
    add_shown(to, &mut store, &setup, shown)
}

// A store of which the call fails that the first run says.
fn failing_store(alloc: Global, first: &str, config: &str) -> Result<MemoryStore, AllocError> {
    let setup = Setup::of_words(first);
    let failing = match setup.store_fails {
        None => setup.opening_fails,
        Some(number) => number.saturating_add(calls_of_opening(alloc, first, config)?),
    };
    store_of(alloc, failing)
}

fn store_of(alloc: Global, failing: u64) -> Result<MemoryStore, AllocError> {
    let script = Script::new(alloc, &[failing], &[])?;
    MemoryStore::new(FileTable::new(alloc), script, u64::MAX)
}

// How many calls the opening of a first run makes.
fn calls_of_opening(alloc: Global, words: &str, config: &str) -> Result<u64, AllocError> {
    let mut store = store_of(alloc, u64::MAX)?;
    let mut setup = Setup::of_words(words);
    setup.steps = 0;
    let mut ignored = String::new(alloc);
    add_run(&mut ignored, &mut store, words, &setup, config)?;
    Ok(store.script().made())
}

// Adds what comes of a run.
fn add_run(
    to: &mut String,
    store: &mut MemoryStore,
    words: &str,
    setup: &Setup<'_>,
    config: &str,
) -> Result<(), AllocError> {
    match parse(*to.allocator(), config) {
        Ok(config) => add_planned(to, store, words, setup, config),
        Err(_) => to.push_str("no configuration"),
    }
}

fn add_planned(
    to: &mut String,
    store: &mut MemoryStore,
    words: &str,
    setup: &Setup<'_>,
    config: Config,
) -> Result<(), AllocError> {
    let alloc = *to.allocator();
    let mut around = around_of(alloc, words, setup)?;
    let mut rack = Rack::new(alloc);
    match compile(alloc, config, &mut rack, WORKERS) {
        Ok(plan) => {
            let limits = setup.limits();
            let ran = run(alloc, plan, limits, store, &mut around, setup.steps)?;
            add_ran(to, &ran)?;
            add_bytes(to, around.stdout.taken())?;
            to.push_str("; ")
        }
        Err(fault) => write!(to, "{fault}; "),
    }
}

fn around_of(alloc: Global, words: &str, setup: &Setup<'_>) -> Result<RunAround, AllocError> {
    Ok(Around {
        stdin: stdin_of(alloc, setup)?,
        files: files_of(alloc, words)?,
        links: links_of(alloc, words)?,
        stdout: stdout_of(alloc, setup)?,
        clock: clock_of(alloc)?,
    })
}
