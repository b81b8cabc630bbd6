// Persistent queues.

use crate::calls::add_runs;
use crate::queues::{CHOICES, name_of, parts, store_of};
use crc_frame::crc32;
use queue_core::Limits;
use std::alloc::AllocError;
use store_memory::{MemoryStore, StoreCall};
use table_rows::first_number;

/// How many moments of a store are tried, and how many calls as the one that fails.
const CALLS: u64 = 400;

/// Adds what the calls of a row answer, and the files behind them.
pub fn add_run(to: &mut String, row: &str) -> Result<(), AllocError> {
    let (limits, row) = limits_of(row);
    let (files, runs) = row.split_once(';').unwrap_or((row, ""));
    let mut store = store_of(*to.allocator(), u64::MAX, files)?;
    add_runs(to, &mut store, limits, runs)?;
    add_files(to, &mut store)
}

/// Adds what the calls of the last run of a row answer where a stop comes behind each change of its store in
/// those before.
pub fn add_halts(to: &mut String, row: &str) -> Result<(), AllocError> {
    let alloc = *to.allocator();
    let (limits, row) = limits_of(row);
    let (row, last) = row.rsplit_once(';').unwrap_or((row, ""));
    let (files, runs) = row.split_once(';').unwrap_or((row, ""));
    let mut store = store_of(alloc, u64::MAX, files)?;
    let mut done = String::new(alloc);
    add_runs(&mut done, &mut store, limits, runs)?;
    let mut shown = String::new(alloc);
    for moment in 0..CALLS {
        if is_change(&store, moment) {
            let mut answers = String::new(alloc);
            add_images(&mut answers, &store, moment, limits, last)?;
            shown = add_new(to, shown, answers)?;
        }
    }
    Ok(())
}

// Whether the call before a moment changed a file or settled the files.
fn is_change(store: &MemoryStore, moment: u64) -> bool {
    let Some(at) = moment.checked_sub(1) else {
        return true;
    };
    match store.calls().get(at as usize) {
        Some(logged) => match &logged.call {
            StoreCall::List(_) | StoreCall::Length(_) | StoreCall::Read(_, _) => false,
            _ => true,
        },
        None => false,
    }
}

/// Adds what the calls of the last run of a row answer where a call of its store in those before fails, each
/// once, and a stop comes behind these. In front stands how many answers they gave.
pub fn add_faults(to: &mut String, row: &str) -> Result<(), AllocError> {
    let alloc = *to.allocator();
    let (limits, row) = limits_of(row);
    let (row, last) = row.rsplit_once(';').unwrap_or((row, ""));
    let (files, runs) = row.split_once(';').unwrap_or((row, ""));
    let mut shown = String::new(alloc);
    for failing in 0..CALLS {
        let mut store = store_of(alloc, failing, files)?;
        let mut done = String::new(alloc);
        add_runs(&mut done, &mut store, limits, runs)?;
        let mut answers = String::new(alloc);
        write!(answers, "{}: ", done.split(';').count().saturating_sub(1))?;
        add_images(&mut answers, &store, store.moment(), limits, last)?;
        shown = add_new(to, shown, answers)?;
        if store.script().faults() == 0 {
            return Ok(());
        }
    }
    Ok(())
}

// Adds what the calls of a run answer for each choice of what a stop at a moment leaves, without answers that
// stand there already.
fn add_images(
    to: &mut String,
    store: &MemoryStore,
    moment: u64,
    limits: Limits,
    run: &str,
) -> Result<(), AllocError> {
    if store.moment() < moment {
        return Ok(());
    }
    for choice in 0..CHOICES {
        let mut image = store.images(moment, choice)?;
        let mut answers = String::new(*to.allocator());
        add_runs(&mut answers, &mut image, limits, run)?;
        if !to.contains(answers.as_str()) {
            to.push_str(answers.as_str())?;
        }
        to.push('|')?;
    }
    Ok(())
}

// Adds answers, unless they are those that were shown last, and gives them.
fn add_new(to: &mut String, shown: String, answers: String) -> Result<String, AllocError> {
    if answers.as_str() != shown.as_str() {
        write!(to, "[{}]", answers.as_str())?;
    }
    Ok(answers)
}

fn limits_of(row: &str) -> (Limits, &str) {
    let (page_capacity, row) = first_number(row);
    let (max_bytes, row) = first_number(row);
    let limits = Limits {
        page_capacity,
        max_bytes,
    };
    (limits, row)
}

// Of each file its name, its length and its CRC-32.
fn add_files(to: &mut String, store: &mut MemoryStore) -> Result<(), AllocError> {
    to.push('[')?;
    let Ok(parts) = parts(*to.allocator(), store) else {
        return to.push_str("fault]");
    };
    for (at, part) in parts.as_slice().iter().enumerate() {
        let name = name_of(*to.allocator(), part.as_str())?;
        let bytes = store.bytes(name.as_str()).unwrap_or(&[]);
        to.push_str(if at > 0 { ", " } else { "" })?;
        let (length, sum) = (bytes.len(), crc32(bytes));
        write!(to, "{} {length} {sum:08x}", part.as_str())?;
    }
    to.push(']')
}
