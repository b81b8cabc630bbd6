// Queues of dead letters.
ghost use Rattle.std.specs.Prelude.{IsTrue};
ghost use Rattle.dead_letters.specs.Appends.{AllFit};

use crate::files::add_fault;
use crate::letters::{add_said, policy_of};
use dead_letters::{DeadFault, DeadLetter, DeadLetters, Letters, Shedding, read_records};
use io_memory::Script;
use io_traits::{ListFault, QueueFault, Store};
use plain_data::{Items, Names, Text};
use settings_lines::Policy;
use std::alloc::{AllocError, Global};
use store_memory::{FileTable, MemoryStore};
use table_rows::{bytes_of, first_number, first_word};

/// The folder of the queue.
pub const FOLDER: &str = "q/";

/// What a queue holds, and what it does where that is too little.
#[derive(Clone, Copy)]
struct LetterLimits {
    policy: Policy,
    limit: u64,
}

/// How many moments of a store are tried, and how many calls as the one that fails.
const CALLS: u64 = 100;

/// How many images each moment has.
pub const CHOICES: u64 = 4;

/// Adds what comes of a row's letters, which are appended batch by batch, with an opening before each; what
/// the queue holds then, and which files its folder has.
pub fn add_run(to: &mut String, row: &str) -> Result<(), AllocError> {
    let (rules, row) = rules_of(row);
    let (files, batches) = row.split_once(';').unwrap_or((row, ""));
    let mut store = store_of(*to.allocator(), u64::MAX, files)?;
    add_appends(to, &mut store, rules, batches)?;
    add_held(to, &mut store, rules)?;
    add_files(to, &mut store)
}

/// Adds all that a queue may hold where a stop comes at any moment of such a run, or where one call of its
/// store fails, each once.
pub fn add_stops(to: &mut String, row: &str) -> Result<(), AllocError> {
    let (rules, row) = rules_of(row);
    let (files, batches) = row.split_once(';').unwrap_or((row, ""));
    let mut done = String::new(*to.allocator());
    let mut store = store_of(*to.allocator(), u64::MAX, files)?;
    add_appends(&mut done, &mut store, rules, batches)?;
    for moment in 0..CALLS {
        add_images(to, &store, rules, moment)?;
    }
    for failing in 0..CALLS {
        let mut store = store_of(*to.allocator(), failing, files)?;
        add_appends(&mut done, &mut store, rules, batches)?;
        add_images(to, &store, rules, store.moment())?;
    }
    Ok(())
}

fn rules_of(row: &str) -> (LetterLimits, &str) {
    let (policy, row) = first_word(row);
    let (limit, row) = first_number(row);
    let rules = LetterLimits {
        policy: policy_of(policy),
        limit,
    };
    (rules, row)
}

/// A store with the files of a row, which stand between bars, each with the last part of its name in front; the
/// call of this number fails.
pub fn store_of(alloc: Global, failing: u64, files: &str) -> Result<MemoryStore, AllocError> {
    let mut table = FileTable::new(alloc);
    for file in files.split('|') {
        let (part, digits) = first_word(file.trim());
        if !part.is_empty() {
            let bytes = bytes_of(alloc, digits)?;
            let _ = table.insert(name_of(alloc, part)?, Items::from_vec(bytes))?;
        }
    }
    MemoryStore::new(table, Script::new(alloc, &[failing], &[])?, u64::MAX)
}

/// The path of a file in the folder of the queue.
pub fn name_of(alloc: Global, part: &str) -> Result<Text, AllocError> {
    let mut name = String::new(alloc);
    name.push_str(FOLDER)?;
    name.push_str(part)?;
    Ok(Text::from_string(name))
}

// ---- appends

fn add_appends(
    to: &mut String,
    store: &mut MemoryStore,
    rules: LetterLimits,
    batches: &str,
) -> Result<(), AllocError> {
    for batch in batches.split(';') {
        add_append(to, store, rules, batch)?;
    }
    Ok(())
}

fn add_append(
    to: &mut String,
    store: &mut MemoryStore,
    rules: LetterLimits,
    batch: &str,
) -> Result<(), AllocError> {
    let bytes = bytes_of(*to.allocator(), batch)?;
    if bytes.is_empty() {
        return Ok(());
    }
    let Ok(letters) = read_records(*to.allocator(), &bytes) else {
        return to.push_str("no letters; ");
    };
    match appended(*to.allocator(), store, rules, letters.as_slice()) {
        Ok(told) => add_told(to, told)?,
        Err(fault) => add_fault(to, store, &fault)?,
    }
    to.push_str("; ")
}

fn add_told(to: &mut String, told: Result<Shedding, DeadFault>) -> Result<(), AllocError> {
    match told {
        Ok(shed) => add_shed(to, &shed),
        Err(DeadFault::Full(size, added, limit)) => write!(
            to,
            "full, {size} and {added} over {limit}"
        ),
        Err(DeadFault::Fault) => to.push_str("fault"),
        Err(DeadFault::Memory) => Err(AllocError),
    }
}

fn add_shed(to: &mut String, shed: &Shedding) -> Result<(), AllocError> {
    write!(to, "older {}, newer", shed.older)?;
    for place in shed.newer.as_slice() {
        write!(to, " {place}")?;
    }
    Ok(())
}

// ---- what is held

// The ids of the letters, or the damage, between brackets.
fn add_held(
    to: &mut String,
    store: &mut MemoryStore,
    rules: LetterLimits,
) -> Result<(), AllocError> {
    to.push('[')?;
    match entries(*to.allocator(), store, rules) {
        Ok(letters) => add_ids(to, letters.as_slice())?,
        Err(fault) => add_fault(to, store, &fault)?,
    }
    to.push(']')
}

fn add_ids(to: &mut String, letters: &[DeadLetter]) -> Result<(), AllocError> {
    for (at, letter) in letters.iter().enumerate() {
        if at > 0 {
            to.push(' ')?;
        }
        to.push_str(letter.id.as_str())?;
    }
    Ok(())
}

// What the file says that names the segments, and the lengths of all files.
fn add_files(to: &mut String, store: &mut MemoryStore) -> Result<(), AllocError> {
    to.push(' ')?;
    add_said(to, store, "q/dead.seg")?;
    let Ok(parts) = parts(*to.allocator(), store) else {
        return to.push_str(", fault");
    };
    for part in parts.as_slice() {
        add_length(to, store, part.as_str())?;
    }
    Ok(())
}

fn add_length(to: &mut String, store: &MemoryStore, part: &str) -> Result<(), AllocError> {
    let name = name_of(*to.allocator(), part)?;
    let length = store.bytes(name.as_str()).unwrap_or(&[]).len();
    write!(to, ", {part} {length}")
}

// What is held in the images of a moment of a store, if it has one, each that isn't there yet.
fn add_images(
    to: &mut String,
    store: &MemoryStore,
    rules: LetterLimits,
    moment: u64,
) -> Result<(), AllocError> {
    for choice in 0..CHOICES {
        add_image(to, store, rules, moment, choice)?;
    }
    Ok(())
}

fn add_image(
    to: &mut String,
    store: &MemoryStore,
    rules: LetterLimits,
    moment: u64,
    choice: u64,
) -> Result<(), AllocError> {
    if store.moment() < moment {
        return Ok(());
    }
    let mut image = store.images(moment, choice)?;
    let mut held = String::new(*to.allocator());
    add_held(&mut held, &mut image, rules)?;
    if to.contains(held.as_str()) {
        return Ok(());
    }
    to.push_str(held.as_str())
}

// ---- the calls, of any store and without clauses, so that nothing is said of a store in memory where they are made

/// The last parts of the names in the folder of the queue.
pub fn parts<S: Store>(alloc: Global, store: &mut S) -> Result<Names, ListFault> {
    store.list(alloc, FOLDER)
}

fn entries<S: Store>(
    alloc: Global,
    store: &mut S,
    rules: LetterLimits,
) -> Result<Letters, QueueFault> {
    let queue = DeadLetters::open_on(alloc, store, FOLDER, rules.limit, rules.policy)?;
    queue.entries(store)
}

fn appended<S: Store>(
    alloc: Global,
    store: &mut S,
    rules: LetterLimits,
    letters: &[DeadLetter],
) -> Result<Result<Shedding, DeadFault>, QueueFault> {
    let mut queue = DeadLetters::open_on(alloc, store, FOLDER, rules.limit, rules.policy)?;
    if !all_fit(letters) {
        return Ok(Err(DeadFault::Memory));
    }
    Ok(queue.append(store, letters))
}

// Whether the records of all letters can be written.
fn all_fit(letters: &[DeadLetter]) -> bool
    ensures { IsTrue result → AllFit letters.now }
{
    for letter in letters {
        if !letter.fits_record() {
            return false;
        }
    }
    true
}
