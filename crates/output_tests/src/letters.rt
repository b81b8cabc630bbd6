// Rejected events, appended to the dead letters of a pipeline.
use crate::boxes::{Deaf, boxed};
use dead_letters::{DeadLetter, Letters, Shedding};
use event_tree::{DeadList, Event, Events, Instant, Text};
use foreign_parts::{Fate, Fates};
use io_memory::Script;
use io_traits::{QueueFault, Store};
use line_outputs::{BoxedOutput, LetterFault, StoredOutputs, new_letters};
use settings_lines::Policy;
use std::alloc::{AllocError, Global};
use store_memory::{FileTable, MemoryStore};
use table_rows::{first_number, first_word};

/// The folder of the pipeline.
const FOLDER: &str = "q/";

/// How many bytes the letters may have, and what is given up where that is too little.
#[derive(Clone, Copy)]
struct LetterRules {
    policy: Policy,
    limit: u64,
}

/// Adds what comes of a row's batches, and the letters that are held then.
pub fn add_run(to: &mut String, row: &str) -> Result<(), AllocError> {
    let (policy, row) = first_word(row);
    let (limit, batches) = first_number(row);
    let rules = LetterRules {
        policy: policy_of(policy),
        limit,
    };
    let alloc = *to.allocator();
    let script = Script::new(alloc, &[], &[])?;
    let mut store = MemoryStore::new(FileTable::new(alloc), script, u64::MAX)?;
    for batch in batches.split(';') {
        add_batch(to, &mut store, rules, batch)?;
    }
    match held(alloc, &mut store, rules) {
        Ok(letters) => add_letters(to, letters.as_slice()),
        Err(_) => to.push_str("| fault"),
    }
}

fn policy_of(word: &str) -> Policy {
    match word {
        "drop_newer" => Policy::DropNewer,
        "drop_older" => Policy::DropOlder,
        _ => Policy::Hold,
    }
}

fn add_letters(to: &mut String, letters: &[DeadLetter]) -> Result<(), AllocError> {
    for letter in letters {
        let (kind, id) = (letter.kind.as_str(), letter.id.as_str());
        write!(to, "| {kind} {id} {} ", letter.reason.as_str())?;
    }
    Ok(())
}

fn add_batch(
    to: &mut String,
    store: &mut MemoryStore,
    rules: LetterRules,
    batch: &str,
) -> Result<(), AllocError> {
    let alloc = *to.allocator();
    let parts = rejected(alloc, batch)?;
    let letters = new_letters(alloc, Instant::epoch(), parts.as_slice())?;
    match appended(alloc, store, rules, letters.as_slice()) {
        Ok(told) => add_told(to, told),
        Err(_) => to.push_str("fault "),
    }
}

fn add_told(to: &mut String, told: Result<Shedding, LetterFault>) -> Result<(), AllocError> {
    match told {
        Ok(shed) => add_shed(to, &shed),
        Err(LetterFault::Full(size, added, limit)) => {
            write!(to, "full, {size} and {added} over {limit} ")
        }
        Err(LetterFault::TooLong) => to.push_str("too long "),
        Err(LetterFault::Fault) => to.push_str("fault "),
        Err(LetterFault::Memory) => Err(AllocError),
    }
}

fn add_shed(to: &mut String, shed: &Shedding) -> Result<(), AllocError> {
    write!(to, "older {}, newer ", shed.older)?;
    for place in shed.newer.as_slice() {
        write!(to, "{place} ")?;
    }
    Ok(())
}

// ---- events and their fates

// What a boxed output rejected of empty events, by the words of their fates.
fn rejected(alloc: Global, batch: &str) -> Result<DeadList, AllocError> {
    let fates = fates_of(alloc, batch)?;
    let events = events_of(alloc, fates.len())?;
    rejections_of(
        alloc,
        &boxed(alloc, 1)?,
        fates.as_slice(),
        events.as_slice(),
    )
}

fn rejections_of(
    alloc: Global,
    output: &BoxedOutput<Deaf>,
    fates: &[Fate],
    events: &[Event],
) -> Result<DeadList, AllocError> {
    if fates.len() != events.len() {
        return Ok(DeadList::new(alloc));
    }
    output.rejections(fates, events)
}

fn fates_of(alloc: Global, batch: &str) -> Result<Fates, AllocError> {
    let mut fates = Fates::new(alloc);
    for word in batch.split_whitespace() {
        fates.push(fate_of(alloc, word)?)?;
    }
    Ok(fates)
}

fn fate_of(alloc: Global, word: &str) -> Result<Fate, AllocError> {
    match word.split_once(':') {
        None => Ok(Fate::Took),
        Some((status, text)) => Ok(Fate::Rejected(
            status.parse().unwrap_or(0),
            Text::of(alloc, text)?,
        )),
    }
}

fn events_of(alloc: Global, count: usize) -> Result<Events, AllocError> {
    let mut events = Events::new(alloc);
    for _ in 0..count {
        events.push(Event::new(alloc))?;
    }
    Ok(events)
}

// ---- the calls, of any store

fn appended<S: Store>(
    alloc: Global,
    store: &mut S,
    rules: LetterRules,
    letters: &[DeadLetter],
) -> Result<Result<Shedding, LetterFault>, QueueFault> {
    let mut outputs = StoredOutputs::open_on(alloc, store, FOLDER, rules.limit, rules.policy)?;
    Ok(outputs.append_letters(store, letters))
}

fn held<S: Store>(alloc: Global, store: &mut S, rules: LetterRules) -> Result<Letters, QueueFault> {
    let outputs = StoredOutputs::open_on(alloc, store, FOLDER, rules.limit, rules.policy)?;
    outputs.letters.entries(store)
}
