// What is shown of a store behind the runs.
use crate::answers::add_bytes;
use crate::opened::FOLDER;
use crate::setups::Setup;
use dead_letters::{DeadLetter, Letters};
use event_tree::{Path, Value};
use io_traits::{Failed, QueueFault, Store};
use line_inputs::position_path;
use line_outputs::StoredOutputs;
use slot_files::{Recorded, read_position};
use std::alloc::{AllocError, Global};
use store_memory::MemoryStore;

/// Adds what the words ask for.
pub fn add_shown(
    to: &mut String,
    store: &mut MemoryStore,
    setup: &Setup<'_>,
    words: &str,
) -> Result<(), AllocError> {
    for word in words.split_whitespace() {
        let (what, path) = word.split_once(':').unwrap_or((word, ""));
        match what {
            "at" => add_input(to, store, path)?,
            "out" => add_output(to, store, path)?,
            "names" => add_names(to, store)?,
            _ => add_letters(to, store, setup)?,
        }
    }
    Ok(())
}

fn add_input(to: &mut String, store: &mut MemoryStore, path: &str) -> Result<(), AllocError> {
    let slot = position_path(*to.allocator(), FOLDER, path)?;
    write!(to, "| {path}")?;
    let found = position(store, slot.as_str());
    add_recorded(to, found)
}

fn add_output(to: &mut String, store: &mut MemoryStore, path: &str) -> Result<(), AllocError> {
    write!(to, "| {path} ")?;
    add_bytes(to, store.bytes(path).unwrap_or(&[]))?;
    let slot = format!(in *to.allocator(); "{FOLDER}out.{path}")?;
    let found = position(store, slot.as_str());
    add_recorded(to, found)
}

fn add_recorded(to: &mut String, found: Result<Recorded, Failed>) -> Result<(), AllocError> {
    match found {
        Ok(Recorded::Nothing) => to.push_str(" nothing "),
        Ok(Recorded::Position(_, position)) => write!(to, " {position} "),
        Ok(Recorded::Damaged(_, _)) => to.push_str(" damaged "),
        Err(_) => to.push_str(" fault "),
    }
}

fn add_names(to: &mut String, store: &mut MemoryStore) -> Result<(), AllocError> {
    to.push('|')?;
    if let Ok(names) = store.list(*to.allocator(), FOLDER) {
        for name in names.as_slice() {
            write!(to, " {}", name.as_str())?;
        }
    }
    Ok(())
}

fn add_letters(
    to: &mut String,
    store: &mut MemoryStore,
    setup: &Setup<'_>,
) -> Result<(), AllocError> {
    match letters(*to.allocator(), store, setup) {
        Ok(letters) => add_each(to, letters.as_slice()),
        Err(_) => to.push_str("| fault"),
    }
}

fn add_each(to: &mut String, letters: &[DeadLetter]) -> Result<(), AllocError> {
    for letter in letters {
        add_letter(to, letter)?;
    }
    Ok(())
}

fn add_letter(to: &mut String, letter: &DeadLetter) -> Result<(), AllocError> {
    let (kind, id) = (letter.kind.as_str(), letter.id.as_str());
    write!(to, "| {kind} {id} {}: ", letter.reason.as_str())?;
    if let Ok(path) = Path::read(*to.allocator(), "message") {
        if let Some(Value::Text(text)) = letter.event.get(&path) {
            return to.push_str(text.as_str());
        }
    }
    to.push('?')
}

// ---- of any store

fn position<S: Store>(store: &mut S, slot: &str) -> Result<Recorded, Failed> {
    read_position(store, slot)
}

fn letters<S: Store>(
    alloc: Global,
    store: &mut S,
    setup: &Setup<'_>,
) -> Result<Letters, QueueFault> {
    let outputs = StoredOutputs::open_on(alloc, store, FOLDER, setup.dead, setup.policy)?;
    outputs.letters.entries(store)
}
