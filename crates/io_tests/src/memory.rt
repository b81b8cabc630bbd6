// Calls of a store in memory, and what a stop may leave of it.
ghost use Rattle.std.specs.Prelude.{◌≡◌};
ghost use Rattle.io_traits.specs.Reads.{file_length};
ghost use Rattle.store_memory.specs.Keeping.{reads_of};

use crate::answers::CallAnswer;
use crate::words::number;
use io_memory::Script;
use io_traits::Failed;
use plain_data::{Items, Text};
use std::alloc::{AllocError, Global};
use std::io;
use store_memory::{FileTable, MemoryStore};
use table_rows::first_word;

// What a stop leaves of a file that is missing.
const NO_FILE: &str = "no file";

/// What a call of a store in memory answers. `new` makes one of a file with these bytes, or of none;
/// `failing` one of which the call of this number fails; `stopped` one that is stopped after so many
/// calls; `full` one whose counts stand at their last value.
pub fn memory_answer(alloc: Global, store: &mut MemoryStore, call: &str) -> io::Result<CallAnswer> {
    let (call, rest) = first_word(call);
    let (name, words) = first_word(rest);
    match call {
        "new" | "failing" | "stopped" | "full" => {
            *store = made(alloc, call, name, words)?;
            Ok(CallAnswer::Done)
        }
        "left" => left(alloc, store, number(name), words),
        "faults" => Ok(CallAnswer::Number(store.script().faults())),
        "moment" => Ok(CallAnswer::Number(store.moment())),
        "logged" => Ok(logged(store, number(name))),
        "read" => read(alloc, store, name, words),
        "list" => Ok(CallAnswer::names(store.list(alloc, name))),
        "length" => Ok(CallAnswer::length(store.length(name))),
        _ => Ok(CallAnswer::done(changes(store, call, name, words))),
    }
}

/// A store without files.
pub fn empty_store(alloc: Global) -> Result<MemoryStore, AllocError> {
    MemoryStore::new(FileTable::new(alloc), Script::empty(alloc), u64::MAX)
}

fn made(alloc: Global, how: &str, word: &str, bytes: &str) -> Result<MemoryStore, AllocError> {
    let mut files = FileTable::new(alloc);
    match how {
        "failing" => {
            let script = Script::new(alloc, &[number(word)], &[])?;
            MemoryStore::new(files, script, u64::MAX)
        }
        "stopped" => MemoryStore::new(files, Script::empty(alloc), number(word)),
        "full" => {
            let script = Script::empty(alloc).counting_from(u64::MAX, u64::MAX, u64::MAX);
            MemoryStore::new(files, script, u64::MAX)
        }
        _ => {
            if !word.is_empty() {
                let file = Items::from_vec(Vec::from_slice(alloc, bytes.as_bytes())?);
                let _ = files.insert(Text::of(alloc, word)?, file)?;
            }
            MemoryStore::new(files, Script::empty(alloc), u64::MAX)
        }
    }
}

// The length of a file, 0 of a missing one.
fn length_of(store: &MemoryStore, name: &str) -> u64
    ensures { result ≡ file_length (reads_of store.now name.now) }
{
    match store.bytes(name) {
        Some(bytes) => bytes.len() as u64,
        None => 0,
    }
}

// A change, or a sync. A place or a length that the file doesn't have is no call.
fn changes(store: &mut MemoryStore, call: &str, name: &str, words: &str) -> Result<(), Failed> {
    let (word, bytes) = first_word(words);
    let place = number(word);
    let is_within = place <= length_of(store, name);
    match call {
        "append" => store.append(name, words.as_bytes()),
        "write" if is_within => store.write_at(name, place, bytes.as_bytes()),
        "cut" if is_within => store.cut(name, place),
        "remove" => store.remove(name),
        "sync" => store.sync(),
        _ => Err(Failed),
    }
}

fn read(alloc: Global, store: &mut MemoryStore, name: &str, words: &str) -> io::Result<CallAnswer> {
    let (at, room) = first_word(words);
    let mut room = vec![in alloc; b'-'; number(room) as usize]?;
    let outcome = store.read(name, number(at), &mut room);
    Ok(CallAnswer::read(room, outcome))
}

// Whether the call of this number did its work, by the log.
fn logged(store: &MemoryStore, call: u64) -> CallAnswer {
    match store.calls().get(call as usize) {
        Some(logged) if logged.worked => CallAnswer::Done,
        Some(_) => CallAnswer::Failed,
        None => CallAnswer::None,
    }
}

// What a stop at a moment may leave of a file, by each choice.
fn left(alloc: Global, store: &MemoryStore, moment: u64, name: &str) -> io::Result<CallAnswer> {
    let mut line = String::new(alloc);
    for choice in 0..4 {
        line.push_str(" | ")?;
        add_left(&mut line, store, moment, choice, name)?;
    }
    Ok(CallAnswer::Line(line))
}

// A byte that is none of ASCII is shown as `*`.
fn add_left(
    line: &mut String,
    store: &MemoryStore,
    moment: u64,
    choice: u64,
    name: &str,
) -> Result<(), AllocError> {
    if moment > store.moment() {
        return Ok(());
    }
    let image = store.images(moment, choice)?;
    match image.bytes(name) {
        Some(bytes) => {
            for byte in bytes {
                line.push(if byte.is_ascii() { *byte as char } else { '*' })?;
            }
            Ok(())
        }
        None => line.push_str(NO_FILE),
    }
}
