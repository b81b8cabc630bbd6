// Calls of stores on the disk, and of files that other programs write.
use crate::answers::CallAnswer;
use crate::machine::greatest_length;
use crate::words::number;
use io_real::{FileStore, RealFiles};
use io_traits::{Files, Store, append_and_settle, append_to_tail, cut_and_settle, settle_and_mark};
use std::alloc::Global;
use std::io;
use table_rows::first_word;

/// What a call of a store answers.
pub fn store_answer<'a>(
    rt: &'a HostRuntime,
    store: &mut FileStore<&'a HostRuntime>,
    call: &str,
) -> io::Result<CallAnswer> {
    let (call, rest) = first_word(call);
    let (name, rest) = first_word(rest);
    match call {
        "new" => {
            *store = FileStore::new(rt.alloc(), rt);
            Ok(CallAnswer::Done)
        }
        "list" => Ok(CallAnswer::names(store.list(rt.alloc(), name))),
        "length" => Ok(CallAnswer::length(store.length(name))),
        "read" => read(rt.alloc(), store, name, rest),
        "each" => each(rt.alloc(), store, name, rest),
        "faults" => Ok(CallAnswer::Number(store.faults())),
        "end" => {
            let most = greatest_length(rt, rest)?;
            let outcome = store.write_at(name, most.saturating_sub(2), b"more");
            Ok(CallAnswer::done(outcome))
        }
        _ => Ok(changes(store, call, name, rest)),
    }
}

// What a call answers that changes a file, or settles what was changed.
fn changes(store: &mut FileStore<&HostRuntime>, call: &str, name: &str, rest: &str) -> CallAnswer {
    let (at, bytes) = first_word(rest);
    CallAnswer::done(match call {
        "append" => store.append(name, rest.as_bytes()),
        "write" => store.write_at(name, number(at), bytes.as_bytes()),
        "cut" => store.cut(name, number(at)),
        "remove" => store.remove(name),
        "append-to-tail" => append_to_tail(store, name, rest.as_bytes()),
        "append-and-settle" => append_and_settle(store, name, rest.as_bytes()),
        "cut-and-settle" => cut_and_settle(store, name, number(at)),
        "settle-and-mark" => settle_and_mark(store, name, number(at), bytes.as_bytes()),
        _ => store.sync(),
    })
}

fn read(
    alloc: Global,
    store: &mut FileStore<&HostRuntime>,
    name: &str,
    rest: &str,
) -> io::Result<CallAnswer> {
    let (at, room) = first_word(rest);
    let mut room = vec![in alloc; b'-'; number(room) as usize]?;
    let outcome = store.read(name, number(at), &mut room);
    Ok(CallAnswer::read(room, outcome))
}

// Appends to each of so many files in a folder, or with no bytes asks for the length of each. The answer
// is how many calls did their work.
fn each(
    alloc: Global,
    store: &mut FileStore<&HostRuntime>,
    folder: &str,
    rest: &str,
) -> io::Result<CallAnswer> {
    let (count, bytes) = first_word(rest);
    let mut done = 0_u64;
    for i in 0..number(count) {
        let name = format!(in alloc; "{folder}/{i}")?;
        let worked = if bytes.is_empty() {
            matches!(store.length(name.as_str()), Ok(Some(_)))
        } else {
            store.append(name.as_str(), bytes.as_bytes()).is_ok()
        };
        done = done.saturating_add(u64::from(worked));
    }
    Ok(CallAnswer::Number(done))
}

/// What a call of files that other programs write answers.
pub fn files_answer(
    alloc: Global,
    files: &mut RealFiles<&HostRuntime>,
    call: &str,
) -> io::Result<CallAnswer> {
    let (call, rest) = first_word(call);
    let (name, rest) = first_word(rest);
    match call {
        "list" => Ok(CallAnswer::names(files.list(alloc, name))),
        "length" => Ok(CallAnswer::length(files.length(name))),
        "read" => {
            let (at, room) = first_word(rest);
            let mut room = vec![in alloc; b'-'; number(room) as usize]?;
            let outcome = files.read(name, number(at), &mut room);
            Ok(CallAnswer::read(room, outcome))
        }
        "count" => {
            let mut room = vec![in alloc; b'-'; number(rest) as usize]?;
            let outcome = files.read(name, 0, &mut room);
            Ok(CallAnswer::length(outcome.map(|count| Some(count as u64))))
        }
        "calls" => Ok(CallAnswer::Number(files.calls())),
        _ => Ok(CallAnswer::Number(files.faults())),
    }
}
