// Deliveries to the output files of a pipeline.
ghost use Rattle.std.specs.Prelude.{◌≡◌, codes};
ghost use Rattle.line_outputs.specs.OpenFiles.{FilesReady, IsOutside};

use io_memory::Script;
use io_traits::{Failed, QueueFault, Store};
use line_outputs::OutputFiles;
use slot_files::{Recorded, read_position};
use std::alloc::AllocError;
use store_memory::{FileTable, MemoryStore};
use table_rows::first_number;

/// Adds what comes of a row's deliveries, and the files behind them.
pub fn add_run(to: &mut String, row: &str) -> Result<(), AllocError> {
    let (failing, words) = first_number(row);
    let alloc = *to.allocator();
    let script = Script::new(alloc, &[failing], &[])?;
    let mut store = MemoryStore::new(FileTable::new(alloc), script, u64::MAX)?;
    add_calls(to, &mut store, words)?;
    add_file(to, &mut store, "a.log", "q/out.a.log")?;
    add_file(to, &mut store, "b.log", "q/out.b.log")
}

fn add_file(
    to: &mut String,
    store: &mut MemoryStore,
    path: &str,
    slot: &str,
) -> Result<(), AllocError> {
    write!(to, "| {path} ")?;
    for byte in store.bytes(path).unwrap_or(&[]) {
        to.push((*byte % 128) as char)?;
    }
    match position(store, slot) {
        Ok(Recorded::Nothing) => to.push_str(" nothing "),
        Ok(Recorded::Position(turn, position)) => write!(to, " {position} in turn {turn} "),
        Ok(Recorded::Damaged(_, _)) => to.push_str(" damaged "),
        Err(_) => to.push_str(" fault "),
    }
}

// ---- the calls, of any store

fn position<S: Store>(store: &mut S, slot: &str) -> Result<Recorded, Failed> {
    read_position(store, slot)
}

fn add_calls<S: Store>(to: &mut String, store: &mut S, words: &str) -> Result<(), AllocError> {
    let mut files = OutputFiles::new(*to.allocator(), "q/")?;
    for word in words.split_whitespace() {
        add_call(to, &mut files, store, word)?;
    }
    Ok(())
}

fn add_call<S: Store>(
    to: &mut String,
    files: &mut OutputFiles,
    store: &mut S,
    word: &str,
) -> Result<(), AllocError>
    requires ready { FilesReady S.Store files.old store.old }
    requires folder { files.old.folder ≡ codes "q/" }
    ensures ready { FilesReady S.Store files.new store.new }
    ensures folder { files.new.folder ≡ codes "q/" }
{
    let (name, text) = word.split_once('=').unwrap_or((word, ""));
    let path = path_of(name);
    let answer = files.append(store, path, text.as_bytes());
    let shows = if files.is_open(path) {
        "open "
    } else {
        "closed "
    };
    add_answer(to, answer)?;
    to.push_str(shows)
}

fn add_answer(to: &mut String, answer: Result<(), QueueFault>) -> Result<(), AllocError> {
    match answer {
        Ok(()) => to.push_str("done, "),
        Err(QueueFault::Fault) => to.push_str("fault, "),
        Err(QueueFault::Damaged(_)) => to.push_str("damaged, "),
        Err(QueueFault::Memory) => Err(AllocError),
    }
}

// The path of a file, which doesn't begin with that of the folder.
fn path_of(name: &str) -> &'static str
    ensures { IsOutside (codes "q/") result.now }
{
    if name == "b" { "b.log" } else { "a.log" }
}
