// Output files and their position files, with calls that fail.
use crate::files::add_fault;
use io_memory::Script;
use io_traits::{Failed, QueueFault, Store};
use plain_data::{Items, Text};
use slot_files::{OutFile, PositionOf, Recorded, position_name, read_position};
use std::alloc::{AllocError, Global};
use store_memory::{FileTable, MemoryStore};
use table_rows::{add_bytes, bytes_of, first_number, first_word};

/// The name of the output file.
const PATH: &str = "out.log";

/// The name of its position file.
const SLOT: &str = "out.pos";

/// A store with the two files of an output, and a batch.
struct OutputCase {
    store: MemoryStore,
    batch: Vec<u8>,
}

// Written out, so that it is one call wherever an error is handed on.
impl Drop for OutputCase {
    fn drop(self) {
        let OutputCase {
            store: _store,
            batch: _batch,
        } = self;
    }
}

/// Adds what a row's position file records.
pub fn add_position(to: &mut String, row: &str) -> Result<(), AllocError> {
    let mut case = case_of(*to.allocator(), u64::MAX, row)?;
    match position(&mut case.store) {
        Ok(Recorded::Nothing) => to.push_str("nothing"),
        Ok(Recorded::Position(turn, position)) => write!(to, "{position} in turn {turn}"),
        Ok(Recorded::Damaged(found, expected)) => write!(to, "{found}, not {expected}"),
        Err(_) => to.push_str("fault"),
    }
}

/// Adds the name of the position file for a row's path.
pub fn add_name(to: &mut String, row: &str) -> Result<(), AllocError> {
    let (kind, path) = first_word(row);
    let of = if kind == "in" {
        PositionOf::Input
    } else {
        PositionOf::Output
    };
    let name = position_name(*to.allocator(), of, path)?;
    to.push_str(name.as_str())
}

/// Adds the files of a row's output once it is open.
pub fn add_opened(to: &mut String, row: &str) -> Result<(), AllocError> {
    let mut case = case_of(*to.allocator(), u64::MAX, row)?;
    add_open(to, &mut case.store)
}

/// Adds the files behind a batch that is appended to a row's output, where the call of its store fails that
/// is named; and behind one more opening.
pub fn add_appended(to: &mut String, row: &str) -> Result<(), AllocError> {
    let (failing, row) = first_number(row);
    let mut case = case_of(*to.allocator(), failing, row)?;
    append(to, &mut case)?;
    to.push_str(" | ")?;
    add_open(to, &mut case.store)
}

/// Adds what an opening finds in an image of a row's store, by the moment of the image and its choice, after
/// the output was opened and a batch was appended.
pub fn add_image(to: &mut String, row: &str) -> Result<(), AllocError> {
    let (moment, row) = first_number(row);
    let (choice, row) = first_number(row);
    let mut case = case_of(*to.allocator(), u64::MAX, row)?;
    append(to, &mut case)?;
    if case.store.moment() < moment {
        return to.push_str(" | no such moment");
    }
    let mut image = case.store.images(moment, choice)?;
    to.push_str(" | ")?;
    add_open(to, &mut image)
}

// The files and the batch of a row stand between bars. There is no file where there are no bytes.
fn case_of(alloc: Global, failing: u64, row: &str) -> Result<OutputCase, AllocError> {
    let (slots, row) = row.split_once('|').unwrap_or((row, ""));
    let (file, batch) = row.split_once('|').unwrap_or((row, ""));
    let mut files = FileTable::new(alloc);
    add_file(&mut files, SLOT, slots)?;
    add_file(&mut files, PATH, file)?;
    Ok(OutputCase {
        store: MemoryStore::new(files, Script::new(alloc, &[failing], &[])?, u64::MAX)?,
        batch: bytes_of(alloc, batch)?,
    })
}

fn add_file(files: &mut FileTable, name: &str, digits: &str) -> Result<(), AllocError> {
    let bytes = bytes_of(files.allocator(), digits)?;
    if !bytes.is_empty() {
        let _ = files.insert(Text::of(files.allocator(), name)?, Items::from_vec(bytes))?;
    }
    Ok(())
}

// Opens the output and appends the batch.
fn append(to: &mut String, case: &mut OutputCase) -> Result<(), AllocError> {
    match opened_with(*to.allocator(), &mut case.store, &case.batch) {
        Ok(true) => to.push_str("done"),
        Ok(false) => to.push_str("not done"),
        Err(fault) => add_fault(to, &case.store, &fault),
    }
}

fn add_open(to: &mut String, store: &mut MemoryStore) -> Result<(), AllocError> {
    match opened(*to.allocator(), store) {
        Ok(()) => add_files(to, store),
        Err(fault) => add_fault(to, store, &fault),
    }
}

fn add_files(to: &mut String, store: &MemoryStore) -> Result<(), AllocError> {
    add_bytes(to, store.bytes(SLOT).unwrap_or(&[]))?;
    to.push(' ')?;
    add_bytes(to, store.bytes(PATH).unwrap_or(&[]))
}

// The calls, of any store and without clauses, so that nothing is said of a store in memory where they are
// made.

fn position<S: Store>(store: &mut S) -> Result<Recorded, Failed> {
    read_position(store, SLOT)
}

fn opened<S: Store>(alloc: Global, store: &mut S) -> Result<(), QueueFault> {
    let _out = OutFile::open_on(alloc, store, PATH, SLOT)?;
    Ok(())
}

// Whether the batch was appended.
fn opened_with<S: Store>(alloc: Global, store: &mut S, batch: &[u8]) -> Result<bool, QueueFault> {
    let mut out = OutFile::open_on(alloc, store, PATH, SLOT)?;
    Ok(out.append_batch(store, batch).is_ok())
}
